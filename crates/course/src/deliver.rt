// What becomes of messages on the way.
use crate::turn::Turn;
use crate::work::event;
use say::message::put_message;
use say::value::{begin, say};
use scene::Scene;
use scene::copies::is_down;
use scene::way::{
    Parcel, damage, find, message_at, number_at, parcel_at, shorten, take_off, to_at,
};
use script::{Event, Fate, Reason};
use text::bytes::byte_at;
use text::put::finish;

// The message reaches copy c, if that is up. What it is, the copy that it was sent to can tell.
fn arrive(all: &mut [u8], w: Scene, c: usize, m: &Parcel) -> Turn {
    if is_down(w, c) {
        say(b"  message # is lost: copy # is down", [m.number, c]);
        return Ok(w);
    }
    let at = begin(b"  message # arrives at #: ", [m.number, c]);
    let bytes = m.bytes.as_slice();
    finish(put_message(at, w.n, w.s, m.to, bytes));
    event(all, w, c, Event::Message, bytes)
}

// The message at a place of the way is taken off, and reaches copy c, whoever it was sent to.
fn stray_at(all: &mut [u8], w: Scene, i: usize, c: usize) -> Turn {
    if w.n <= c {
        return Err(Reason::NoCopy);
    }
    let m = parcel_at(&*all, i);
    let next = take_off(&mut *all, w, i);
    arrive(all, next, c, &m)
}

fn deliver_at(all: &mut [u8], w: Scene, i: usize) -> Turn {
    let to = to_at(&*all, i);
    stray_at(all, w, i, to)
}

// The message stays on the way, to arrive once more.
fn repeat_at(all: &mut [u8], w: Scene, i: usize) -> Turn {
    let m = parcel_at(&*all, i);
    arrive(all, w, m.to, &m)
}

fn drop_at(all: &mut [u8], w: Scene, i: usize) -> Turn {
    say(b"  message # is lost on the way", [number_at(&*all, i)]);
    Ok(take_off(all, w, i))
}

fn damage_at(all: &mut [u8], w: Scene, i: usize, at: usize, byte: u8) -> Turn {
    let m = message_at(&*all, i);
    if m.len() <= at {
        return Err(Reason::NoByte);
    }
    say(
        b"  message # is damaged: byte # was #",
        [number_at(&*all, i), at, byte_at(m, at)],
    );
    damage(all, i, at, byte);
    Ok(w)
}

fn shorten_at(all: &mut [u8], w: Scene, i: usize, length: usize) -> Turn {
    let had = message_at(&*all, i).len();
    if had < length {
        return Err(Reason::NoByte);
    }
    say(
        b"  message # keeps # of # bytes",
        [number_at(&*all, i), length, had],
    );
    shorten(all, i, length);
    Ok(w)
}

fn meet(all: &mut [u8], w: Scene, i: usize, fate: Fate) -> Turn {
    match fate {
        Fate::Deliver => deliver_at(all, w, i),
        Fate::Stray(c) => stray_at(all, w, i, c),
        Fate::Drop => drop_at(all, w, i),
        Fate::Repeat => repeat_at(all, w, i),
        Fate::Damage { at, byte } => damage_at(all, w, i, at, byte),
        Fate::Shorten(length) => shorten_at(all, w, i, length),
    }
}

// The oldest message between two copies.
pub fn between(all: &mut [u8], w: Scene, from: usize, to: usize, fate: Fate) -> Turn {
    let i = find(&*all, w, from, to).ok_or(Reason::NoMessage)?;
    meet(all, w, i, fate)
}

// Oldest first, until nothing is on the way.
pub fn deliver_all(all: &mut [u8], mut w: Scene) -> Turn {
    for _ in 0..100000 {
        if w.waiting == 0 {
            return Ok(w);
        }
        w = deliver_at(&mut *all, w, 0)?;
    }
    Err(Reason::Restless)
}
