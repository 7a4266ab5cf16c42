// An event's course at a copy: the library's answer, the save, the sending. A cut takes the rest.
ghost use Rattle.std.specs.Prelude.{◌+◌, ◌<◌, ◌≤◌, IfSome, length};

use crate::restart::with_room;
use crate::turn::Turn;
use nouns::command::op_number;
use paper::Refusal;
use say::held::put_part;
use say::message::put_message;
use say::value::{begin, say};
use say::wrong::put_wrong;
use scene::Scene;
use scene::copies::{bytes_saved, cut_before_saving, cut_before_sending, stopped};
use scene::disks::{is_changed, record_entry, save, save_part};
use scene::tables::{table_in, table_mut};
use scene::way::{is_full, put_on, to_of};
use script::{Event, Reason};
use table::record_part;
use text::put::finish;
use wire::length_of;

fn say_saved(all: &[u8], w: Scene, c: usize, o: usize, j: usize) {
    let at = begin(b"  copy # saves #.#: ", [c, o, j]);
    let part = record_part(table_in(all, w, c), w.n, w.s, c, o, j);
    finish(put_part(at, w.n, part));
}

// The copy saves what changed in the record of o.j, and says what it holds then.
fn save_record(all: &mut [u8], w: Scene, c: usize, o: usize, j: usize, changed: bool) -> Scene {
    if !changed {
        say(b"  copy #: nothing changes", [c]);
        return w;
    }
    say_saved(&*all, w, c, o, j);
    let entry = record_entry(&*all, w, c, o, j);
    save(all, w, c, &entry)
}

// What a cut leaves of an entry that it falls into.
pub fn say_part(c: usize, part: usize, length: usize) {
    if part == 0 {
        return;
    }
    say(
        b"  copy # has # of the entry's # bytes on its disk",
        [c, part, length],
    );
}

// The entry is not whole: nothing leaves.
fn cut_entry(all: &mut [u8], w: Scene, c: usize, o: usize, j: usize) -> Turn {
    let entry = record_entry(&*all, w, c, o, j);
    let reach = bytes_saved(w, c);
    say(b"  copy # is cut off before it saves #.#", [c, o, j]);
    say_part(c, reach, entry.as_slice().len());
    Ok(stopped(save_part(all, w, c, &entry, reach), c))
}

// One message leaves copy c: it is on the way from now on.
fn send_one(all: &mut [u8], w: Scene, c: usize, b: &[u8]) -> Scene {
    let to = to_of(b);
    let at = begin(b"  message # leaves # for #: ", [w.sent, c, to]);
    finish(put_message(at, w.n, w.s, to, b));
    put_on(all, w, c, to, b)
}

// The whole message at a place of the room, if one stands there.
fn whole_at(room: &[u8], at: usize) -> Option<&[u8]>
    ensures { IfSome result (λ b. (0 < length b.now) × (at + length b.now ≤ length room.now)) }
{
    let left = room.get(at..)?;
    let k = length_of(*left.first()? as usize);
    if k == 0 { None } else { left.get(..k) }
}

// Whole messages stand one after the other in the first bytes of the room.
fn send_all(all: &mut [u8], mut w: Scene, c: usize, room: &[u8], written: usize) -> Turn {
    let mut at = 0;
    while at < written {
        let Some(b) = whole_at(room, at) else {
            break;
        };
        if is_full(w) {
            return Err(Reason::WayFull);
        }
        w = send_one(&mut *all, w, c, b);
        at += b.len();
    }
    Ok(w)
}

// An answered event is saved, and then its messages leave.
fn save_and_send(
    all: &mut [u8],
    w: Scene,
    c: usize,
    o: usize,
    j: usize,
    room: &[u8],
    written: usize,
) -> Turn {
    let changed = is_changed(&*all, w, c, o, j);
    if cut_before_saving(w, c, changed) {
        return cut_entry(all, w, c, o, j);
    }
    let next = save_record(&mut *all, w, c, o, j, changed);
    if cut_before_sending(w, c) {
        say(b"  copy # is cut off before it sends", [c]);
        return Ok(stopped(next, c));
    }
    send_all(all, next, c, room, written)
}

fn refused(w: Scene, c: usize, b: &[u8], why: Refusal) -> Turn {
    finish(put_wrong(begin(b"  copy #:", [c]), w, c, b, why));
    Ok(w)
}

fn answered(
    all: &mut [u8],
    w: Scene,
    c: usize,
    b: &[u8],
    answer: Result<gate::Event, Refusal>,
    room: &[u8],
) -> Turn {
    match answer {
        Err(why) => refused(w, c, b, why),
        Ok(done) => save_and_send(all, w, c, done.owner, done.number, room, done.written),
    }
}

// What the library answers, with the message's bytes where the event is one. It writes into the room.
fn on_table(
    t: &mut [u8],
    w: Scene,
    c: usize,
    what: Event,
    b: &[u8],
    room: &mut [u8],
) -> Result<gate::Event, Refusal> {
    let n = w.n;
    let s = w.s;
    match what {
        Event::Request {
            op,
            key,
            second,
            edit,
        } => request::ask::request(t, n, s, c, room, op_number(op), key, second, edit),
        Event::Message => receive::message::message(t, n, s, c, room, b),
        Event::Recover { o, j } => recover::recover(t, n, s, c, room, o, j),
        Event::Nudge { o, j } => nudge::nudge(t, n, s, c, room, o, j),
    }
}

// An event at a copy that is up.
pub fn event(all: &mut [u8], old: Scene, c: usize, what: Event, b: &[u8]) -> Turn {
    let mut room = [0u8; 256];
    let w = with_room(&mut *all, old, c);
    let answer = on_table(table_mut(&mut *all, w, c), w, c, what, b, &mut room);
    answered(all, w, c, b, answer, &room)
}
