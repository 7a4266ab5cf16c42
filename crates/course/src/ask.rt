// The settled question and the hand-out at a copy.
use crate::restart::with_room;
use crate::turn::Turn;
use crate::work::say_part;
use nouns::setup::INSTANCES;
use order::Settling;
use order::codes::{number_of, owner_of};
use paper::{Command, Refusal};
use say::value::{begin, put_command, put_refusal, say};
use scene::Scene;
use scene::copies::{marks_saved, stopped};
use scene::disks::{mark_entry, save, save_part};
use scene::tables::{table_in, table_mut};
use text::put::finish;

fn say_settled(c: usize, o: usize, j: usize, k: Command) {
    finish(put_command(begin(b"  copy #: #.# is settled: ", [c, o, j]), k));
}

fn say_refused(c: usize, why: Refusal) {
    finish(put_refusal(begin(b"  copy #:", [c]), why));
}

fn say_waits(c: usize, o: usize, j: usize) {
    say(b"  copy #: not settled, it waits for #.#", [c, o, j]);
}

// Copy c is asked whether o.j is settled.
pub fn ask(all: &[u8], w: Scene, c: usize, o: usize, j: usize) -> Turn {
    let answer = order::settled::settled(table_in(all, w, c), w.n, w.s, c, o, j);
    match answer {
        Ok(Settling::Settled(k)) => say_settled(c, o, j, k),
        Ok(Settling::Waits(first)) => say_waits(c, first.owner, first.number),
        Err(why) => say_refused(c, why),
    }
    Ok(w)
}

// What is handed out is settled.
fn say_handed(all: &[u8], w: Scene, c: usize, o: usize, j: usize) {
    let at = begin(b"  copy # hands out #.#: ", [c, o, j]);
    let answer = order::settled::settled(table_in(all, w, c), w.n, w.s, c, o, j);
    match answer {
        Ok(Settling::Settled(k)) => finish(put_command(at, k)),
        _ => finish(at),
    }
}

// One handed-out instance: its mark is saved.
fn hand_one(all: &mut [u8], w: Scene, c: usize, code: u16) -> Scene {
    say_handed(&*all, w, c, owner_of(code), number_of(code));
    let entry = mark_entry(&*all, w, c, code);
    save(all, w, c, &entry)
}

// The marks are saved in the order of the list, as many as come before a cut.
fn save_marks(all: &mut [u8], w: Scene, c: usize, list: &[u16], count: usize) -> Scene {
    let mut now = w;
    for &code in list.iter().take(count) {
        now = hand_one(&mut *all, now, c, code);
    }
    now
}

// What a cut leaves of a mark: so many bytes.
fn cut_mark(all: &mut [u8], w: Scene, c: usize, code: u16, bytes: usize) -> Scene {
    let entry = mark_entry(&*all, w, c, code);
    say_part(c, bytes, entry.as_slice().len());
    save_part(all, w, c, &entry, bytes)
}

fn say_empty(c: usize, k: usize) {
    if k == 0 {
        say(b"  copy # has nothing to hand out", [c]);
    }
}

fn listed(all: &mut [u8], w: Scene, c: usize, list: &[u16], k: usize) -> Turn {
    let marks = marks_saved(w, c, k);
    say_empty(c, k);
    let next = save_marks(&mut *all, w, c, list, marks.count);
    let Some(bytes) = marks.cut else {
        return Ok(next);
    };
    say(
        b"  copy # is cut off after # of # marks are saved",
        [c, marks.count, k],
    );
    let code = list.get(marks.count).copied().unwrap_or(0);
    Ok(stopped(cut_mark(all, next, c, code, bytes), c))
}

fn hand_out_in(all: &mut [u8], w: Scene, c: usize, list: &mut [u16]) -> Turn {
    let answer = order::hand_out::hand_out(table_mut(&mut *all, w, c), w.n, w.s, c, &mut *list);
    match answer {
        Ok(k) => listed(all, w, c, &*list, k),
        Err(why) => {
            say_refused(c, why);
            Ok(w)
        }
    }
}

// Copy c hands out what it can, at most `room` instances.
pub fn hand_out(all: &mut [u8], old: Scene, c: usize, room: usize) -> Turn {
    let mut list = [0u16; INSTANCES];
    if INSTANCES < room {
        return Ok(old);
    }
    let w = with_room(&mut *all, old, c);
    hand_out_in(all, w, c, &mut list[..room])
}
