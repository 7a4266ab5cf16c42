// Who holds what in a scene, and what is on the way.
use crate::held::{is_blank, put_part};
use crate::message::put_message;
use crate::value::{begin, say};
use scene::Scene;
use scene::copies::is_down;
use scene::disks::saved;
use scene::way::{from_at, message_at, number_at, to_at};
use table::{HEAD, length_of, record_part};
use text::bytes::front;
use text::put::finish;

fn show_record(t: &[u8], w: Scene, c: usize, o: usize, j: usize) {
    let part = record_part(t, w.n, w.s, c, o, j);
    if is_blank(part) {
        return;
    }
    finish(put_part(begin(b"    #.# ", [o, j]), w.n, part));
}

// The records of one owner, by rising number.
fn show_row(t: &[u8], w: Scene, c: usize, o: usize) {
    for j in 1..65 {
        show_record(t, w, c, o, j);
    }
}

fn show_rows(t: &[u8], w: Scene, c: usize) {
    for o in 0..7 {
        show_row(t, w, c, o);
    }
}

fn holds_nothing(t: &[u8]) -> bool {
    t.get(HEAD..).is_none_or(is_blank)
}

fn say_down(c: usize, nothing: bool) {
    if nothing {
        say(b"  copy # is down, and has saved nothing", [c]);
        return;
    }
    say(b"  copy # is down, and has saved", [c]);
}

fn say_copy(w: Scene, c: usize, nothing: bool) {
    if is_down(w, c) {
        say_down(c, nothing);
        return;
    }
    if nothing {
        say(b"  copy # holds nothing", [c]);
        return;
    }
    say(b"  copy # holds", [c]);
}

// What a copy has saved; a copy that is up holds nothing else.
pub fn show_copy(all: &[u8], w: Scene, c: usize) {
    let kept = saved(all, w, c);
    let t = front(&kept.table, length_of(w.n, w.s));
    say_copy(w, c, holds_nothing(t));
    show_rows(t, w, c);
}

fn show_copies(all: &[u8], w: Scene) {
    for c in 0..w.n {
        show_copy(all, w, c);
    }
}

fn show_message(all: &[u8], w: Scene, i: usize) {
    let to = to_at(all, i);
    let at = begin(
        b"  message # is on the way from # to #: ",
        [number_at(all, i), from_at(all, i), to],
    );
    finish(put_message(at, w.n, w.s, to, message_at(all, i)));
}

fn show_way(all: &[u8], w: Scene) {
    for i in 0..w.waiting {
        show_message(all, w, i);
    }
}

pub fn show_all(all: &[u8], w: Scene) {
    show_copies(all, w);
    show_way(all, w);
}
