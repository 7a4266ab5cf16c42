// The journals of the copies: every answered call adds its entries, and after a cut a table is made again from what is left.
ghost use Rattle.std.specs.Prelude.{◌≤◌};

use crate::event::put_no;
use crate::told::{Outcome, Told, called, end_of, ended, said, torn};
use entries::Unreplayed;
use storage::{Entry, add, is_full, journal_in, mark_of, record_of, replay_onto, walk};
use text::bytes::write;
use text::put::{bad_line, empty, put_form};

// A call is made at a copy. Its journal is begun with the table as that stands, if it has none, or one without room.
pub fn ready(w: Told, copy: usize, t: &[u8], d: &mut [u8]) -> Told {
    match end_of(w, copy) {
        Some(end) if !is_full(end) => called(w, copy, end),
        _ => {
            write(d, 0, t);
            called(ended(w, copy, Some(0)), copy, 0)
        }
    }
}

// An entry behind the journal of the last call's copy, if that has one.
fn keep(w: Told, d: &mut [u8], entry: &Entry) -> Told {
    let end = end_of(w, w.last).map(|end| add(d, end, entry));
    ended(w, w.last, end)
}

// The entry of an event.
pub fn keep_record(w: Told, t: &[u8], d: &mut [u8], o: usize, j: usize) -> Told {
    keep(w, d, &record_of(t, w.n, w.s, w.c, o, j))
}

fn keep_mark(w: Told, t: &[u8], d: &mut [u8], code: u16) -> Told {
    keep(w, d, &mark_of(t, w.n, w.s, w.c, code))
}

// The entries of a hand-out: the first k codes of the list, all of it where k is more.
pub fn keep_marks(w: Told, t: &[u8], d: &mut [u8], list: &[u16], k: usize) -> Told {
    let mut next = w;
    for &code in list.iter().take(k) {
        next = keep_mark(next, t, &mut *d, code);
    }
    next
}

// The copy goes on with what a replay made of its journal: how many entries of the last call it kept.
fn restarted(w: Told, d: &[u8], answer: Result<usize, Unreplayed>) -> Outcome {
    match answer {
        Ok(at) => {
            let kept = walk(journal_in(d, at), w.before, usize::MAX);
            let text = put_form(empty(), b"= kept #", [kept.count]);
            said(text, torn(ended(w, w.last, Some(at))))
        }
        Err(Unreplayed::Bad(bad)) => said(put_form(empty(), b"= bad entry #", [bad.offset]), w),
        Err(Unreplayed::Refused(why)) => said(put_no(why), w),
    }
}

fn cut_at(w: Told, t: &mut [u8], d: &[u8], end: usize) -> Outcome {
    restarted(w, d, replay_onto(t, w.n, w.s, w.c, d, end))
}

// Some bytes, fewer than an entry has.
fn some_of(x: usize, size: usize) -> usize
    ensures { result ≤ size }
{
    if size == 0 { 0 } else { x % size }
}

// C cut KEEP. Of the last call's entries the first stay, and of the next one some bytes; there has to be such a one.
pub fn cut(w: Told, copy: usize, keep: usize, t: &mut [u8], d: &[u8]) -> Outcome {
    let end = end_of(w, copy).unwrap_or(0);
    let whole = walk(journal_in(d, end), w.before, keep);
    match whole.next {
        Some(size) if w.last == copy => cut_at(w, t, d, whole.at + some_of(w.torn, size)),
        _ => said(bad_line(), w),
    }
}
