// What a replay made of a journal.
use crate::value::{begin, put_refusal};
use entries::BadEntry;
use journal::entry::entry_length;
use paper::Refusal;
use storage::walk;
use text::bytes::{byte_at, front};
use text::put::{empty, finish, put_bytes, put_form};

// The whole entries, up to an offset.
fn say_entries(c: usize, journal: &[u8], at: usize) {
    let replayed = walk(front(journal, at), 0, usize::MAX);
    let k = replayed.count;
    let told = begin(b"  copy # replays # ", [c, k]);
    let entries = if k == 1 {
        b"entry".as_slice()
    } else {
        b"entries".as_slice()
    };
    finish(put_bytes(put_bytes(told, entries), b" of its journal"));
}

// What stands behind them: less than an entry, and dropped.
fn say_rest(c: usize, journal: &[u8], at: usize) {
    if journal.len() <= at {
        return;
    }
    let v = [
        c,
        journal.len() - at,
        entry_length(byte_at(journal, at)),
        at,
    ];
    finish(put_form(
        empty(),
        b"  copy # drops # of # bytes at offset #: what that entry was to save did not happen",
        v,
    ));
}

pub fn say_replayed(c: usize, journal: &[u8], at: usize) {
    say_entries(c, journal, at);
    say_rest(c, journal, at);
}

// The number of a bad entry's fault, with the offset.
pub fn say_bad(c: usize, bad: BadEntry) {
    finish(begin(
        b"  copy #: the journal is refused #, at offset #",
        [c, bad.why.number() as usize, bad.offset],
    ));
}

pub fn say_unreplayed(c: usize, why: Refusal) {
    finish(put_refusal(begin(b"  copy #: the journal's table is", [c]), why));
}
