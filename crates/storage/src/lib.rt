// A copy's disk, for the programs that play: the table that its journal was begun with, and behind that the journal.
#![tactic(auto)]

ghost use Rattle.std.specs.Prelude.{◌+◌, ◌≤◌, IfSome, length};

use entries::Unreplayed;
use journal::entry::{HEAD, entry_length, kind_in};
use journal::replaying::replay;
use journal::writing::{mark_entry, record_entry};
use nouns::setup::INSTANCES;
use order::codes::{number_of, owner_of};
use record::places::LENGTH;
use table::LONGEST;
use text::bytes::{behind, front, part, write};
use text::held::Held;

// The longest entry.
const ENTRY: usize = HEAD + LENGTH;

// The room for a journal.
const ROOM: usize = 65536;

// The most that one call can add: a mark for each instance.
const MOST: usize = INSTANCES * HEAD;

pub const DISK: usize = LONGEST + ROOM;

// An entry before it is on the disk. It has no bytes where the library refuses to write it.
pub type Entry = Held<ENTRY>;

// The entry of an event that answered o.j.
pub fn record_of(t: &[u8], n: usize, s: usize, c: usize, o: usize, j: usize) -> Entry {
    let mut room = [0; ENTRY];
    let k = record_entry(t, n, s, c, &mut room, o, j).unwrap_or(0);
    Entry::of(room, k)
}

// The entry of a code that was handed out.
pub fn mark_of(t: &[u8], n: usize, s: usize, c: usize, code: u16) -> Entry {
    let mut room = [0; ENTRY];
    let o = owner_of(code);
    let j = number_of(code);
    let k = mark_entry(t, n, s, c, &mut room, o, j).unwrap_or(0);
    Entry::of(room, k)
}

// A journal that ends here might not have room for all that a call adds.
pub fn is_full(end: usize) -> bool {
    ROOM - MOST < end
}

// The journal up to an offset.
pub fn journal_in(disk: &[u8], end: usize) -> &[u8] {
    part(disk, LONGEST, end)
}

// The first bytes of an entry, as many as reach the disk, behind the journal; where that ends then.
pub fn add_part(disk: &mut [u8], end: usize, entry: &Entry, reach: usize) -> usize {
    let bytes = front(entry.as_slice(), reach);
    if ROOM < end {
        return end;
    }
    write(behind(disk, LONGEST), end, bytes);
    end + bytes.len()
}

pub fn add(disk: &mut [u8], end: usize, entry: &Entry) -> usize {
    add_part(disk, end, entry, ENTRY)
}

// The table as the disk tells it: what it was when the journal was begun, with the journal replayed onto it.
pub fn replay_onto(
    t: &mut [u8],
    n: usize,
    s: usize,
    c: usize,
    disk: &[u8],
    end: usize,
) -> Result<usize, Unreplayed> {
    let begun = front(disk, t.len());
    write(&mut *t, 0, begun);
    replay(t, n, s, c, journal_in(disk, end))
}

// How long the whole entry at an offset is, if one stands there.
fn whole_at(b: &[u8], at: usize) -> Option<usize>
    requires { at ≤ length b.now }
    ensures { IfSome result (λ k. at + k ≤ length b.now) }
{
    let left = &b[at..];
    if left.is_empty() {
        return None;
    }
    let size = entry_length(kind_in(left));
    if size == 0 || left.len() < size {
        None
    } else {
        Some(size)
    }
}

// Whole entries from an offset on: how many, where they end, and how long the next one is, if one stands there.
#[derive(Clone, Copy)]
pub struct Walked {
    pub count: usize,
    pub at: usize,
    pub next: Option<usize>,
}

// As many whole entries as are asked for, or there are.
pub fn walk(b: &[u8], from: usize, most: usize) -> Walked
    ensures within { result.at ≤ length b.now }
    ensures next { IfSome result.next (λ k. result.at + k ≤ length b.now) }
{
    let mut at = from.min(b.len());
    for count in 0..most {
        let Some(size) = whole_at(b, at) else {
            return Walked {
                count,
                at,
                next: None,
            };
        };
        at += size;
    }
    Walked {
        count: most,
        at,
        next: whole_at(b, at),
    }
}
