// Entries of a journal, and their replay.
ghost use Rattle.std.specs.Prelude.{◌≡◌};
ghost use Rattle.entries.specs.Entry.{entry_length};
ghost use Rattle.entries.specs.Writing.{record_entered, mark_entered, entering_number, entering_length};
ghost use Rattle.entries.specs.Replay.{replayed, replaying_number, replaying_offset};

use entries::{BadEntry, Unreplayed, Unwritten};
use nouns::refusal::number_of;

// How long an entry of a kind is; 0 where there is no such kind.
#[unsafe(no_mangle)]
pub extern "C" fn pumxaqert_entry_length(kind: usize) -> usize
    ensures { result ≡ entry_length kind }
{
    journal::entry::entry_length(kind)
}

// The refusal's number, or 0 with how many bytes were written.
fn give_entered(a: Result<usize, Unwritten>, written: &mut usize) -> u32
    ensures number { result ≡ entering_number a }
    ensures count { written.new ≡ entering_length a }
{
    match a {
        Ok(k) => {
            *written = k;
            0
        }
        Err(Unwritten::Refused(why)) => {
            *written = 0;
            number_of(why)
        }
        Err(Unwritten::Unsound) => {
            *written = 0;
            43
        }
    }
}

#[unsafe(no_mangle)]
pub extern "C" fn pumxaqert_record_entry(
    table: &[u8],
    n: usize,
    s: usize,
    c: usize,
    out: &mut [u8],
    owner: usize,
    number: usize,
    written: &mut usize,
) -> u32
    ensures number { result ≡ entering_number (record_entered n s c table.now out.old owner number).answer }
    ensures count { written.new ≡ entering_length (record_entered n s c table.now out.old owner number).answer }
    ensures room { out.new ≡ (record_entered n s c table.now out.old owner number).out }
{
    give_entered(
        journal::writing::record_entry(table, n, s, c, out, owner, number),
        written,
    )
}

#[unsafe(no_mangle)]
pub extern "C" fn pumxaqert_mark_entry(
    table: &[u8],
    n: usize,
    s: usize,
    c: usize,
    out: &mut [u8],
    owner: usize,
    number: usize,
    written: &mut usize,
) -> u32
    ensures number { result ≡ entering_number (mark_entered n s c table.now out.old owner number).answer }
    ensures count { written.new ≡ entering_length (mark_entered n s c table.now out.old owner number).answer }
    ensures room { out.new ≡ (mark_entered n s c table.now out.old owner number).out }
{
    give_entered(
        journal::writing::mark_entry(table, n, s, c, out, owner, number),
        written,
    )
}

// The refusal's number with the offset of a bad entry, or 0 with where the rest begins.
fn give_replayed(a: Result<usize, Unreplayed>, offset: &mut usize) -> u32
    ensures number { result ≡ replaying_number a }
    ensures offset { offset.new ≡ replaying_offset a }
{
    match a {
        Ok(at) => {
            *offset = at;
            0
        }
        Err(Unreplayed::Bad(BadEntry { why, offset: at })) => {
            *offset = at;
            why.number()
        }
        Err(Unreplayed::Refused(why)) => {
            *offset = 0;
            number_of(why)
        }
    }
}

#[unsafe(no_mangle)]
pub extern "C" fn pumxaqert_replay(
    table: &mut [u8],
    n: usize,
    s: usize,
    c: usize,
    journal: &[u8],
    offset: &mut usize,
) -> u32
    ensures number { result ≡ replaying_number (replayed n s c table.old journal.now).answer }
    ensures offset { offset.new ≡ replaying_offset (replayed n s c table.old journal.now).answer }
    ensures table { table.new ≡ (replayed n s c table.old journal.now).table }
{
    give_replayed(journal::replaying::replay(table, n, s, c, journal), offset)
}
