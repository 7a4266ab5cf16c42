// Replay, as a public call: the whole journal is judged first, and only then put into the table.
ghost use Rattle.std.specs.Prelude.{◌≡◌, length};
ghost use Rattle.table.specs.Table.{Judged};
ghost use Rattle.entries.specs.Replay.{applied, puts, replayed_open, replayed};
ghost use Rattle.journal.specs.Judging.{Ready, Puts};

use crate::entry::{entry_length, has_record, kind_in, number_in, owner_in, part_in};
use crate::judging::end_of;
use entries::Unreplayed;
use table::judge_table;
use table::records::{put_mark, put_part};

// Puts the entry in front into the table.
fn put_entry(t: &mut [u8], n: usize, s: usize, b: &[u8])
    requires { Puts n s t.old b.now }
    ensures { t.new ≡ applied s t.old b.now }
{
    let o = owner_in(b);
    let j = number_in(b);
    if has_record(b) {
        put_part(t, n, s, o, j, part_in(b));
        return;
    }
    put_mark(t, n, s, o, j);
}

// Puts whole entries into the table, one after another.
fn put_entries(t: &mut [u8], n: usize, s: usize, b: &[u8])
    requires { Ready n s t.old b.now }
    ensures { t.new ≡ puts (length b.now) s t.old b.now }
{
    let mut rest = b;
    while !rest.is_empty() {
        put_entry(&mut *t, n, s, rest);
        rest = &rest[entry_length(kind_in(rest))..];
    }
}

// Past 1 and 11.
fn replay_open(t: &mut [u8], n: usize, s: usize, c: usize, b: &[u8]) -> Result<usize, Unreplayed>
    requires { Judged n s c t.old }
    ensures answers { result ≡ (replayed_open n s c t.old b.now).answer }
    ensures table { t.new ≡ (replayed_open n s c t.old b.now).table }
{
    let at = end_of(&*t, n, s, c, b)?;
    put_entries(t, n, s, &b[..at]);
    Ok(at)
}

// The table after the last whole entry, and where a shorter rest begins.
#[tactic(auto, unfolding(entries::specs::Replay::replayed))]
pub fn replay(t: &mut [u8], n: usize, s: usize, c: usize, b: &[u8]) -> Result<usize, Unreplayed>
    ensures answers { result ≡ (replayed n s c t.old b.now).answer }
    ensures table { t.new ≡ (replayed n s c t.old b.now).table }
{
    judge_table(&*t, n, s, c)?;
    replay_open(t, n, s, c, b)
}
