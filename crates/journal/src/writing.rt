// Writing an entry, from the table and an instance.
ghost use Rattle.std.specs.Prelude.{◌≡◌, ◌&&◌};
ghost use Rattle.table.specs.Sizes.{Has};
ghost use Rattle.rules.specs.Step.{is_committed};
ghost use Rattle.rules.specs.Order.{is_marked};
ghost use Rattle.table.specs.Table.{record_in};
ghost use Rattle.entries.specs.Writing.{Enters, gate_of, record_open, mark_open, record_entered, mark_entered};

use crate::entry::{HEAD, part_sound, write_head};
use entries::{Kind, Unwritten};
use nouns::setup::instance_ok;
use paper::Refusal;
use record::places::LENGTH;
use table::records::{mark_of, status_of};
use table::{fits_setup, record_part};

// What is refused before the record is looked at.
#[tactic(auto, unfolding(entries::specs::Writing::gate_of))]
fn gate_of(
    t: &[u8],
    n: usize,
    s: usize,
    c: usize,
    room: usize,
    size: usize,
    o: usize,
    j: usize,
) -> Result<(), Refusal>
    ensures { result ≡ gate_of n s c t.now room size o j }
{
    if !fits_setup(t, n, s, c) {
        return Err(Refusal::Setup);
    }
    if room < size {
        return Err(Refusal::Room);
    }
    if !instance_ok(n, s, o, j) {
        return Err(Refusal::Instance);
    }
    Ok(())
}

fn record_open(
    t: &[u8],
    n: usize,
    s: usize,
    c: usize,
    out: &mut [u8],
    o: usize,
    j: usize,
) -> Result<usize, Unwritten>
    requires { Enters n s c t.now out.old 20 o j }
    ensures answers { result ≡ (record_open n s c t.now out.old o j).answer }
    ensures out { out.new ≡ (record_open n s c t.now out.old o j).out }
{
    let part = record_part(t, n, s, c, o, j);
    if !part_sound(part, n, s, c, o) {
        return Err(Unwritten::Unsound);
    }
    write_head(&mut *out, usize::from(Kind::Record.number()), o, j);
    numbers::put_bytes(out, HEAD, part);
    Ok(HEAD + LENGTH)
}

// The entry of an event: the instance that it answered, and its record as it stands in the table.
pub fn record_entry(
    t: &[u8],
    n: usize,
    s: usize,
    c: usize,
    out: &mut [u8],
    o: usize,
    j: usize,
) -> Result<usize, Unwritten>
    ensures answers { result ≡ (record_entered n s c t.now out.old o j).answer }
    ensures out { out.new ≡ (record_entered n s c t.now out.old o j).out }
{
    gate_of(t, n, s, c, out.len(), HEAD + LENGTH, o, j)?;
    record_open(t, n, s, c, out, o, j)
}

// o.j is committed and marked.
fn handed_out(t: &[u8], n: usize, s: usize, o: usize, j: usize) -> bool
    requires { Has n s o j t.now }
    ensures { result ≡ (is_committed (record_in s t.now o j) && is_marked (record_in s t.now o j)) }
{
    status_of(t, n, s, o, j) == 4 && mark_of(t, n, s, o, j) == 1
}

fn mark_open(
    t: &[u8],
    n: usize,
    s: usize,
    c: usize,
    out: &mut [u8],
    o: usize,
    j: usize,
) -> Result<usize, Unwritten>
    requires { Enters n s c t.now out.old 21 o j }
    ensures answers { result ≡ (mark_open s t.now out.old o j).answer }
    ensures out { out.new ≡ (mark_open s t.now out.old o j).out }
{
    if !handed_out(t, n, s, o, j) {
        return Err(Unwritten::Unsound);
    }
    write_head(out, usize::from(Kind::Mark.number()), o, j);
    Ok(HEAD)
}

// The entry of a code that was handed out.
pub fn mark_entry(
    t: &[u8],
    n: usize,
    s: usize,
    c: usize,
    out: &mut [u8],
    o: usize,
    j: usize,
) -> Result<usize, Unwritten>
    ensures answers { result ≡ (mark_entered n s c t.now out.old o j).answer }
    ensures out { out.new ≡ (mark_entered n s c t.now out.old o j).out }
{
    gate_of(t, n, s, c, out.len(), HEAD, o, j)?;
    mark_open(t, n, s, c, out, o, j)
}
