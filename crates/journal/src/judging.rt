// The first pass of a replay: each entry is judged where it stands, and nothing is written. Of the table after the entries before
// it, only which instances are committed decides: their statuses are kept beside, a place for each.
ghost use Rattle.std.specs.Prelude.{◌≡◌, ◌+◌, ◌*◌, length};
ghost use Rattle.table.specs.Table.{Judged};
ghost use Rattle.entries.specs.Entry.{Fit};
ghost use Rattle.entries.specs.Replay.{entry_ok, front_of, end_of};
ghost use Rattle.journal.specs.Judging.{told, noted, end_by, Asked, Charted, Tells, RowCharting, Charting};

use crate::entry::{
    entry_length, has_record, kind_in, kind_length, number_in, owner_in, part_in, part_sound,
};
use entries::{BadEntry, Fault, Front, Kind};
use nouns::setup::instance_ok;
use record::fields::status_in;
use rows::slot_of;
use table::records::status_of;

// What 43 asks.
fn entry_ok(b: &[u8], n: usize, s: usize, c: usize, st: &[u8]) -> bool
    requires { Asked n s c st.now × Fit n s b.now }
    ensures { result ≡ entry_ok n s c (told st.now) b.now }
{
    let o = owner_in(b);
    if has_record(b) {
        return part_sound(part_in(b), n, s, c, o);
    }
    let x = slot_of(o, number_in(b));
    st[x] == 4
}

fn front_of(b: &[u8], n: usize, s: usize, c: usize, st: &[u8]) -> Result<Front, Fault>
    requires { Asked n s c st.now }
    ensures { result ≡ front_of n s c (told st.now) b.now }
{
    if b.is_empty() {
        return Ok(Front::Rest);
    }
    let kind = Kind::of(kind_in(b)).ok_or(Fault::Kind)?;
    if b.len() < kind_length(kind) {
        return Ok(Front::Rest);
    }
    if !instance_ok(n, s, owner_in(b), number_in(b)) {
        return Err(Fault::Instance);
    }
    if !entry_ok(b, n, s, c, st) {
        return Err(Fault::Unsound);
    }
    Ok(Front::Whole)
}

// The statuses after the entry in front; a mark changes none.
fn note(st: &mut [u8], n: usize, s: usize, b: &[u8])
    requires { Fit n s b.now × (length st.old ≡ 448) }
    ensures { st.new ≡ noted st.old b.now }
{
    if !has_record(b) {
        return;
    }
    let x = slot_of(owner_in(b), number_in(b));
    st[x] = status_in(part_in(b));
}

fn walk(b: &[u8], n: usize, s: usize, c: usize, st: &mut [u8]) -> Result<usize, BadEntry>
    requires { Asked n s c st.old }
    ensures { result ≡ end_by (length b.now) n s c st.old b.now 0 }
{
    let mut at = 0;
    while at < b.len() {
        let rest = &b[at..];
        match front_of(rest, n, s, c, &*st) {
            Ok(Front::Whole) => note(&mut *st, n, s, rest),
            Ok(Front::Rest) => return Ok(at),
            Err(why) => return Err(BadEntry { why, offset: at }),
        }
        at += entry_length(kind_in(rest));
    }
    Ok(at)
}

fn chart_row(t: &[u8], n: usize, s: usize, st: &mut [u8], o: usize)
    requires { RowCharting n s t.now st.old o }
    ensures { Charted n s t.now (64 * (o + 1)) st.new }
{
    for j in 1..=s {
        let x = slot_of(o, j);
        st[x] = status_of(t, n, s, o, j);
    }
}

// The statuses of a table's instances.
fn chart(t: &[u8], n: usize, s: usize, st: &mut [u8])
    requires { Charting n s t.now st.old }
    ensures { Tells n s t.now st.new }
{
    for o in 0..n {
        chart_row(t, n, s, &mut *st, o);
    }
}

// Where the entries end that a replay onto the table takes, or which one is bad.
pub fn end_of(t: &[u8], n: usize, s: usize, c: usize, b: &[u8]) -> Result<usize, BadEntry>
    requires { Judged n s c t.now }
    ensures { result ≡ end_of (length b.now) n s c t.now b.now 0 }
{
    let mut st = [0u8; 448];
    chart(t, n, s, &mut st);
    walk(b, n, s, c, &mut st)
}
