// Whether each instance waits, is settled or was handed out, worked out once for a hand-out: dependencies and commits stay.
ghost use Rattle.std.specs.Prelude.{◌≡◌, ◌+◌, ◌*◌, ◌≤◌, ◌<◌, length};
ghost use Rattle.table.specs.Sizes.{Has};
ghost use Rattle.rules.specs.Order.{is_marked};
ghost use Rattle.seen.specs.Records.{records_in};
ghost use Rattle.rows.specs.Rows.{Within};
ghost use Rattle.sweep.specs.Sweeping.{Sized};
ghost use Rattle.order.specs.States.{Prefix, Prefixes, behind_none, Asking, Stating, RowStating, State, States, Stated};

use rows::{mark_at, slot_of};
use search::committed_of;
use table::records::mark_of;

// How many of owner q's first instances are committed.
fn prefix_of(t: &[u8], n: usize, s: usize, q: usize) -> usize
    requires { Sized n s t.now × (q < n) }
    ensures { Prefix s (records_in s t.now) q result }
{
    for j in 0..s {
        if !committed_of(t, n, s, q, j + 1) {
            return j;
        }
    }
    s
}

fn prefix_all(t: &[u8], n: usize, s: usize, lead: &mut [u8])
    requires { Sized n s t.now × (length lead.old ≡ 7) }
    ensures { Prefixes n s (records_in s t.now) lead.new }
{
    for q in 0..n {
        let z = prefix_of(t, n, s, q);
        lead[q] = z as u8;
    }
}

// No mark at a place is above what its owner's row begins with.
fn behind_none(n: usize, h: &[u8], x: usize, lead: &[u8]) -> bool
    requires { (n ≤ 7) × Within h.now x × (length lead.now ≡ 7) }
    ensures { result ≡ behind_none n h.now x lead.now }
{
    for q in 0..n {
        if usize::from(lead[q]) < mark_at(h, x, q) {
            return false;
        }
    }
    true
}

// p.k is marked.
fn marked_of(t: &[u8], n: usize, s: usize, p: usize, k: usize) -> bool
    requires { Has n s p k t.now }
    ensures { result ≡ is_marked (records_in s t.now p k) }
{
    mark_of(t, n, s, p, k) == 1
}

// 0 waits, 1 settled, 2 handed out.
fn state_of(t: &[u8], n: usize, s: usize, h: &[u8], lead: &[u8], p: usize, k: usize) -> u8
    requires { Asking n s t.now h.now lead.now p k }
    ensures { State n s (records_in s t.now) p k result }
{
    if marked_of(t, n, s, p, k) {
        return 2;
    }
    if !committed_of(t, n, s, p, k) {
        return 0;
    }
    if behind_none(n, h, slot_of(p, k), lead) {
        return 1;
    }
    0
}

fn settle_row(t: &[u8], n: usize, s: usize, h: &[u8], lead: &[u8], st: &mut [u8], o: usize)
    requires { RowStating n s t.now h.now lead.now st.old o }
    ensures { States n s (records_in s t.now) (64 * (o + 1)) st.new }
{
    for j in 1..=s {
        let x = slot_of(o, j);
        st[x] = state_of(t, n, s, h, lead, o, j);
    }
}

fn settle_rows(t: &[u8], n: usize, s: usize, h: &[u8], lead: &[u8], st: &mut [u8])
    requires { Stating n s t.now h.now st.old × Prefixes n s (records_in s t.now) lead.now }
    ensures { Stated n s (records_in s t.now) st.new }
{
    for o in 0..n {
        settle_row(t, n, s, h, lead, &mut *st, o);
    }
}

pub fn settle_all(t: &[u8], n: usize, s: usize, h: &[u8], st: &mut [u8])
    requires { Stating n s t.now h.now st.old }
    ensures { Stated n s (records_in s t.now) st.new }
{
    let mut lead = [0u8; 7];
    prefix_all(t, n, s, &mut lead);
    settle_rows(t, n, s, h, &lead, st);
}
