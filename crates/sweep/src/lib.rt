// What every instance reaches, found for all at once. A beginning of an owner's row reaches what its instances reach: a row of
// marks for each. A sweep up and a sweep down over all instances raise these rows. Then the row of each instance begins with
// its entries and takes in the beginnings that it names, until nothing changes.
#![tactic(auto)]

ghost use Rattle.std.specs.Prelude.{◌≡◌, ◌≤◌, ◌<◌, length};
ghost use Rattle.seen.specs.Records.{records_in};
ghost use Rattle.reach.specs.High.{Inst};
ghost use Rattle.paper.specs.Deps.{join};
ghost use Rattle.rows.specs.Rows.{slot_of, marks_at, mark_at, Within};
ghost use Rattle.sweep.specs.Sweeping.{Charting, Charted, with_named, beyond_in, before_in, turned, Raised, Numbered, Swept};
ghost use Rattle.sweep.specs.Sweeping.{Sweeping, Naming, Taking, Opened, Closed, Wrote, Closing, Reaching};

use nouns::deps::{join, no_deps, same_deps};
use rows::{mark_at, marks_at, put_row, slot_of};
use table::records::deps_of;

// The row at x of h takes in that at y of g.
fn take_row(g: &[u8], y: usize, h: &mut [u8], x: usize)
    requires { Within g.now y × Within h.old x }
    ensures row { marks_at h.new x ≡ join (marks_at h.old x) (marks_at g.now y) }
    ensures wrote { Wrote h.old h.new x }
{
    let row = join(marks_at(&*h, x), marks_at(g, y));
    put_row(h, x, row);
}

// It takes in that of the beginning of owner q's row which its own mark names.
fn take_named(n: usize, g: &[u8], h: &mut [u8], x: usize, q: usize)
    requires { Naming n g.now q (mark_at h.old x q) × Within h.old x }
    ensures row { marks_at h.new x ≡ with_named n g.now q (mark_at h.old x q) (marks_at h.old x) }
    ensures wrote { Wrote h.old h.new x }
{
    let entry = mark_at(&*h, x, q);
    if entry == 0 {
        return;
    }
    take_row(g, slot_of(q, entry), h, x);
}

// It takes in those that it names, owner by owner.
fn beyond(n: usize, s: usize, g: &[u8], h: &mut [u8], x: usize)
    requires { Taking n s g.now (marks_at h.old x) × Within h.old x }
    ensures row { marks_at h.new x ≡ beyond_in n n g.now (marks_at h.old x) }
    ensures wrote { Wrote h.old h.new x }
{
    for q in 0..n {
        take_named(n, g, &mut *h, x, q);
    }
}

// The row of the beginning before.
fn before_in(g: &[u8], o: usize, j: usize) -> [u16; 7]
    requires { (length g.now ≡ 6272) × (o < 7) × (j ≤ 64) }
    ensures { result ≡ before_in g.now o j }
{
    if j <= 1 {
        return no_deps();
    }
    marks_at(g, slot_of(o, j - 1))
}

// The row of the beginning that ends at o.j takes in the beginning before, and what o.j reaches; that is worked out in h.
fn raise(t: &[u8], n: usize, s: usize, g: &mut [u8], h: &mut [u8], o: usize, j: usize)
    requires { Sweeping n s t.now g.old h.old × Inst n s o j }
    ensures long { length h.new ≡ 6272 }
    ensures raised { Raised n s (records_in s t.now) g.old g.new o j }
{
    let x = slot_of(o, j);
    put_row(&mut *h, x, deps_of(t, n, s, o, j));
    beyond(n, s, &*g, &mut *h, x);
    let with_last = join(marks_at(&*g, x), marks_at(&*h, x));
    let row = join(with_last, before_in(&*g, o, j));
    put_row(g, x, row);
}

// The i-th of so many, from the first or from the last.
fn turned(many: usize, i: usize, back: bool) -> usize
    requires { i < many }
    ensures { result ≡ turned many i back }
{
    if back { many - 1 - i } else { i }
}

fn raise_number(t: &[u8], n: usize, s: usize, g: &mut [u8], h: &mut [u8], j: usize, back: bool)
    requires { Sweeping n s t.now g.old h.old × (1 ≤ j) × (j ≤ s) }
    ensures long { length h.new ≡ 6272 }
    ensures raised { Numbered n s (records_in s t.now) g.old g.new j }
{
    for i in 0..n {
        raise(t, n, s, &mut *g, &mut *h, turned(n, i, back), j);
    }
}

fn sweep(t: &[u8], n: usize, s: usize, g: &mut [u8], h: &mut [u8], back: bool)
    requires { Sweeping n s t.now g.old h.old }
    ensures long { length h.new ≡ 6272 }
    ensures raised { Swept n s (records_in s t.now) g.old g.new back }
{
    for i in 0..s {
        raise_number(t, n, s, &mut *g, &mut *h, turned(s, i, back) + 1, back);
    }
}

// The row at p.k's place, which holds its entries, takes in those that it names until nothing changes.
fn close(t: &[u8], n: usize, s: usize, g: &[u8], h: &mut [u8], p: usize, k: usize)
    requires { Closing n s t.now g.now h.old p k × Opened n s (records_in s t.now) p k (marks_at h.old (slot_of p k)) }
    ensures closed { Closed n s (records_in s t.now) g.now p k (marks_at h.new (slot_of p k)) }
    ensures wrote { Wrote h.old h.new (slot_of p k) }
{
    let x = slot_of(p, k);
    let mut changed = true;
    while changed {
        let row = marks_at(&*h, x);
        beyond(n, s, g, &mut *h, x);
        changed = !same_deps(marks_at(&*h, x), row);
    }
}

fn reach_one(t: &[u8], n: usize, s: usize, g: &[u8], h: &mut [u8], p: usize, k: usize)
    requires { Closing n s t.now g.now h.old p k }
    ensures closed { Closed n s (records_in s t.now) g.now p k (marks_at h.new (slot_of p k)) }
    ensures wrote { Wrote h.old h.new (slot_of p k) }
{
    let d = deps_of(t, n, s, p, k);
    put_row(&mut *h, slot_of(p, k), d);
    close(t, n, s, g, h, p, k);
}

fn reach_each(t: &[u8], n: usize, s: usize, g: &[u8], h: &mut [u8])
    requires { Reaching n s t.now g.now h.old }
    ensures { Charted n s (records_in s t.now) h.new }
{
    let last = 64 * n;
    for z in 0..last {
        let j = z % 64 + 1;
        if j <= s {
            reach_one(t, n, s, g, &mut *h, z / 64, j);
        }
    }
}

// g: nothing is marked yet.
pub fn reach_all(t: &[u8], n: usize, s: usize, g: &mut [u8], h: &mut [u8])
    requires { Charting n s t.now g.old h.old }
    ensures { Charted n s (records_in s t.now) h.new }
{
    sweep(t, n, s, &mut *g, &mut *h, false);
    sweep(t, n, s, &mut *g, &mut *h, true);
    reach_each(t, n, s, &*g, h);
}
