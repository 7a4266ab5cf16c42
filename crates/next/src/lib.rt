// Which instance is handed out next. Lists hold a place for each instance: what it reaches, as seven marks, and whether it
// waits (0), is settled (1) or was handed out (2). Marks and dependencies stay, and what was handed out stays so: what is
// known of an instance, and how much of each row is past, is kept from one call to the next.
#![tactic(auto)]

ghost use Rattle.std.specs.Prelude.{◌≡◌, ◌&&◌, not, ◌*◌, ◌-◌, ◌≤◌, ◌<◌, max, leb, eqb, length, get_or};
ghost use Rattle.rules.specs.Order.{everywhere};
ghost use Rattle.next.specs.Slots.{lets, ready_in, next_in, none_at, passes_at, Out, Low, Past, Going, Asking};
ghost use Rattle.next.specs.Slots.{Seeking, Span, Sought, Held, Freed, Resuming, Freeing};

use rows::{mark_at, slot_of};
use rules::Instance;

// How much of owner q's row was handed out, where so much was before.
fn row_past(s: usize, st: &[u8], q: usize, from: usize) -> usize
    requires { (s ≤ 64) × (q < 7) × (length st.now ≡ 448) × Out s st.now q from }
    ensures { Out s st.now q result }
{
    let base = 64 * q;
    for i in from..s {
        if st[base + i] != 2 {
            return i;
        }
    }
    s
}

// None of number j is settled and was not handed out.
fn none_at(n: usize, st: &[u8], j: usize) -> bool
    requires { (n ≤ 7) × (1 ≤ j) × (j ≤ 64) × (length st.now ≡ 448) }
    ensures { result ≡ none_at n st.now j }
{
    for o in 0..n {
        let y = slot_of(o, j);
        if st[y] == 1 {
            return false;
        }
    }
    true
}

// Of how many numbers, where of so many before.
fn low_past(n: usize, s: usize, st: &[u8], from: usize) -> usize
    requires { (n ≤ 7) × (s ≤ 64) × (length st.now ≡ 448) × Low n s st.now from }
    ensures { Low n s st.now result }
{
    for j in from..s {
        if !none_at(n, st, j + 1) {
            return j;
        }
    }
    s
}

fn pass_rows(n: usize, s: usize, st: &[u8], past: &mut [u8])
    requires { Past n s st.now past.old }
    ensures { Past n s st.now past.new }
{
    for q in 0..n {
        let z = row_past(s, st, q, usize::from(past[q]));
        past[q] = z as u8;
    }
}

// Passes what need not be looked at again; gives the first number that is left.
fn pass_all(n: usize, s: usize, st: &[u8], past: &mut [u8]) -> usize
    requires { Past n s st.now past.old }
    ensures kept { Past n s st.now past.new }
    ensures low { Low n s st.now result }
{
    pass_rows(n, s, st, &mut *past);
    let z = low_past(n, s, st, usize::from(past[7]));
    past[7] = z as u8;
    z
}

// The one at a place was handed out, or reaches p.k.
#[tactic(auto, unfolding(crate::specs::Slots::passes_at))]
fn passes_at(h: &[u8], st: &[u8], p: usize, k: usize, y: usize) -> bool
    requires { (length h.now ≡ 6272) × (length st.now ≡ 448) × (p < 7) × (y < 448) }
    ensures { result ≡ passes_at h.now st.now p k y }
{
    st[y] == 2 || k <= mark_at(h, y, p)
}

// The place of the first in owner q's row, past `from` and up to `top`, that does not.
fn row_holder(
    h: &[u8],
    st: &[u8],
    p: usize,
    k: usize,
    q: usize,
    from: usize,
    top: usize,
) -> Option<usize>
    requires { Span h.now st.now p q top }
    ensures { Sought h.now st.now p k q from top result }
{
    let base = 64 * q;
    for i in from..top {
        let y = base + i;
        if !passes_at(h, st, p, k, y) {
            return Some(y);
        }
    }
    None
}

// Where to begin in owner q's row: beyond what is past, and beyond what lies below a place.
fn start_of(past: usize, q: usize, from: usize) -> usize
    requires { (past ≤ 64) × (q < 7) }
    ensures { result ≡ max past (from - 64 * q) }
{
    past.max(from.saturating_sub(64 * q))
}

// The place of the first that holds p.k back, from a place on. What p.k does not reach lets it out, and so does what is past.
fn holder(
    n: usize,
    s: usize,
    h: &[u8],
    st: &[u8],
    past: &[u8],
    p: usize,
    k: usize,
    from: usize,
) -> Option<usize>
    requires { Seeking n s h.now st.now past.now p k from }
    ensures { Held n s h.now st.now p k result }
{
    let x = slot_of(p, k);
    let first = from / 64;
    for q in first..n {
        let start = start_of(usize::from(past[q]), q, from);
        let held = row_holder(h, st, p, k, q, start, mark_at(h, x, q));
        if let Some(y) = held {
            return Some(y);
        }
    }
    None
}

fn free_row(st: &[u8], know: &mut [u16], q: usize, from: usize, top: usize)
    requires { (length st.now ≡ 448) × (length know.old ≡ 448) × (q < 7) × (top ≤ 64) }
    ensures { Freed st.now q from top know.old know.new }
{
    let base = 64 * q;
    for i in from..top {
        let y = base + i;
        if st[y] != 2 {
            know[y] = 1;
        }
    }
}

// All let p.k out. What it reaches and was not handed out reaches it back, so all let that out too.
fn free(n: usize, s: usize, h: &[u8], st: &[u8], know: &mut [u16], past: &[u8], p: usize, k: usize)
    requires { Freeing n s h.now st.now know.old past.now p k }
    ensures { Going n s h.now st.now know.new past.now }
{
    let x = slot_of(p, k);
    know[x] = 1;
    for q in 0..n {
        free_row(st, &mut *know, q, usize::from(past[q]), mark_at(h, x, q));
    }
}

// Whether all let p.k out, which is then known; from a place on, below which all do.
fn ask(
    n: usize,
    s: usize,
    h: &[u8],
    st: &[u8],
    know: &mut [u16],
    past: &[u8],
    p: usize,
    k: usize,
    from: usize,
) -> bool
    requires { Resuming n s h.now st.now know.old past.now p k from }
    ensures says { result ≡ everywhere n s (lets h.now st.now p k) }
    ensures kept { Going n s h.now st.now know.new past.now }
{
    let held = holder(n, s, h, st, past, p, k, from);
    if let Some(ahead) = held {
        let x = slot_of(p, k);
        know[x] = (ahead + 2) as u16;
        return false;
    }
    free(n, s, h, st, know, past, p, k);
    true
}

// The place that what is known names, else the first.
fn place_in(seen: usize) -> usize
    ensures { result ≡ seen - 2 }
{
    seen.saturating_sub(2)
}

// What is known names a place, and the one there was not handed out.
fn is_held(st: &[u8], seen: usize) -> bool
    requires { (length st.now ≡ 448) × (seen < 450) }
    ensures { result ≡ (leb 2 seen && not (eqb (get_or st.now (seen - 2) 0) 2)) }
{
    2 <= seen && st[seen - 2] != 2
}

// p.k is settled, was not handed out, and all let it out. One that was held back is asked again where it was, once that one was
// handed out: what let it out still does.
fn ready_in(
    n: usize,
    s: usize,
    h: &[u8],
    st: &[u8],
    know: &mut [u16],
    past: &[u8],
    p: usize,
    k: usize,
) -> bool
    requires { Asking n s h.now st.now know.old past.now p k }
    ensures says { result ≡ ready_in n s h.now st.now p k }
    ensures kept { Going n s h.now st.now know.new past.now }
{
    let x = slot_of(p, k);
    if st[x] != 1 {
        return false;
    }
    let seen = usize::from(know[x]);
    if seen == 1 {
        return true;
    }
    if is_held(st, seen) {
        return false;
    }
    ask(n, s, h, st, know, past, p, k, place_in(seen))
}

// The lowest that is.
pub fn next_in(
    n: usize,
    s: usize,
    h: &[u8],
    st: &[u8],
    know: &mut [u16],
    past: &mut [u8],
) -> Option<Instance>
    requires { Going n s h.now st.now know.old past.old }
    ensures says { result ≡ next_in n s h.now st.now }
    ensures kept { Going n s h.now st.now know.new past.new }
{
    let mut found = None;
    let first = pass_all(n, s, st, &mut *past) + 1;
    'walk: for j in first..=s {
        for o in 0..n {
            if ready_in(n, s, h, st, &mut *know, &*past, o, j) {
                found = Some(Instance {
                    owner: o,
                    number: j,
                });
                break 'walk;
            }
        }
    }
    found
}
