ghost use Rattle.std.specs.Prelude.{◌≡◌, leb};
ghost use Rattle.paper.specs.Deps.{entry_limit, deps_ok, same_deps, no_deps, join};

use crate::logic::all_below;

pub fn entry_limit(n: usize, s: usize, i: usize) -> usize
    ensures { result ≡ entry_limit n s i }
{
    if i < n { s } else { 0 }
}

// Entry i of the dependencies is x.
pub fn entry_ok(n: usize, s: usize, i: usize, x: u16) -> bool
    ensures { result ≡ leb x (entry_limit n s i) }
{
    x as usize <= entry_limit(n, s, i)
}

#[tactic(auto, unfolding(paper::specs::Deps::deps_ok))]
pub fn deps_ok(n: usize, s: usize, d: [u16; 7]) -> bool
    ensures { result ≡ deps_ok n s d }
{
    all_below(7, |i| entry_ok(n, s, i, d[i]))
}

#[tactic(auto, using(crate::proofs::Laws::same_deps_is))]
pub fn same_deps(a: [u16; 7], b: [u16; 7]) -> bool
    ensures { result ≡ same_deps a b }
{
    a == b
}

pub fn no_deps() -> [u16; 7]
    ensures { result ≡ no_deps }
{
    [0; 7]
}

// The larger entry at each place.
pub fn join(a: [u16; 7], b: [u16; 7]) -> [u16; 7]
    ensures { result ≡ join a b }
{
    let mut d = a;
    for i in 0..7 {
        d[i] = a[i].max(b[i]);
    }
    d
}
