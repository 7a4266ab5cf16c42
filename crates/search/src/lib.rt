// The search over what an instance reaches, by recursion. What was visited is a mark for each owner: its row up to there.
#![tactic(auto)]

ghost use Rattle.std.specs.Prelude.{◌≡◌};
ghost use Rattle.table.specs.Sizes.{Has};
ghost use Rattle.rules.specs.Step.{is_committed};
ghost use Rattle.rules.specs.Order.{waits_for, first_open};
ghost use Rattle.seen.specs.Records.{records_in};
ghost use Rattle.reach.specs.High.{Explored};
ghost use Rattle.search.specs.Searching.{Searching, Searched, Asked};

use rules::Instance;
use table::records::{deps_of, status_of};

// o.j is committed.
pub fn committed_of(t: &[u8], n: usize, s: usize, o: usize, j: usize) -> bool
    requires { Has n s o j t.now }
    ensures { result ≡ is_committed (records_in s t.now o j) }
{
    status_of(t, n, s, o, j) == 4
}

// Visits all that p.k reaches and that was not visited before. Each call raises a mark first: unvisited instances fall.
pub fn explore(t: &[u8], n: usize, s: usize, p: usize, k: usize, m: &mut [u8])
    requires { Searching n s t.now p k m.old }
    ensures { Explored n s (records_in s t.now) p k n m.old m.new }
{
    let deps = deps_of(t, n, s, p, k);
    let mut q = 0;
    while q < n {
        if u16::from(m[q]) < deps[q] {
            let x = m[q] + 1;
            m[q] = x;
            explore(t, n, s, q, usize::from(x), &mut *m);
        } else {
            q += 1;
        }
    }
}

// o.j is p.k, or the search from p.k visited it; and it is not committed.
#[tactic(auto, unfolding(rules::specs::Order::waits_for))]
fn waits_for(t: &[u8], n: usize, s: usize, p: usize, k: usize, m: &[u8], o: usize, j: usize) -> bool
    requires { Asked n s t.now p k m.now o j }
    ensures { result ≡ waits_for n s (records_in s t.now) p k o j }
{
    let itself = o == p && j == k;
    let visited = itself || j <= usize::from(m[o]);
    visited && !committed_of(t, n, s, o, j)
}

// Names the uncommitted instance that comes first among p.k and what the search from it visited.
pub fn first_open(t: &[u8], n: usize, s: usize, p: usize, k: usize, m: &[u8]) -> Option<Instance>
    requires { Searched n s t.now p k m.now }
    ensures { result ≡ first_open n s (records_in s t.now) p k }
{
    let mut found = None;
    'walk: for j in 1..=s {
        for o in 0..n {
            if waits_for(t, n, s, p, k, m, o, j) {
                found = Some(Instance {
                    owner: o,
                    number: j,
                });
                break 'walk;
            }
        }
    }
    found
}
