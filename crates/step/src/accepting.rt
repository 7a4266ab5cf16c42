// "Accepting".
ghost use Rattle.std.specs.Prelude.{◌≡◌};
ghost use Rattle.rules.specs.Accepting.{join_all, accepting, accepting_join};

use crate::made::{begun, say};
use nouns::deps::join;
use paper::{Body, Command, Record, Vote};
use rules::Step;
use sets::others;

// The join of these dependencies and all replies'.
#[tactic(auto, unfolding(rules::specs::Accepting::join_all))]
fn join_all(d: [u16; 7], vs: [Vote; 7]) -> [u16; 7]
    ensures { result ≡ join_all d vs }
{
    let mut all = d;
    for v in vs {
        let joined = join(all, v.deps);
        all = joined;
    }
    all
}

// The lead votes for it itself and asks all others anew.
#[tactic(auto, unfolding(rules::specs::Accepting::accepting))]
pub fn accepting(n: usize, c: u8, o: u8, j: u16, r: Record, k: Command, d: [u16; 7]) -> Step
    ensures { result ≡ accepting n c o j r k d }
{
    let vote = Vote {
        voted: r.joined,
        status: 3,
        command: k,
        deps: d,
    };
    let entry = begun(r.joined, vote, r.mark, 3);
    let message = say(c, o, j, r.joined, Body::Accept(k), d);
    let to = others(n, c as usize);
    Step { entry, to, message }
}

// Out of phase 2: the own command, and the join of all dependencies.
#[tactic(auto, unfolding(rules::specs::Accepting::accepting_join))]
pub fn accepting_join(n: usize, c: u8, o: u8, j: u16, r: Record) -> Step
    ensures { result ≡ accepting_join n c o j r }
{
    let deps = join_all(r.vote.deps, r.replies);
    accepting(n, c, o, j, r, r.vote.command, deps)
}
