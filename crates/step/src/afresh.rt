// "Afresh": pre-accepting at the joined ballot.
ghost use Rattle.std.specs.Prelude.{◌≡◌};
ghost use Rattle.rules.specs.Afresh.{afresh};

use crate::made::{begun, say};
use paper::{Body, Command, Record, Vote};
use rules::Step;
use sets::others;

// The dependencies d (Seen's), status 2, voted = joined, phase 2, nothing collected; PreAccept to all others.
#[tactic(auto, unfolding(rules::specs::Afresh::afresh))]
pub fn afresh(n: usize, c: u8, o: u8, j: u16, r: Record, k: Command, d: [u16; 7]) -> Step
    ensures { result ≡ afresh n c o j r k d }
{
    let vote = Vote {
        voted: r.joined,
        status: 2,
        command: k,
        deps: d,
    };
    let entry = begun(r.joined, vote, r.mark, 2);
    let message = say(c, o, j, r.joined, Body::PreAccept(k), d);
    let to = others(n, c as usize);
    Step { entry, to, message }
}
