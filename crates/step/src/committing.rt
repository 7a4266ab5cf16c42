// Committing keeps both ballots; phase 0, nothing collected.
ghost use Rattle.std.specs.Prelude.{◌≡◌};
ghost use Rattle.rules.specs.Committing.{committed, committing};

use crate::made::{begun, say};
use paper::{Body, Command, Record, Vote};
use rules::Step;
use sets::others;

pub fn committed(r: Record, k: Command, d: [u16; 7]) -> Record
    ensures { result ≡ committed r k d }
{
    let vote = Vote {
        voted: r.vote.voted,
        status: 4,
        command: k,
        deps: d,
    };
    begun(r.joined, vote, r.mark, 0)
}

// A lead that commits what it holds sends Commit to all others.
#[tactic(auto, unfolding(rules::specs::Committing::committing))]
pub fn committing(n: usize, c: u8, o: u8, j: u16, r: Record) -> Step
    ensures { result ≡ committing n c o j r }
{
    let Vote { command, deps, .. } = r.vote;
    let entry = committed(r, command, deps);
    let message = say(c, o, j, r.joined, Body::Commit(command), deps);
    let to = others(n, c as usize);
    Step { entry, to, message }
}
