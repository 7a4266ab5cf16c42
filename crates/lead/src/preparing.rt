// "Recover I".
ghost use Rattle.std.specs.Prelude.{◌≡◌, ◌<◌};
ghost use Rattle.rules.specs.Recover.{next_ballot, preparing, recover};

use nouns::deps::no_deps;
use nouns::vote::no_vote;
use paper::{Body, Record};
use rules::Step;
use sets::{only_of, others};
use step::made::say;

fn next_ballot(c: u8, b: u32) -> u32
    requires { (b < 4_294_967_288) × (c < 7) }
    ensures { result ≡ next_ballot c b }
{
    8 * (b / 8 + 1) + c as u32
}

// Phase 1, own reply collected.
fn preparing(c: u8, r: Record) -> Record
    requires { (r.joined < 4_294_967_288) × (c < 7) }
    ensures { result ≡ preparing c r }
{
    let vote = r.vote;
    let mut replies = [no_vote(); 7];
    replies[c as usize] = vote;
    Record {
        joined: next_ballot(c, r.joined),
        phase: 1,
        set: only_of(c),
        replies,
        ..r
    }
}

// Prepare to all others at the next ballot of this copy.
#[tactic(auto, unfolding(rules::specs::Recover::recover))]
pub fn recover(n: usize, c: u8, o: u8, j: u16, r: Record) -> Step
    requires { (r.joined < 4_294_967_288) × (c < 7) }
    ensures { result ≡ recover n c o j r }
{
    let entry = preparing(c, r);
    let message = say(c, o, j, next_ballot(c, r.joined), Body::Prepare, no_deps());
    let to = others(n, c as usize);
    Step { entry, to, message }
}
