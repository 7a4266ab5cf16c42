// "Nack b".
ghost use Rattle.std.specs.Prelude.{◌≡◌};
ghost use Rattle.rules.specs.Nack.{nack};

use paper::{Message, Record};
use rules::Step;
use step::made::{begun, is_committed, silent};

// x is the Nack's joined ballot.
#[tactic(auto, unfolding(rules::specs::Nack::nack))]
pub fn nack(r: Record, m: Message, x: u32) -> Step
    ensures { result ≡ nack r m x }
{
    if !is_committed(r) && r.joined == m.ballot {
        return silent(begun(x, r.vote, r.mark, 0));
    }
    silent(r)
}
