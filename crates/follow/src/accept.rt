// "Accept b".
ghost use Rattle.std.specs.Prelude.{◌≡◌, ◌<◌};
ghost use Rattle.rules.specs.Accept.{accepted, accept};

use nouns::deps::no_deps;
use paper::{Body, Command, Message, Record, Vote};
use rules::Step;
use sets::only_of;
use step::made::{begun, commit_back, is_committed, nack_back, say};

fn accepted(r: Record, m: Message, k: Command) -> Record
    ensures { result ≡ accepted r m k }
{
    let deps = m.deps;
    let vote = Vote {
        voted: m.ballot,
        status: 3,
        command: k,
        deps,
    };
    begun(m.ballot, vote, r.mark, 0)
}

// k is the command that m carries.
#[tactic(auto, unfolding(rules::specs::Accept::accept))]
pub fn accept(c: u8, o: u8, j: u16, r: Record, m: Message, k: Command) -> Step
    requires { m.from < 7 }
    ensures { result ≡ accept c o j r m k }
{
    if is_committed(r) {
        return commit_back(c, o, j, r, m.from);
    }
    if m.ballot < r.joined {
        return nack_back(c, o, j, r, m);
    }
    Step {
        entry: accepted(r, m, k),
        to: only_of(m.from),
        message: say(c, o, j, m.ballot, Body::AcceptOk, no_deps()),
    }
}
