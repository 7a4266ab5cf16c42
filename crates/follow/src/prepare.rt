// "Prepare b".
ghost use Rattle.std.specs.Prelude.{◌≡◌, ◌<◌};
ghost use Rattle.rules.specs.Prepare.{prepare};

use paper::{Body, Message, Record, Vote};
use rules::Step;
use sets::only_of;
use step::made::{begun, commit_back, is_committed, nack_back, say, silent};

// The vote is told with the ballot it was given in, and not with the one joined before.
#[tactic(auto, unfolding(rules::specs::Prepare::prepare))]
pub fn prepare(c: u8, o: u8, j: u16, r: Record, m: Message) -> Step
    requires { m.from < 7 }
    ensures { result ≡ prepare c o j r m }
{
    if is_committed(r) {
        return commit_back(c, o, j, r, m.from);
    }
    if m.ballot < r.joined {
        return nack_back(c, o, j, r, m);
    }
    if r.vote.voted == m.ballot {
        return silent(r);
    }
    let Vote {
        voted,
        status,
        command,
        deps,
    } = r.vote;
    let body = Body::PrepareOk {
        voted,
        status,
        command,
    };
    Step {
        entry: begun(m.ballot, r.vote, r.mark, 0),
        to: only_of(m.from),
        message: say(c, o, j, m.ballot, body, deps),
    }
}
