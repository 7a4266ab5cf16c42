// "PreAccept b".
ghost use Rattle.std.specs.Prelude.{◌≡◌, ◌<◌};
ghost use Rattle.rules.specs.PreAccept.{voted_at, pre_accept_ok, pre_accepted, pre_accept};

use nouns::deps::{join, same_deps};
use paper::{Body, Command, Message, Record, Vote};
use rules::Step;
use sets::only_of;
use step::made::{begun, commit_back, is_committed, nack_back, say, silent};

fn voted_at(r: Record, b: u32) -> bool
    ensures { result ≡ voted_at r b }
{
    1 <= r.vote.status && r.vote.voted == b
}

fn pre_accept_ok(c: u8, o: u8, j: u16, m: Message, r: Record) -> Step
    requires { m.from < 7 }
    ensures { result ≡ pre_accept_ok c o j m r }
{
    Step {
        entry: r,
        to: only_of(m.from),
        message: say(c, o, j, m.ballot, Body::PreAcceptOk, r.vote.deps),
    }
}

// Status 2 if Seen added nothing, else 1.
fn pre_accepted(r: Record, m: Message, k: Command, d: [u16; 7]) -> Record
    ensures { result ≡ pre_accepted r m k d }
{
    let status = if same_deps(d, m.deps) { 2 } else { 1 };
    let vote = Vote {
        voted: m.ballot,
        status,
        command: k,
        deps: d,
    };
    begun(m.ballot, vote, r.mark, 0)
}

// k is the command that m carries, seen its Seen.
#[tactic(auto, unfolding(rules::specs::PreAccept::pre_accept))]
pub fn pre_accept(c: u8, o: u8, j: u16, r: Record, m: Message, k: Command, seen: [u16; 7]) -> Step
    requires { m.from < 7 }
    ensures { result ≡ pre_accept c o j r m k seen }
{
    if is_committed(r) {
        return commit_back(c, o, j, r, m.from);
    }
    if m.ballot < r.joined {
        return nack_back(c, o, j, r, m);
    }
    if voted_at(r, m.ballot) {
        if r.vote.status <= 2 {
            return pre_accept_ok(c, o, j, m, r);
        }
        return silent(r);
    }
    let next = pre_accepted(r, m, k, join(m.deps, seen));
    pre_accept_ok(c, o, j, m, next)
}
