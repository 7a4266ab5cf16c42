// "Nudge I".
ghost use Rattle.std.specs.Prelude.{◌≡◌, ◌≤◌};
ghost use Rattle.rules.specs.Nudge.{to_absent, again, nudge};

use crate::pre_accept_ok::some_enough;
use nouns::deps::no_deps;
use paper::{Body, Record, Vote};
use rules::Step;
use sets::{absent, others};
use step::accepting::accepting_join;
use step::made::{is_committed, say};

// This body to those not yet replied.
fn to_absent(n: usize, c: u8, o: u8, j: u16, r: Record, body: Body, d: [u16; 7]) -> Step
    ensures { result ≡ to_absent n c o j r body d }
{
    let message = say(c, o, j, r.joined, body, d);
    Step {
        entry: r,
        to: absent(n, c as usize, r.set),
        message,
    }
}

// The phase's message to those not yet replied.
#[tactic(auto, unfolding(rules::specs::Nudge::again))]
fn again(n: usize, c: u8, o: u8, j: u16, r: Record) -> Step
    ensures { result ≡ again n c o j r }
{
    let Vote { command, deps, .. } = r.vote;
    match r.phase {
        1 => to_absent(n, c, o, j, r, Body::Prepare, no_deps()),
        2 => to_absent(n, c, o, j, r, Body::PreAccept(command), deps),
        _ => to_absent(n, c, o, j, r, Body::Accept(command), deps),
    }
}

// What is committed is told to all others; a first round that F copies answered is closed, without the fast path.
#[tactic(auto, unfolding(rules::specs::Nudge::nudge))]
pub fn nudge(n: usize, c: u8, o: u8, j: u16, r: Record) -> Step
    requires { 3 ≤ n }
    ensures { result ≡ nudge n c o j r }
{
    if is_committed(r) {
        let Vote { command, deps, .. } = r.vote;
        let message = say(c, o, j, r.joined, Body::Commit(command), deps);
        return Step {
            entry: r,
            to: others(n, c as usize),
            message,
        };
    }
    if r.phase == 2 && r.joined == 0 && some_enough(n, r) {
        return accepting_join(n, c, o, j, r);
    }
    again(n, c, o, j, r)
}
