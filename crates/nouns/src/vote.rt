ghost use Rattle.std.specs.Prelude.{◌≡◌, ◌<◌};
ghost use Rattle.paper.specs.Command.{noop};
ghost use Rattle.paper.specs.Vote.{no_vote, same_vote, none_is_blank, vote_ok, told_ok, added_ok, member, count};

use crate::ballot::ballot_ok;
use crate::command::{command_ok, is_noop, same_command};
use crate::deps::{deps_ok, no_deps, same_deps};
use paper::{Command, Op, Vote};

pub fn noop() -> Command
    ensures { result ≡ noop }
{
    Command {
        op: Op::Noop,
        key: 0,
        second: 0,
        edit: 0,
    }
}

pub fn no_vote() -> Vote
    ensures { result ≡ no_vote }
{
    Vote {
        voted: 0,
        status: 0,
        command: noop(),
        deps: no_deps(),
    }
}

#[tactic(auto, using(crate::proofs::Laws::same_deps_is), unfolding(paper::specs::Vote::same_vote, paper::specs::Command::same_command))]
pub fn same_vote(v: Vote, w: Vote) -> bool
    ensures { result ≡ same_vote v w }
{
    v == w
}

#[tactic(auto, unfolding(paper::specs::Vote::none_is_blank, paper::specs::Deps::same_deps, paper::specs::Logic::all_below))]
pub fn none_is_blank(v: Vote) -> bool
    ensures { result ≡ none_is_blank v }
{
    v.status != 0 || v.voted == 0 && is_noop(v.command) && same_deps(v.deps, no_deps())
}

#[tactic(auto, unfolding(paper::specs::Vote::vote_ok))]
pub fn vote_ok(n: usize, s: usize, k: usize, v: Vote) -> bool
    ensures { result ≡ vote_ok n s k v }
{
    ballot_ok(n, v.voted)
        && v.status as usize <= k
        && command_ok(v.command)
        && deps_ok(n, s, v.deps)
}

#[tactic(auto, unfolding(paper::specs::Vote::told_ok))]
pub fn told_ok(n: usize, s: usize, b: u32, v: Vote) -> bool
    ensures { result ≡ told_ok n s b v }
{
    vote_ok(n, s, 3, v) && v.voted < b && none_is_blank(v)
}

#[tactic(auto, unfolding(paper::specs::Vote::added_ok))]
pub fn added_ok(n: usize, s: usize, v: Vote) -> bool
    ensures { result ≡ added_ok n s v }
{
    v.voted == 0 && v.status == 0 && same_command(v.command, noop()) && deps_ok(n, s, v.deps)
}

// Copy q is in the set m.
#[tactic(auto, unfolding(paper::specs::Vote::member))]
pub fn member(q: usize, m: u8) -> bool
    requires { q < 8 }
    ensures { result ≡ member q m }
{
    (m >> q) % 2 == 1
}

// How many copies are in the set m.
pub fn count(m: u8) -> usize
    ensures { result ≡ count m }
{
    m.count_ones() as usize
}
