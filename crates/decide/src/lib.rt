// "PrepareOK b": what a lead decides on F+1 replies.
#![tactic(auto)]

ghost use Rattle.std.specs.Prelude.{◌≡◌, ◌<◌, ◌≤◌};
ghost use Rattle.rules.specs.Sets.{those};
ghost use Rattle.rules.specs.PrepareOk.{
  told_by,
  voter,
  top_voted,
  top_voter,
  top_accepter,
  same_voter,
  maybe_fast,
  afresh_command,
  accepted_from,
  decide,
  quorum,
};

use nouns::setup::faults;
use nouns::vote::{count, member, noop};
use paper::{Command, Record, Vote};
use rules::Step;
use sets::{lowest, those};
use step::accepting::accepting;
use step::afresh::afresh;

// What copy q told.
fn told_by(r: &Record, q: usize) -> Vote
    requires { q < 7 }
    ensures { result ≡ told_by r.now q }
{
    r.replies[q]
}

// Copy q is among the replies with status >= 1.
fn voter(r: &Record, q: usize) -> bool
    requires { q < 7 }
    ensures { result ≡ voter r.now q }
{
    member(q, r.set) && 1 <= told_by(r, q).status
}

// The highest voted ballot among status >= 1.
#[tactic(auto, unfolding(rules::specs::PrepareOk::top_voted))]
fn top_voted(r: &Record) -> u32
    ensures { result ≡ top_voted r.now }
{
    let mut top = 0;
    for q in 0..7 {
        if voter(r, q) {
            top = u32::max(top, told_by(r, q).voted);
        }
    }
    top
}

// The copies among the replies with status >= 1.
fn voters(r: &Record) -> u8
    ensures { result ≡ those (voter r.now) }
{
    those(|q| voter(r, q))
}

// Those with a status 3 at the highest voted ballot.
fn top_accepters(r: &Record) -> u8
    ensures { result ≡ those (top_accepter r.now) }
{
    let top = top_voted(r);
    those(|q| voter(r, q) && told_by(r, q).voted == top && told_by(r, q).status == 3)
}

// Those with status 2.
fn same_voters(r: &Record) -> u8
    ensures { result ≡ those (same_voter r.now) }
{
    those(|q| voter(r, q) && told_by(r, q).status == 2)
}

// Those that voted at the highest ballot.
fn top_voters(r: &Record) -> u8
    ensures { result ≡ those (top_voter r.now) }
{
    let top = top_voted(r);
    those(|q| voter(r, q) && told_by(r, q).voted == top)
}

// No recovery was voted in, the owner did not answer, and F or more took the command as the owner sent it.
#[tactic(auto, unfolding(rules::specs::PrepareOk::maybe_fast))]
fn maybe_fast(n: usize, o: usize, r: &Record) -> bool
    requires { (3 ≤ n) × (o < 7) }
    ensures { result ≡ maybe_fast n o r.now }
{
    top_voted(r) == 0 && !member(o, r.set) && faults(n) <= count(same_voters(r))
}

// The command that is pre-accepted afresh, if that is what is decided.
#[tactic(auto, unfolding(rules::specs::PrepareOk::afresh_command))]
pub fn afresh_command(r: Record) -> Command
    ensures { result ≡ afresh_command r }
{
    if voters(&r) == 0 {
        return noop();
    }
    let q = lowest(top_voters(&r));
    if q < 7 {
        told_by(&r, q).command
    } else {
        noop()
    }
}

// The copy whose reply is accepted, 7 where the command is pre-accepted afresh.
#[tactic(auto, unfolding(rules::specs::PrepareOk::accepted_from))]
fn accepted_from(n: usize, o: usize, r: &Record) -> usize
    requires { (3 ≤ n) × (o < 7) }
    ensures { result ≡ accepted_from n o r.now }
{
    if voters(r) == 0 {
        return 7;
    }
    let accepters = top_accepters(r);
    if accepters != 0 {
        return lowest(accepters);
    }
    if maybe_fast(n, o, r) {
        return lowest(same_voters(r));
    }
    7
}

// At F+1 replies, own included.
#[tactic(auto, unfolding(rules::specs::PrepareOk::quorum))]
pub fn quorum(n: usize, r: Record) -> bool
    requires { (3 ≤ n) × (n ≤ 7) }
    ensures { result ≡ quorum n r }
{
    faults(n) < count(r.set)
}

// seen: Seen of the command that is pre-accepted afresh.
#[tactic(auto, unfolding(rules::specs::PrepareOk::decide))]
pub fn decide(n: usize, c: u8, o: u8, j: u16, r: Record, seen: [u16; 7]) -> Step
    requires { (3 ≤ n) × (o < 7) }
    ensures { result ≡ decide n c o j r seen }
{
    let q = accepted_from(n, o as usize, &r);
    if q < 7 {
        let Vote { command, deps, .. } = told_by(&r, q);
        return accepting(n, c, o, j, r, command, deps);
    }
    afresh(n, c, o, j, r, afresh_command(r), seen)
}
