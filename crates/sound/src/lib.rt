// Whether a record is sound, by value and a part at a time: each line is a clause of the paper, in the order of paper/specs/Sound.
// Ranges and votes are asked field by field, as specs/Asked has them.
#![tactic(auto)]

ghost use Rattle.std.specs.Prelude.{◌≡◌, ◌^◌, ◌≤◌, ◌<◌};
ghost use Rattle.paper.specs.Sound.{
  preparing_ok,
  preaccepting_status,
  preaccepting_op,
  proposing_ok,
  busy_ok,
  phases_ok,
  collected_ok,
};
ghost use Rattle.sound.specs.Front.{front};
ghost use Rattle.sound.specs.Asked.{ballots_ok, marked_ok, phased_ok};

use nouns::ballot::{ballot_ok, lead};
use nouns::command::is_noop;
use nouns::setup::faults;
use nouns::vote::{added_ok, count, member, no_vote, same_vote, told_ok};
use paper::Vote;

fn power(n: usize) -> usize
    requires { n ≤ 7 }
    ensures { result ≡ 2 ^ n }
{
    1 << n
}

// At ballot 0, which most records stay at, nothing else is asked.
#[tactic(auto, unfolding(crate::specs::Asked::ballots_ok, paper::specs::Ballot::ballot_ok))]
pub fn ballots_ok(n: usize, joined: u32, voted: u32) -> bool
    ensures { result ≡ ballots_ok n joined voted }
{
    if joined == 0 {
        return voted == 0;
    }
    voted <= joined && ballot_ok(n, joined) && ballot_ok(n, voted)
}

#[tactic(auto, unfolding(crate::specs::Asked::marked_ok))]
pub fn marked_ok(status: u8, mark: u8) -> bool
    ensures { result ≡ marked_ok status mark }
{
    match mark {
        0 => status <= 4,
        1 => status == 4,
        _ => false,
    }
}

#[tactic(auto, unfolding(crate::specs::Asked::phased_ok))]
pub fn phased_ok(n: usize, phase: u8, set: u8) -> bool
    requires { n ≤ 7 }
    ensures { result ≡ phased_ok n phase set }
{
    phase <= 3 && (set as usize) < power(n)
}

#[tactic(auto, unfolding(paper::specs::Sound::preparing_ok))]
fn preparing_ok(n: usize, c: usize, joined: u32, v: Vote, phase: u8, set: u8) -> bool
    requires { (1 ≤ n) × (c < 8) }
    ensures { result ≡ preparing_ok n c (front joined v 0 phase set) }
{
    phase != 1 || 8 <= joined && v.voted < joined && member(c, set) && count(set) <= faults(n)
}

fn status_fits(v: Vote, phase: u8) -> bool
    ensures { result ≡ (preaccepting_status (front 0 v 0 phase 0)) }
{
    phase != 2 || v.status == 1 || v.status == 2
}

fn op_fits(joined: u32, v: Vote, phase: u8) -> bool
    ensures { result ≡ (preaccepting_op (front joined v 0 phase 0)) }
{
    phase != 2 || joined != 0 || !is_noop(v.command)
}

#[tactic(auto, unfolding(paper::specs::Sound::proposing_ok))]
fn proposing_ok(c: usize, joined: u32, v: Vote, phase: u8, set: u8) -> bool
    requires { c < 8 }
    ensures { result ≡ proposing_ok c (front joined v 0 phase set) }
{
    status_fits(v, phase)
        && op_fits(joined, v, phase)
        && (phase != 3 || v.status == 3)
        && (phase < 2 || v.voted == joined && !member(c, set))
}

#[tactic(auto, unfolding(paper::specs::Sound::busy_ok))]
fn busy_ok(c: usize, o: usize, joined: u32, v: Vote, phase: u8, set: u8) -> bool
    ensures { result ≡ busy_ok c o (front joined v 0 phase set) }
{
    if phase == 0 {
        return set == 0;
    }
    v.status < 4 && lead(o, joined) == c
}

#[tactic(auto, unfolding(paper::specs::Sound::phases_ok))]
pub fn phases_ok(n: usize, c: usize, o: usize, joined: u32, v: Vote, phase: u8, set: u8) -> bool
    requires { (1 ≤ n) × (c < 8) }
    ensures { result ≡ phases_ok n c o (front joined v 0 phase set) }
{
    busy_ok(c, o, joined, v, phase, set)
        && preparing_ok(n, c, joined, v, phase, set)
        && proposing_ok(c, joined, v, phase, set)
}

// The reply v of copy q, in phase p at ballot b of a record with the vote own.
#[tactic(auto, unfolding(paper::specs::Sound::collected_ok))]
pub fn collected_ok(
    n: usize,
    s: usize,
    c: usize,
    p: u8,
    b: u32,
    own: Vote,
    q: usize,
    v: Vote,
) -> bool
    ensures { result ≡ collected_ok n s c p b own q v }
{
    match p {
        1 if q == c => same_vote(v, own),
        1 => told_ok(n, s, b, v),
        2 => added_ok(n, s, v),
        _ => same_vote(v, no_vote()),
    }
}
