// One record in its bytes: read, written and judged. Where each part stands is said in `places`, and nowhere else.
#![tactic(auto)]

ghost use Rattle.std.specs.Prelude.{◌≡◌, ◌+◌, ◌*◌, ◌≤◌, ◌<◌, length};
ghost use Rattle.numbers.specs.Num.{splice};
ghost use Rattle.paper.specs.Logic.{all_below};
ghost use Rattle.paper.specs.Sound.{phases_ok};
ghost use Rattle.paper.specs.Deps.{deps_ok};
ghost use Rattle.paper.specs.Vote.{none_is_blank};
ghost use Rattle.codec.specs.Parts.{deps_at, vote_at};
ghost use Rattle.record.specs.Layout.{vote_length, vote_place, deps_place, replies_place, replies_length, record_length, votes_at, votes_bytes, record_at, front_bytes, record_bytes};
ghost use Rattle.record.specs.Part.{op_fits, command_fits, front_ok, plain_ok, reply_part, no_replies, is_idle, idle_ok, sound_part};

use crate::places::{
    COMMAND, DEPS, EDIT, JOINED, KEY, LENGTH, MARK, PHASE, REPLIES, SECOND, SET, STATUS, VOTE,
};
use nouns::deps::deps_ok;
use nouns::vote::{member, no_vote, none_is_blank, same_vote};
use paper::{Record, Vote};
use sound::{ballots_ok, collected_ok, marked_ok, phased_ok, phases_ok};
use std::array;

pub mod fields;
pub mod places;

fn read_votes(b: &[u8], at: usize) -> [Vote; 7]
    requires { at + replies_length ≤ length b.now }
    ensures { result ≡ votes_at 7 b.now at }
{
    array::from_fn(|q| codec::read_vote(b, at + codec::VOTE * q))
}

pub fn read_record(b: &[u8]) -> Record
    requires { record_length ≤ length b.now }
    ensures { result ≡ record_at b.now }
{
    Record {
        joined: numbers::get(b, JOINED),
        vote: codec::read_vote(b, VOTE),
        mark: numbers::get(b, MARK),
        phase: numbers::get(b, PHASE),
        set: numbers::get(b, SET),
        replies: read_votes(b, REPLIES),
    }
}

fn write_votes(b: &mut [u8], at: usize, vs: [Vote; 7])
    requires { at + replies_length ≤ length b.old }
    ensures b_after { b.new ≡ splice b.old at (votes_bytes vs) }
    ensures sized { length vs ≡ 7 }
{
    for k in 0..7 {
        codec::write_vote(b, at + codec::VOTE * k, vs[k]);
    }
}

fn write_front(b: &mut [u8], r: Record)
    requires { replies_place ≤ length b.old }
    ensures { b.new ≡ splice b.old 0 (front_bytes r) }
{
    numbers::put(b, JOINED, r.joined);
    codec::write_vote(b, VOTE, r.vote);
    numbers::put(b, MARK, r.mark);
    numbers::put(b, PHASE, r.phase);
    numbers::put(b, SET, r.set);
}

pub fn write_record(b: &mut [u8], r: Record)
    requires { length b.old ≡ record_length }
    ensures { b.new ≡ record_bytes r }
{
    write_front(b, r);
    write_votes(b, REPLIES, r.replies);
}

fn op_fits(b: &[u8], at: usize) -> bool
    requires { at + vote_length ≤ length b.now }
    ensures { result ≡ op_fits b.now at }
{
    numbers::get::<u8>(b, at + codec::COMMAND_AT) <= 3
}

// The op byte, and the command: a rewire has two keys that rise, a no-op has zero key and edit.
fn command_fits(b: &[u8]) -> bool
    requires { record_length ≤ length b.now }
    ensures { result ≡ command_fits b.now }
{
    let op = numbers::get::<u8>(b, COMMAND);
    let second = numbers::get::<u32>(b, SECOND);
    let key = numbers::get::<u32>(b, KEY);
    if op == 3 {
        return key < second;
    }
    if second != 0 {
        return false;
    }
    if op != 0 {
        return op <= 3;
    }
    if key != 0 {
        return false;
    }
    numbers::get::<u64>(b, EDIT) == 0
}

fn none_is_blank_in(b: &[u8]) -> bool
    requires { record_length ≤ length b.now }
    ensures { result ≡ none_is_blank (vote_at b.now vote_place) }
{
    numbers::get::<u8>(b, STATUS) != 0 || none_is_blank(codec::read_vote(b, VOTE))
}

// With seven copies every entry has the same limit: said as a number, it is compared with as it stands.
fn deps_ok_in(b: &[u8], n: usize, s: usize) -> bool
    requires { record_length ≤ length b.now }
    ensures { result ≡ deps_ok n s (deps_at b.now deps_place) }
{
    let d = codec::read_deps(b, DEPS);
    if 7 <= n {
        return deps_ok(7, s, d);
    }
    deps_ok(n, s, d)
}

// What holds in any phase of all that stands before the phase. Each field is read where it is asked. With `&&` for the returns a busy record is judged slower.
fn front_ok(b: &[u8], n: usize, s: usize) -> bool
    requires { record_length ≤ length b.now }
    ensures { result ≡ front_ok n s b.now }
{
    if !ballots_ok(n, numbers::get(b, JOINED), numbers::get(b, VOTE)) {
        return false;
    }
    if !command_fits(b) {
        return false;
    }
    if !marked_ok(numbers::get(b, STATUS), numbers::get(b, MARK)) {
        return false;
    }
    if !none_is_blank_in(b) {
        return false;
    }
    deps_ok_in(b, n, s)
}

// What holds in any phase.
#[tactic(auto, unfolding(crate::specs::Part::plain_ok))]
fn plain_ok(b: &[u8], n: usize, s: usize) -> bool
    requires { (record_length ≤ length b.now) × (n ≤ 7) }
    ensures { result ≡ plain_ok n s b.now }
{
    front_ok(b, n, s) && phased_ok(n, numbers::get(b, PHASE), numbers::get(b, SET))
}

// What the phase asks.
fn phases_ok_in(b: &[u8], n: usize, c: usize, o: usize) -> bool
    requires { (record_length ≤ length b.now) × (1 ≤ n) × (c < 8) }
    ensures { result ≡ phases_ok n c o (record_at b.now) }
{
    let joined = numbers::get::<u32>(b, JOINED);
    let v = codec::read_vote(b, VOTE);
    let phase = numbers::get::<u8>(b, PHASE);
    let set = numbers::get::<u8>(b, SET);
    phases_ok(n, c, o, joined, v, phase, set)
}

// The place of the reply of copy q.
fn reply_part(b: &[u8], n: usize, s: usize, c: usize, q: usize) -> bool
    requires { (record_length ≤ length b.now) × (q < 7) }
    ensures { result ≡ reply_part n s c b.now q }
{
    let at = REPLIES + codec::VOTE * q;
    if !op_fits(b, at) {
        return false;
    }
    let v = codec::read_vote(b, at);
    let set = numbers::get::<u8>(b, SET);
    if member(q, set) {
        let joined = numbers::get::<u32>(b, JOINED);
        let own = codec::read_vote(b, VOTE);
        let phase = numbers::get::<u8>(b, PHASE);
        return collected_ok(n, s, c, phase, joined, own, q, v);
    }
    same_vote(v, no_vote())
}

fn replies_ok(b: &[u8], n: usize, s: usize, c: usize) -> bool
    requires { record_length ≤ length b.now }
    ensures { result ≡ all_below 7 (reply_part n s c b.now) }
{
    (0..7).all(|q| reply_part(b, n, s, c, q))
}

fn no_replies(b: &[u8]) -> bool
    requires { record_length ≤ length b.now }
    ensures { result ≡ no_replies b.now }
{
    b[REPLIES..LENGTH].iter().fold(0, |any, x| any | x) == 0
}

#[tactic(auto, unfolding(crate::specs::Part::is_idle))]
fn is_idle(b: &[u8]) -> bool
    requires { record_length ≤ length b.now }
    ensures { result ≡ is_idle b.now }
{
    numbers::get::<u8>(b, PHASE) == 0 && numbers::get::<u8>(b, SET) == 0 && no_replies(b)
}

// Most records are in no phase and have nothing collected: where the rest is right too, they are sound at any copy.
#[tactic(auto, unfolding(crate::specs::Part::idle_ok))]
pub fn idle_ok(b: &[u8], n: usize, s: usize) -> bool
    requires { record_length ≤ length b.now }
    ensures { result ≡ idle_ok n s b.now }
{
    is_idle(b) && front_ok(b, n, s)
}

// The record in these bytes is sound at copy c for an instance of owner o.
#[tactic(auto, using(crate::proofs::Laws::as_judged))]
pub fn sound_part(b: &[u8], n: usize, s: usize, c: usize, o: usize) -> bool
    requires { (record_length ≤ length b.now) × (1 ≤ n) × (n ≤ 7) × (c < 8) }
    ensures { result ≡ sound_part n s c o b.now }
{
    plain_ok(b, n, s) && phases_ok_in(b, n, c, o) && replies_ok(b, n, s, c)
}
