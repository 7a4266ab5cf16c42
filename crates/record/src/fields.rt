// One field of a record where it stands, for passes over many records.
ghost use Rattle.std.specs.Prelude.{◌≡◌, ◌≤◌, length};
ghost use Rattle.record.specs.Layout.{record_length, record_at};

use crate::places::{COMMAND, DEPS, JOINED, KEY, MARK, PHASE, SECOND, STATUS, VOTE};
use paper::{Op, Vote};

pub fn joined_in(b: &[u8]) -> u32
    requires { record_length ≤ length b.now }
    ensures { result ≡ (record_at b.now).joined }
{
    numbers::get(b, JOINED)
}

pub fn vote_in(b: &[u8]) -> Vote
    requires { record_length ≤ length b.now }
    ensures { result ≡ (record_at b.now).vote }
{
    codec::read_vote(b, VOTE)
}

pub fn status_in(b: &[u8]) -> u8
    requires { record_length ≤ length b.now }
    ensures { result ≡ (record_at b.now).vote.status }
{
    numbers::get(b, STATUS)
}

pub fn op_in(b: &[u8]) -> Op
    requires { record_length ≤ length b.now }
    ensures { result ≡ (record_at b.now).vote.command.op }
{
    codec::op_of(numbers::get::<u8>(b, COMMAND))
}

pub fn key_in(b: &[u8]) -> u32
    requires { record_length ≤ length b.now }
    ensures { result ≡ (record_at b.now).vote.command.key }
{
    numbers::get(b, KEY)
}

pub fn second_in(b: &[u8]) -> u32
    requires { record_length ≤ length b.now }
    ensures { result ≡ (record_at b.now).vote.command.second }
{
    numbers::get(b, SECOND)
}

pub fn deps_in(b: &[u8]) -> [u16; 7]
    requires { record_length ≤ length b.now }
    ensures { result ≡ (record_at b.now).vote.deps }
{
    codec::read_deps(b, DEPS)
}

pub fn mark_in(b: &[u8]) -> u8
    requires { record_length ≤ length b.now }
    ensures { result ≡ (record_at b.now).mark }
{
    numbers::get(b, MARK)
}

pub fn phase_in(b: &[u8]) -> u8
    requires { record_length ≤ length b.now }
    ensures { result ≡ (record_at b.now).phase }
{
    numbers::get(b, PHASE)
}
