// Messages in bytes: the reader of any bytes and the writer into lent room.
#![tactic(auto)]

ghost use Rattle.std.specs.Prelude.{◌≡◌, ◌+◌, ◌≤◌, ◌<◌, cond, length};
ghost use Rattle.numbers.specs.Num.{num_at, splice};
ghost use Rattle.numbers.specs.Fields.{size_of};
ghost use Rattle.codec.specs.Parts.{sent_widths, sent_at, sent_bytes, deps_bytes};
ghost use Rattle.paper.specs.Command.{noop};
ghost use Rattle.paper.specs.Message.{kind_of, body_of};
ghost use Rattle.wire.specs.Wire.{head_size, command_start, deps_start, joined_start, rest_end, length_of, kind_at, carried_at, beside_at, message_at, OfKind, op_at, edit_in_command, offset_of, width_of, told_bytes, joined_bytes, part, head_bytes, rest_bytes, message_bytes};
ghost use Rattle.wire.specs.Calls.{refusal_of, read_message, wrote};

use nouns::deps::no_deps;
use nouns::message::{body_of, carried_in, kind_of, op_in, row_in, row_of};
use nouns::setup::setup_ok;
use nouns::vote::noop;
use paper::{Blame, Body, Carried, Command, Field, Message, Parts, Refusal};
use valid::verdict_on;

// How many bytes the head takes, and each part of the rest.
const HEAD: usize = 10;

const TOLD: usize = 5;

const SHORT: usize = 13;

const LONG: usize = 17;

const DEPS: usize = 14;

const JOINED: usize = 4;

// How many bytes a command takes, with its second key or without.
fn command_length(second: bool) -> usize
    ensures { result ≡ size_of (sent_widths second) }
{
    if second { LONG } else { SHORT }
}

// The places of the parts of a rest that begins at `at`, and its end.
#[tactic(auto, unfolding(crate::specs::Wire::past))]
fn command_start(p: Parts, at: usize) -> usize
    requires { at + 36 < 18446744073709551616 }
    ensures { result ≡ command_start p at }
{
    if p.told { at + TOLD } else { at }
}

#[tactic(auto, unfolding(crate::specs::Wire::past))]
fn deps_start(p: Parts, at: usize) -> usize
    requires { at + 36 < 18446744073709551616 }
    ensures { result ≡ deps_start p at }
{
    let start = command_start(p, at);
    if p.command {
        start + command_length(p.second)
    } else {
        start
    }
}

#[tactic(auto, unfolding(crate::specs::Wire::past))]
fn joined_start(p: Parts, at: usize) -> usize
    requires { at + 36 < 18446744073709551616 }
    ensures { result ≡ joined_start p at }
{
    let start = deps_start(p, at);
    if p.deps { start + DEPS } else { start }
}

#[tactic(auto, unfolding(crate::specs::Wire::past))]
fn rest_end(p: Parts, at: usize) -> usize
    requires { at + 40 < 18446744073709551616 }
    ensures { result ≡ rest_end p at }
{
    let start = joined_start(p, at);
    if p.joined { start + JOINED } else { start }
}

// The kind byte alone gives the length.
#[tactic(auto, unfolding(crate::specs::Wire::length_of))]
pub fn length_of(k: usize) -> usize
    ensures { result ≡ length_of k }
{
    let row = row_of(k);
    rest_end(row.parts, HEAD)
}

// The kind byte, 0 of no bytes.
pub fn kind_at(b: &[u8]) -> usize
    ensures { result ≡ kind_at b.now }
{
    if b.len() == 0 {
        return 0;
    }
    numbers::get::<u8>(b, 0) as usize
}

// The op byte, or 0 where there is none.
fn op_at(p: Parts, b: &[u8]) -> usize
    requires { length b.now ≡ rest_end p head_size }
    ensures { result ≡ op_at p b.now }
{
    if !p.command {
        return 0;
    }
    let at = command_start(p, HEAD);
    numbers::get::<u8>(b, at) as usize
}

fn read_voted(p: Parts, b: &[u8]) -> u32
    requires { length b.now ≡ rest_end p head_size }
    ensures { result ≡ cond p.told (num_at 4 b.now head_size) 0 }
{
    if !p.told {
        return 0;
    }
    numbers::get::<u32>(b, HEAD)
}

fn read_status(p: Parts, b: &[u8]) -> u8
    requires { length b.now ≡ rest_end p head_size }
    ensures { result ≡ cond p.told (num_at 1 b.now (head_size + 4)) 0 }
{
    if !p.told {
        return 0;
    }
    numbers::get::<u8>(b, HEAD + 4)
}

fn read_command(p: Parts, b: &[u8]) -> Command
    requires { length b.now ≡ rest_end p head_size }
    ensures { result ≡ cond p.command (sent_at p.second b.now (command_start p head_size)) noop }
{
    if !p.command {
        return noop();
    }
    let at = command_start(p, HEAD);
    codec::read_sent(b, at, p.second)
}

fn read_joined(p: Parts, b: &[u8]) -> u32
    requires { length b.now ≡ rest_end p head_size }
    ensures { result ≡ cond p.joined (num_at 4 b.now (joined_start p head_size)) 0 }
{
    if !p.joined {
        return 0;
    }
    let at = joined_start(p, HEAD);
    numbers::get::<u32>(b, at)
}

#[tactic(auto, unfolding(crate::specs::Wire::carried_at, paper::specs::Message::kept))]
fn read_carried(p: Parts, b: &[u8]) -> Carried
    requires { length b.now ≡ rest_end p head_size }
    ensures { result ≡ carried_at p b.now }
{
    let voted = read_voted(p, b);
    let status = read_status(p, b);
    let command = read_command(p, b);
    let joined = read_joined(p, b);
    Carried {
        voted,
        status,
        command,
        joined,
    }
}

#[tactic(auto, unfolding(crate::specs::Wire::beside_at))]
fn read_beside(p: Parts, b: &[u8]) -> [u16; 7]
    requires { length b.now ≡ rest_end p head_size }
    ensures { result ≡ beside_at p b.now }
{
    if !p.deps {
        return no_deps();
    }
    let at = deps_start(p, HEAD);
    codec::read_deps(b, at)
}

fn read_body(k: usize, p: Parts, b: &[u8]) -> Body
    requires { length b.now ≡ rest_end p head_size }
    ensures { result ≡ body_of k (carried_at p b.now) }
{
    body_of(k, read_carried(p, b))
}

// The message that framed bytes of kind k hold.
fn message_at(k: usize, p: Parts, b: &[u8]) -> Message
    requires { OfKind k p b.now }
    ensures { result ≡ message_at b.now }
{
    let from = numbers::get::<u8>(b, 1);
    let to = numbers::get::<u8>(b, 2);
    let owner = numbers::get::<u8>(b, 3);
    let number = numbers::get::<u16>(b, 4);
    let ballot = numbers::get::<u32>(b, 6);
    let body = read_body(k, p, b);
    let deps = read_beside(p, b);
    Message {
        from,
        to,
        owner,
        number,
        ballot,
        body,
        deps,
    }
}

fn edit_in_command(second: bool) -> usize
    ensures { result ≡ edit_in_command second }
{
    if second { 9 } else { 5 }
}

// The first byte of a field, in a message with these parts.
pub fn offset_of(p: Parts, f: Field) -> usize
    ensures { result ≡ offset_of p f }
{
    match f {
        Field::From => 1,
        Field::To => 2,
        Field::Owner => 3,
        Field::Number => 4,
        Field::Ballot => 6,
        Field::Voted => HEAD,
        Field::Status => HEAD + 4,
        Field::Op => command_start(p, HEAD),
        Field::Key => command_start(p, HEAD) + 1,
        Field::Second => command_start(p, HEAD) + 5,
        Field::Edit => command_start(p, HEAD) + edit_in_command(p.second),
        Field::Entry(i) => deps_start(p, HEAD) + 2 * (i as usize),
        Field::Joined => joined_start(p, HEAD),
    }
}

// How many bytes it takes.
pub fn width_of(f: Field) -> usize
    ensures { result ≡ width_of f }
{
    match f {
        Field::From => 1,
        Field::To => 1,
        Field::Owner => 1,
        Field::Number => 2,
        Field::Ballot => 4,
        Field::Voted => 4,
        Field::Status => 1,
        Field::Op => 1,
        Field::Key => 4,
        Field::Second => 4,
        Field::Edit => 8,
        Field::Entry(_) => 2,
        Field::Joined => 4,
    }
}

// The refusal that a blame is, in a message with these parts.
pub fn refusal_of(p: Parts, x: Blame) -> Refusal
    ensures { result ≡ refusal_of p x }
{
    match x {
        Blame::Kind => Refusal::UnknownKind,
        Blame::Length => Refusal::WrongLength,
        Blame::Way => Refusal::WrongWay,
        Blame::Lead => Refusal::WrongLead,
        Blame::Of(f) => Refusal::WrongField(offset_of(p, f)),
    }
}

// Reads a message of any bytes, as received by copy c under the setup n, s.
pub fn read_message(n: usize, s: usize, c: usize, b: &[u8]) -> Result<Message, Refusal>
    ensures { result ≡ read_message n s c b.now }
{
    if !setup_ok(n, s, c) {
        return Err(Refusal::Setup);
    }
    let k = kind_at(b);
    let row = row_of(k);
    if !row.known {
        return Err(Refusal::UnknownKind);
    }
    if b.len() != rest_end(row.parts, HEAD) {
        return Err(Refusal::WrongLength);
    }
    let op = op_at(row.parts, b);
    let m = message_at(k, row.parts, b);
    verdict_on(n, s, c, row, op, m).map_err(|why| refusal_of(row.parts, why))?;
    Ok(m)
}

fn write_head(out: &mut [u8], at: usize, m: Message)
    requires { (at + 10 ≤ length out.old) × (at < 256) }
    ensures { out.new ≡ splice out.old at (head_bytes m) }
{
    let body = m.body;
    let kind = kind_of(body);
    numbers::put(&mut *out, at, kind);
    numbers::put(&mut *out, at + 1, m.from);
    numbers::put(&mut *out, at + 2, m.to);
    numbers::put(&mut *out, at + 3, m.owner);
    numbers::put(&mut *out, at + 4, m.number);
    numbers::put(&mut *out, at + 6, m.ballot);
}

fn write_told(out: &mut [u8], at: usize, has: bool, x: Carried)
    requires { at + length (part has (told_bytes x)) ≤ length out.old }
    ensures { out.new ≡ splice out.old at (part has (told_bytes x)) }
{
    if has {
        numbers::put(&mut *out, at, x.voted);
        numbers::put(&mut *out, at + 4, x.status);
    }
}

fn write_command(out: &mut [u8], at: usize, p: Parts, k: Command)
    requires { at + length (part p.command (sent_bytes p.second k)) ≤ length out.old }
    ensures { out.new ≡ splice out.old at (part p.command (sent_bytes p.second k)) }
{
    if p.command {
        codec::write_sent(out, at, p.second, k);
    }
}

fn write_beside(out: &mut [u8], at: usize, has: bool, d: [u16; 7])
    requires { at + length (part has (deps_bytes d)) ≤ length out.old }
    ensures { out.new ≡ splice out.old at (part has (deps_bytes d)) }
{
    if has {
        codec::write_deps(out, at, d);
    }
}

fn write_joined(out: &mut [u8], at: usize, has: bool, x: Carried)
    requires { at + length (part has (joined_bytes x)) ≤ length out.old }
    ensures { out.new ≡ splice out.old at (part has (joined_bytes x)) }
{
    if has {
        numbers::put(out, at, x.joined);
    }
}

fn write_rest(out: &mut [u8], at: usize, p: Parts, x: Carried, d: [u16; 7])
    requires { rest_end p at ≤ length out.old × (at + 36 < 18446744073709551616) }
    ensures { out.new ≡ splice out.old at (rest_bytes p x d) }
{
    let a1 = command_start(p, at);
    let a2 = deps_start(p, at);
    let a3 = joined_start(p, at);
    write_told(&mut *out, at, p.told, x);
    write_command(&mut *out, a1, p, x.command);
    write_beside(&mut *out, a2, p.deps, d);
    write_joined(&mut *out, a3, p.joined, x);
}

// Writes a message at an offset, and nothing beyond its length.
pub fn message_bytes(out: &mut [u8], at: usize, m: Message)
    requires { (at + length_of (kind_of m.body) ≤ length out.old) × (at < 256) }
    ensures { out.new ≡ splice out.old at (message_bytes m) }
{
    let body = m.body;
    let deps = m.deps;
    let row = row_in(body);
    write_head(&mut *out, at, m);
    write_rest(&mut *out, at + HEAD, row.parts, carried_in(body), deps);
}

// Writes a message into lent room of 256 bytes or more.
pub fn write_message(
    n: usize,
    s: usize,
    c: usize,
    out: &mut [u8],
    m: Message,
) -> Result<usize, Refusal>
    ensures answers { result ≡ (wrote n s c out.old m).answer }
    ensures room { out.new ≡ (wrote n s c out.old m).out }
{
    if !setup_ok(n, s, c) {
        return Err(Refusal::Setup);
    }
    if out.len() < 256 {
        return Err(Refusal::Room);
    }
    let body = m.body;
    let row = row_in(body);
    verdict_on(n, s, m.to as usize, row, op_in(m), m).map_err(|why| refusal_of(row.parts, why))?;
    message_bytes(out, 0, m);
    Ok(rest_end(row.parts, HEAD))
}
