// A message as nineteen numbers, and back.
ghost use Rattle.std.specs.Prelude.{◌≡◌, ◌%◌, ◌<◌, ◌||◌, eqb, get_or};
ghost use Rattle.paper.specs.Message.{parts_of};
ghost use Rattle.paper.specs.Valid.{has_field};
ghost use Rattle.wire.specs.Calls.{refusal_of};
ghost use Rattle.pumxaqert.specs.Fields.{other_ballot, fields_of, command_from, body_from, deps_from, message_from, same_fields, other_field, field_of, most, can_hold, carried_only, first_unheld, misfit};

use codec::op_of;
use nouns::command::op_number;
use nouns::message::{
    body_of, command_in, has_field, joined_in, kind_of, row_in, row_of, status_in, voted_in,
};
use paper::{Blame, Body, Carried, Command, Field, Message, Parts, Refusal};
use wire::refusal_of;

// One more than the most that a byte, two and four can hold.
const BYTE: u64 = 256;

const SHORT: u64 = 65_536;

const WORD: u64 = 4_294_967_296;

// Voted, or joined where the body carries that.
#[tactic(auto, unfolding(crate::specs::Fields::other_ballot))]
fn other_ballot(b: Body) -> u32
    ensures { result ≡ other_ballot b }
{
    if row_in(b).parts.joined {
        joined_in(b)
    } else {
        voted_in(b)
    }
}

#[tactic(auto, unfolding(crate::specs::Fields::fields_of))]
pub fn fields_of(m: Message) -> [u64; 19]
    ensures { result ≡ fields_of m }
{
    let body = m.body;
    let command = command_in(body);
    let d = m.deps;
    [
        u64::from(kind_of(body)),
        u64::from(m.from),
        u64::from(m.to),
        u64::from(m.owner),
        u64::from(m.number),
        u64::from(m.ballot),
        u64::from(other_ballot(body)),
        u64::from(status_in(body)),
        op_number(command.op) as u64,
        u64::from(command.key),
        u64::from(command.second),
        command.edit,
        u64::from(d[0]),
        u64::from(d[1]),
        u64::from(d[2]),
        u64::from(d[3]),
        u64::from(d[4]),
        u64::from(d[5]),
        u64::from(d[6]),
    ]
}

#[tactic(auto, unfolding(crate::specs::Fields::command_from))]
fn command_from(f: &[u64; 19]) -> Command
    ensures { result ≡ command_from f.now }
{
    Command {
        op: op_of((f[8] % BYTE) as u8),
        key: (f[9] % WORD) as u32,
        second: (f[10] % WORD) as u32,
        edit: f[11],
    }
}

fn body_from(k: u64, v: u32, t: u8, c: Command) -> Body
    ensures { result ≡ body_from k v t c }
{
    let x = Carried {
        voted: v,
        status: t,
        command: c,
        joined: v,
    };
    body_of(k as usize, x)
}

#[tactic(auto, unfolding(crate::specs::Fields::deps_from))]
fn deps_from(f: &[u64; 19]) -> [u16; 7]
    ensures { result ≡ deps_from f.now }
{
    [
        (f[12] % SHORT) as u16,
        (f[13] % SHORT) as u16,
        (f[14] % SHORT) as u16,
        (f[15] % SHORT) as u16,
        (f[16] % SHORT) as u16,
        (f[17] % SHORT) as u16,
        (f[18] % SHORT) as u16,
    ]
}

// The message of these numbers, each cut to its place.
#[tactic(auto, unfolding(crate::specs::Fields::message_from))]
pub fn message_from(f: &[u64; 19]) -> Message
    ensures { result ≡ message_from f.now }
{
    let command = command_from(f);
    let other = (f[6] % WORD) as u32;
    Message {
        from: (f[1] % BYTE) as u8,
        to: (f[2] % BYTE) as u8,
        owner: (f[3] % BYTE) as u8,
        number: (f[4] % SHORT) as u16,
        ballot: (f[5] % WORD) as u32,
        body: body_from(f[0], other, (f[7] % BYTE) as u8, command),
        deps: deps_from(f),
    }
}

#[tactic(auto, using(crate::proofs::Laws::same_fields_is))]
pub fn same_fields(f: &[u64; 19], g: &[u64; 19]) -> bool
    ensures { result ≡ same_fields f.now g.now }
{
    f == g
}

fn other_field(p: Parts) -> Field
    ensures { result ≡ other_field p }
{
    if p.joined {
        Field::Joined
    } else {
        Field::Voted
    }
}

// The field that a number stands for.
fn field_of(p: Parts, i: usize) -> Field
    requires { i < 19 }
    ensures { result ≡ field_of p i }
{
    let other = other_field(p);
    let all = [
        Field::From,
        Field::From,
        Field::To,
        Field::Owner,
        Field::Number,
        Field::Ballot,
        other,
        Field::Status,
        Field::Op,
        Field::Key,
        Field::Second,
        Field::Edit,
        Field::Entry(0),
        Field::Entry(1),
        Field::Entry(2),
        Field::Entry(3),
        Field::Entry(4),
        Field::Entry(5),
        Field::Entry(6),
    ];
    all[i]
}

// The most that can stand there.
fn most(i: usize) -> u64
    requires { i < 19 }
    ensures { result ≡ get_or most i 0 }
{
    let all = [
        255,
        255,
        255,
        255,
        65_535,
        4_294_967_295,
        4_294_967_295,
        255,
        3,
        4_294_967_295,
        4_294_967_295,
        18_446_744_073_709_551_615,
        65_535,
        65_535,
        65_535,
        65_535,
        65_535,
        65_535,
        65_535u64,
    ];
    all[i]
}

// A number is 0 where the kind carries none.
fn carried_or_zero(p: Parts, f: &[u64; 19], i: usize) -> bool
    requires { i < 19 }
    ensures { result ≡ (has_field p (field_of p i) || eqb (get_or f.now i 0) 0) }
{
    has_field(p, field_of(p, i)) || f[i] == 0
}

fn carried_only(p: Parts, f: &[u64; 19]) -> bool
    ensures { result ≡ carried_only p f.now }
{
    for i in (0..19).rev() {
        if !carried_or_zero(p, f, i) {
            return false;
        }
    }
    true
}

// The place can hold the number; the op's place holds the ops that its kind carries.
fn can_hold(p: Parts, i: usize, x: u64) -> bool
    requires { i < 19 }
    ensures { result ≡ can_hold p i x }
{
    if i != 8 {
        return x <= most(i);
    }
    if p.second {
        return x == 3;
    }
    x <= 2
}

fn first_unheld(p: Parts, f: &[u64; 19]) -> Blame
    ensures { result ≡ first_unheld p f.now 18 1 }
{
    for i in 1..19 {
        if !can_hold(p, i, f[i]) {
            return Blame::Of(field_of(p, i));
        }
    }
    Blame::Length
}

// Why numbers are refused that are no message's.
pub fn misfit(f: &[u64; 19]) -> Refusal
    ensures { result ≡ refusal_of (parts_of (get_or f.now 0 0)) (misfit f.now) }
{
    let row = row_of(f[0] as usize);
    if !row.known {
        return Refusal::UnknownKind;
    }
    if !carried_only(row.parts, f) {
        return Refusal::WrongLength;
    }
    refusal_of(row.parts, first_unheld(row.parts, f))
}
