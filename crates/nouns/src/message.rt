// The table of bodies, a row for each kind, and beside it all that goes by a body's cases.
ghost use Rattle.std.specs.Prelude.{◌≡◌};
ghost use Rattle.paper.specs.Valid.{op_in, has_field};
ghost use Rattle.paper.specs.Message.{
  nothing,
  dependencies,
  proposal,
  whole_vote,
  higher_ballot,
  said_by,
  longer,
  unknown,
  row_of,
  row_in,
  kind_by,
  kind_of,
  is_commit,
  command_carried,
  joined_carried,
  none_carried,
  carried_in,
  body_of,
  command_in,
  voted_in,
  status_in,
  joined_in,
  vote_in,
  is_word,
  is_reply,
  is_fresh,
  is_recovery,
};

use crate::command::{is_rewire, op_number};
use crate::vote::noop;
use paper::{Ballots, Body, Carried, Command, Field, Message, Parts, Role, Row, Vote};

fn nothing() -> Parts
    ensures { result ≡ nothing }
{
    Parts {
        told: false,
        command: false,
        second: false,
        deps: false,
        joined: false,
    }
}

fn dependencies() -> Parts
    ensures { result ≡ dependencies }
{
    Parts {
        deps: true,
        ..nothing()
    }
}

fn proposal() -> Parts
    ensures { result ≡ proposal }
{
    Parts {
        command: true,
        deps: true,
        ..nothing()
    }
}

fn whole_vote() -> Parts
    ensures { result ≡ whole_vote }
{
    Parts {
        told: true,
        ..proposal()
    }
}

fn higher_ballot() -> Parts
    ensures { result ≡ higher_ballot }
{
    Parts {
        joined: true,
        ..nothing()
    }
}

fn said_by(role: Role, ballots: Ballots, parts: Parts) -> Row
    ensures { result ≡ said_by role ballots parts }
{
    Row {
        known: true,
        role,
        ballots,
        parts,
    }
}

fn longer(p: Parts) -> Parts
    ensures { result ≡ longer p }
{
    Parts { second: true, ..p }
}

fn unknown() -> Row
    ensures { result ≡ unknown }
{
    Row {
        known: false,
        role: Role::Anyone,
        ballots: Ballots::Any,
        parts: nothing(),
    }
}

// The table.
#[tactic(auto, unfolding(paper::specs::Message::row_of))]
pub fn row_of(k: usize) -> Row
    ensures { result ≡ row_of k }
{
    match k {
        1 => said_by(Role::Lead, Ballots::Fresh, proposal()),
        2 => said_by(Role::Reply, Ballots::Any, dependencies()),
        3 => said_by(Role::Lead, Ballots::Any, proposal()),
        4 => said_by(Role::Reply, Ballots::Any, nothing()),
        5 => said_by(Role::Anyone, Ballots::Any, proposal()),
        6 => said_by(Role::Lead, Ballots::Recovery, nothing()),
        7 => said_by(Role::Reply, Ballots::Recovery, whole_vote()),
        8 => said_by(Role::Reply, Ballots::Any, higher_ballot()),
        9 => said_by(Role::Lead, Ballots::Fresh, longer(proposal())),
        10 => said_by(Role::Lead, Ballots::Any, longer(proposal())),
        11 => said_by(Role::Anyone, Ballots::Any, longer(proposal())),
        12 => said_by(Role::Reply, Ballots::Recovery, longer(whole_vote())),
        _ => unknown(),
    }
}

fn kind_by(short: u8, long: u8, c: Command) -> u8
    ensures { result ≡ kind_by short long c }
{
    if is_rewire(c) { long } else { short }
}

pub fn kind_of(b: Body) -> u8
    ensures { result ≡ kind_of b }
{
    match b {
        Body::PreAccept(k) => kind_by(1, 9, k),
        Body::PreAcceptOk => 2,
        Body::Accept(k) => kind_by(3, 10, k),
        Body::AcceptOk => 4,
        Body::Commit(k) => kind_by(5, 11, k),
        Body::Prepare => 6,
        Body::PrepareOk { command, .. } => kind_by(7, 12, command),
        Body::Nack(_) => 8,
    }
}

pub fn is_commit(b: Body) -> bool
    ensures { result ≡ is_commit b }
{
    matches!(b, Body::Commit(_))
}

pub fn row_in(b: Body) -> Row
    ensures { result ≡ row_in b }
{
    row_of(kind_of(b) as usize)
}

fn command_carried(command: Command) -> Carried
    ensures { result ≡ command_carried command }
{
    Carried {
        command,
        ..none_carried()
    }
}

fn joined_carried(joined: u32) -> Carried
    ensures { result ≡ joined_carried joined }
{
    Carried {
        joined,
        ..none_carried()
    }
}

fn none_carried() -> Carried
    ensures { result ≡ none_carried }
{
    Carried {
        voted: 0,
        status: 0,
        command: noop(),
        joined: 0,
    }
}

pub fn carried_in(b: Body) -> Carried
    ensures { result ≡ carried_in b }
{
    match b {
        Body::PreAccept(k) | Body::Accept(k) | Body::Commit(k) => command_carried(k),
        Body::PreAcceptOk | Body::AcceptOk | Body::Prepare => none_carried(),
        Body::PrepareOk {
            voted,
            status,
            command,
        } => Carried {
            voted,
            status,
            command,
            joined: 0,
        },
        Body::Nack(joined) => joined_carried(joined),
    }
}

// The body of a kind that carries x.
#[tactic(auto, unfolding(paper::specs::Message::body_of))]
pub fn body_of(k: usize, x: Carried) -> Body
    ensures { result ≡ body_of k x }
{
    match k {
        1 | 9 => Body::PreAccept(x.command),
        2 => Body::PreAcceptOk,
        3 | 10 => Body::Accept(x.command),
        4 => Body::AcceptOk,
        5 | 11 => Body::Commit(x.command),
        7 | 12 => Body::PrepareOk {
            voted: x.voted,
            status: x.status,
            command: x.command,
        },
        8 => Body::Nack(x.joined),
        _ => Body::Prepare,
    }
}

pub fn command_in(b: Body) -> Command
    ensures { result ≡ command_in b }
{
    carried_in(b).command
}

pub fn voted_in(b: Body) -> u32
    ensures { result ≡ voted_in b }
{
    carried_in(b).voted
}

pub fn status_in(b: Body) -> u8
    ensures { result ≡ status_in b }
{
    carried_in(b).status
}

pub fn joined_in(b: Body) -> u32
    ensures { result ≡ joined_in b }
{
    carried_in(b).joined
}

pub fn op_in(m: Message) -> usize
    ensures { result ≡ op_in m }
{
    op_number(command_in(m.body).op)
}

// The vote that is told.
pub fn vote_in(m: Message) -> Vote
    ensures { result ≡ vote_in m }
{
    let x = carried_in(m.body);
    let deps = m.deps;
    Vote {
        voted: x.voted,
        status: x.status,
        command: x.command,
        deps,
    }
}

// Whether a message with these parts has such a field.
pub fn has_field(p: Parts, f: Field) -> bool
    ensures { result ≡ has_field p f }
{
    match f {
        Field::From | Field::To | Field::Owner | Field::Number | Field::Ballot => true,
        Field::Voted | Field::Status => p.told,
        Field::Op | Field::Key | Field::Edit => p.command,
        Field::Second => p.command && p.second,
        Field::Entry(i) => p.deps && i < 7,
        Field::Joined => p.joined,
    }
}

pub fn is_word(role: Role) -> bool
    ensures { result ≡ is_word role }
{
    role == Role::Lead
}

pub fn is_reply(role: Role) -> bool
    ensures { result ≡ is_reply role }
{
    role == Role::Reply
}

pub fn is_fresh(ballots: Ballots) -> bool
    ensures { result ≡ is_fresh ballots }
{
    ballots == Ballots::Fresh
}

pub fn is_recovery(ballots: Ballots) -> bool
    ensures { result ≡ is_recovery ballots }
{
    ballots == Ballots::Recovery
}
