// The paper's nouns as types. Their rules are the definitions under specs/; no code stands here.
#![tactic(auto)]

// What a command does.
#[derive(Clone, Copy, Debug, PartialEq, Eq)]
pub enum Op {
    Noop,
    Read,
    Write,
    Rewire,
}

// A rewire is on two objects; any other command has no second key, which is then zero.
#[derive(Clone, Copy, Debug, PartialEq, Eq)]
pub struct Command {
    pub op: Op,
    pub key: u32,
    pub second: u32,
    pub edit: u64,
}

// What a copy voted for: the ballot it voted in, its status there, the command and its dependencies.
// A record holds its copy's own vote; a collected reply is another copy's.
#[derive(Clone, Copy, Debug, PartialEq, Eq)]
pub struct Vote {
    pub voted: u32,
    pub status: u8,
    pub command: Command,
    pub deps: [u16; 7],
}

// The record of one instance.
#[derive(Clone, Copy, Debug, PartialEq, Eq)]
pub struct Record {
    pub joined: u32,
    pub vote: Vote,
    pub mark: u8,
    pub phase: u8,
    pub set: u8,
    pub replies: [Vote; 7],
}

// What messages say. A body that carries a command has two kinds: a long one for a rewire, a short one for all else.
#[derive(Clone, Copy, Debug, PartialEq, Eq)]
pub enum Body {
    PreAccept(Command),
    PreAcceptOk,
    Accept(Command),
    AcceptOk,
    Commit(Command),
    Prepare,
    PrepareOk {
        voted: u32,
        status: u8,
        command: Command,
    },
    Nack(u32),
}

// A message. The dependencies stand beside the body, zero where the body carries none.
#[derive(Clone, Copy, Debug, PartialEq, Eq)]
pub struct Message {
    pub from: u8,
    pub to: u8,
    pub owner: u8,
    pub number: u16,
    pub ballot: u32,
    pub body: Body,
    pub deps: [u16; 7],
}

// What a body carries; zero, and a no-op, where it carries none.
#[derive(Clone, Copy, Debug, PartialEq, Eq)]
pub struct Carried {
    pub voted: u32,
    pub status: u8,
    pub command: Command,
    pub joined: u32,
}

// Who says it: the ballot's lead, one who answers the lead, or any copy.
#[derive(Clone, Copy, Debug, PartialEq, Eq)]
pub enum Role {
    Lead,
    Reply,
    Anyone,
}

// At which ballots it is said: at any; at any, but of no no-op at ballot 0; in recovery alone, from ballot 8 on.
#[derive(Clone, Copy, Debug, PartialEq, Eq)]
pub enum Ballots {
    Any,
    Fresh,
    Recovery,
}

// What stands in the bytes after the head, in this order: voted ballot and status, command, dependencies, joined ballot.
// Whether the command has its second key is said apart.
#[derive(Clone, Copy, Debug, PartialEq, Eq)]
pub struct Parts {
    pub told: bool,
    pub command: bool,
    pub second: bool,
    pub deps: bool,
    pub joined: bool,
}

// A row of the table of bodies.
#[derive(Clone, Copy, Debug, PartialEq, Eq)]
pub struct Row {
    pub known: bool,
    pub role: Role,
    pub ballots: Ballots,
    pub parts: Parts,
}

// The fields of a message after its kind, in the order of the bytes; each entry of the dependencies is one.
#[derive(Clone, Copy, Debug, PartialEq, Eq)]
pub enum Field {
    From,
    To,
    Owner,
    Number,
    Ballot,
    Voted,
    Status,
    Op,
    Key,
    Second,
    Edit,
    Entry(u8),
    Joined,
}

// What is wrong with bytes that are no valid message.
#[derive(Clone, Copy, Debug, PartialEq, Eq)]
pub enum Blame {
    Kind,
    Length,
    Way,
    Lead,
    Of(Field),
}

// Why a call is refused, in the order in which the reasons are tried. A bad field comes with the offset of its first byte.
#[derive(Clone, Copy, Debug, PartialEq, Eq)]
pub enum Refusal {
    Setup,
    Unsound,
    Room,
    UnknownKind,
    WrongLength,
    WrongWay,
    WrongLead,
    WrongField(usize),
    Op,
    Instance,
    RecoverCommitted,
    NudgeIdle,
    BallotsUsedUp,
    NoBlank,
    OtherCommit,
}
