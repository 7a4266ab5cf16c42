// A command, dependencies and a vote in lent bytes, at an offset.
#![tactic(auto)]

ghost use Rattle.std.specs.Prelude.{◌≡◌, ◌+◌, ◌≤◌, length};
ghost use Rattle.numbers.specs.Num.{splice};
ghost use Rattle.paper.specs.Command.{op_number};
ghost use Rattle.numbers.specs.Fields.{size_of};
ghost use Rattle.codec.specs.Parts.{op_of, short_op_of, sent_widths, command_at, sent_at, deps_at, vote_at, command_bytes, sent_bytes, deps_bytes, vote_bytes};

use paper::{Command, Op, Vote};

// Widths of the fields, and of what is made of them.
pub const OP: usize = 1;

pub const KEY: usize = 4;

pub const EDIT: usize = 8;

pub const COMMAND: usize = OP + KEY + KEY + EDIT;

pub const ENTRY: usize = 2;

pub const DEPS: usize = 7 * ENTRY;

pub const BALLOT: usize = 4;

pub const STATUS: usize = 1;

pub const VOTE: usize = BALLOT + STATUS + COMMAND + DEPS;

// Where a part stands in a command, and in a vote.
pub const SECOND_AT: usize = OP + KEY;

pub const EDIT_AT: usize = SECOND_AT + KEY;

pub const COMMAND_AT: usize = BALLOT + STATUS;

pub const DEPS_AT: usize = COMMAND_AT + COMMAND;

pub fn op_of(b: u8) -> Op
    ensures { result ≡ op_of b }
{
    match b {
        0 => Op::Noop,
        1 => Op::Read,
        2 => Op::Write,
        _ => Op::Rewire,
    }
}

fn short_op_of(b: u8) -> Op
    ensures { result ≡ short_op_of b }
{
    match b {
        0 => Op::Noop,
        1 => Op::Read,
        _ => Op::Write,
    }
}

pub fn op_byte(op: Op) -> u8
    ensures { result ≡ op_number op }
{
    op as u8
}

pub fn read_command(s: &[u8], at: usize) -> Command
    requires { at + 17 ≤ length s.now }
    ensures { result ≡ command_at s.now at }
{
    Command {
        op: op_of(numbers::get(s, at)),
        key: numbers::get(s, at + OP),
        second: numbers::get(s, at + SECOND_AT),
        edit: numbers::get(s, at + EDIT_AT),
    }
}

// A command in a message, with its second key or without.
pub fn read_sent(s: &[u8], at: usize, second: bool) -> Command
    requires { at + size_of (sent_widths second) ≤ length s.now }
    ensures { result ≡ sent_at second s.now at }
{
    if second {
        return Command {
            op: Op::Rewire,
            ..read_command(s, at)
        };
    }
    Command {
        op: short_op_of(numbers::get(s, at)),
        key: numbers::get(s, at + OP),
        second: 0,
        edit: numbers::get(s, at + SECOND_AT),
    }
}

// Written out: by a closure for each entry, a record read and written takes an eighth longer.
pub fn read_deps(s: &[u8], at: usize) -> [u16; 7]
    requires { at + 14 ≤ length s.now }
    ensures { result ≡ deps_at s.now at }
{
    [
        numbers::get(s, at),
        numbers::get(s, at + ENTRY),
        numbers::get(s, at + 2 * ENTRY),
        numbers::get(s, at + 3 * ENTRY),
        numbers::get(s, at + 4 * ENTRY),
        numbers::get(s, at + 5 * ENTRY),
        numbers::get(s, at + 6 * ENTRY),
    ]
}

pub fn read_vote(s: &[u8], at: usize) -> Vote
    requires { at + 36 ≤ length s.now }
    ensures { result ≡ vote_at s.now at }
{
    Vote {
        voted: numbers::get(s, at),
        status: numbers::get(s, at + BALLOT),
        command: read_command(s, at + COMMAND_AT),
        deps: read_deps(s, at + DEPS_AT),
    }
}

pub fn write_command(s: &mut [u8], at: usize, c: Command)
    requires { at + 17 ≤ length s.old }
    ensures { s.new ≡ splice s.old at (command_bytes c) }
{
    numbers::put(s, at, op_byte(c.op));
    numbers::put(s, at + OP, c.key);
    numbers::put(s, at + SECOND_AT, c.second);
    numbers::put(s, at + EDIT_AT, c.edit);
}

pub fn write_sent(s: &mut [u8], at: usize, second: bool, c: Command)
    requires { at + size_of (sent_widths second) ≤ length s.old }
    ensures { s.new ≡ splice s.old at (sent_bytes second c) }
{
    if second {
        write_command(s, at, c);
        return;
    }
    numbers::put(s, at, op_byte(c.op));
    numbers::put(s, at + OP, c.key);
    numbers::put(s, at + SECOND_AT, c.edit);
}

pub fn write_deps(s: &mut [u8], at: usize, d: [u16; 7])
    requires { at + 14 ≤ length s.old }
    ensures { s.new ≡ splice s.old at (deps_bytes d) }
{
    for i in 0..7 {
        numbers::put(s, at + ENTRY * i, d[i]);
    }
}

pub fn write_vote(s: &mut [u8], at: usize, v: Vote)
    requires { at + 36 ≤ length s.old }
    ensures { s.new ≡ splice s.old at (vote_bytes v) }
{
    numbers::put(s, at, v.voted);
    numbers::put(s, at + BALLOT, v.status);
    write_command(s, at + COMMAND_AT, v.command);
    write_deps(s, at + DEPS_AT, v.deps);
}
