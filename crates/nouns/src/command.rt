ghost use Rattle.std.specs.Prelude.{◌≡◌};
ghost use Rattle.paper.specs.Command.{op_number, is_noop, is_write, is_rewire, same_command, key_ok, second_ok, edit_ok, command_ok, touches, same_object, interfere};

use paper::{Command, Op};

pub fn op_number(op: Op) -> usize
    ensures { result ≡ op_number op }
{
    op as usize
}

pub fn is_noop(c: Command) -> bool
    ensures { result ≡ is_noop c }
{
    c.op == Op::Noop
}

pub fn is_write(c: Command) -> bool
    ensures { result ≡ is_write c }
{
    matches!(c.op, Op::Write | Op::Rewire)
}

pub fn is_rewire(c: Command) -> bool
    ensures { result ≡ is_rewire c }
{
    c.op == Op::Rewire
}

#[tactic(auto, unfolding(paper::specs::Command::same_command))]
pub fn same_command(a: Command, b: Command) -> bool
    ensures { result ≡ same_command a b }
{
    a == b
}

pub fn key_ok(c: Command) -> bool
    ensures { result ≡ key_ok c }
{
    !is_noop(c) || c.key == 0
}

pub fn second_ok(c: Command) -> bool
    ensures { result ≡ second_ok c }
{
    if is_rewire(c) {
        c.key < c.second
    } else {
        c.second == 0
    }
}

pub fn edit_ok(c: Command) -> bool
    ensures { result ≡ edit_ok c }
{
    !is_noop(c) || c.edit == 0
}

#[tactic(auto, unfolding(paper::specs::Command::command_ok))]
pub fn command_ok(c: Command) -> bool
    ensures { result ≡ command_ok c }
{
    key_ok(c) && second_ok(c) && edit_ok(c)
}

#[tactic(auto, unfolding(paper::specs::Command::touches))]
fn touches(c: Command, k: u32) -> bool
    ensures { result ≡ touches c k }
{
    c.key == k || is_rewire(c) && c.second == k
}

#[tactic(auto, unfolding(paper::specs::Command::same_object))]
pub fn same_object(a: Command, b: Command) -> bool
    ensures { result ≡ same_object a b }
{
    !is_noop(a) && !is_noop(b) && (touches(b, a.key) || is_rewire(a) && touches(b, a.second))
}

#[tactic(auto, unfolding(paper::specs::Command::interfere))]
pub fn interfere(a: Command, b: Command) -> bool
    ensures { result ≡ interfere a b }
{
    same_object(a, b) && (is_write(a) || is_write(b))
}
