// What is asked of each record for one command, worked out once for all of them.
ghost use Rattle.std.specs.Prelude.{◌≡◌};
ghost use Rattle.seen.specs.Sought.{least_op, sought_for};

use nouns::command::is_rewire;
use paper::{Command, Op};

// Two objects, one of them twice where the command is on one, and the least op that interferes with it there.
#[derive(Clone, Copy)]
pub struct Sought {
    pub first: u32,
    pub second: u32,
    pub least: usize,
}

// Every edit interferes with a write, and with a read those that write; nothing does with a no-op.
fn least_op(op: Op) -> usize
    ensures { result ≡ least_op op }
{
    match op {
        Op::Noop => 4,
        Op::Read => 2,
        Op::Write => 1,
        Op::Rewire => 1,
    }
}

pub fn sought_for(k: Command) -> Sought
    ensures { result ≡ sought_for k }
{
    let op = k.op;
    let least = least_op(op);
    if is_rewire(k) {
        return Sought {
            first: k.key,
            second: k.second,
            least,
        };
    }
    Sought {
        first: k.key,
        second: k.key,
        least,
    }
}
