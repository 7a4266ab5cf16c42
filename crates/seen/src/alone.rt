// Seen with a command as C passes it, for `seen_c`. The edit's number decides nothing and is left out.
ghost use Rattle.std.specs.Prelude.{◌≡◌};
ghost use Rattle.paper.specs.Command.{interfere};
ghost use Rattle.codec.specs.Parts.{op_of};
ghost use Rattle.table.specs.Sizes.{Sizes};
ghost use Rattle.rules.specs.Seen.{seen};
ghost use Rattle.seen.specs.Records.{records_in};

use crate::walk::put_seen;
use codec::op_of;
use paper::Command;

pub fn seen_alone(
    table: &[u8],
    n: usize,
    s: usize,
    c: usize,
    o: usize,
    j: usize,
    op: u8,
    key: u32,
    second: u32,
    deps: &mut [u16; 7],
)
    requires { Sizes n s c table.now }
    ensures { deps.new ≡ seen interfere n s (records_in s table.now) o j (record { op = op_of op; key = key; second = second; edit = 0 }) }
{
    let taken = op_of(op);
    let k = Command {
        op: taken,
        key,
        second,
        edit: 0,
    };
    put_seen(table, n, s, c, o, j, k, deps);
}
