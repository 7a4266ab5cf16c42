// "Seen(c, I)" over the table's bytes: in each owner's row the highest vote that interferes.
#![tactic(auto)]

ghost use Rattle.std.specs.Prelude.{◌≡◌};
ghost use Rattle.paper.specs.Command.{interfere};
ghost use Rattle.table.specs.Sizes.{Sizes};
ghost use Rattle.rules.specs.Seen.{seen};
ghost use Rattle.seen.specs.Records.{records_in};

use crate::walk::put_seen;
use paper::Command;

pub mod alone;
pub mod sought;
mod walk;

pub fn seen(t: &[u8], n: usize, s: usize, c: usize, o: usize, j: usize, k: Command) -> [u16; 7]
    requires { Sizes n s c t.now }
    ensures { result ≡ seen interfere n s (records_in s t.now) o j k }
{
    let mut deps = [0; 7];
    put_seen(t, n, s, c, o, j, k, &mut deps);
    deps
}
