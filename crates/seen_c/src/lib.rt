// Seen as C calls it, so that the benchmark can time it by itself; no host does.
#![tactic(auto)]

ghost use Rattle.std.specs.Prelude.{◌≡◌};
ghost use Rattle.paper.specs.Command.{interfere};
ghost use Rattle.codec.specs.Parts.{op_of};
ghost use Rattle.table.specs.Sizes.{Sizes};
ghost use Rattle.rules.specs.Seen.{seen};
ghost use Rattle.seen.specs.Records.{records_in};

#[unsafe(no_mangle)]
pub extern "C" fn seen_alone(
    table: &[u8],
    n: usize,
    s: usize,
    c: usize,
    o: usize,
    j: usize,
    op: u8,
    key: u32,
    second: u32,
    deps: &mut [u16; 7],
)
    requires { Sizes n s c table.now }
    ensures { deps.new ≡ seen interfere n s (records_in s table.now) o j (record { op = op_of op; key = key; second = second; edit = 0 }) }
{
    seen::alone::seen_alone(table, n, s, c, o, j, op, key, second, deps);
}
