// The settled question, as a public call.
ghost use Rattle.std.specs.Prelude.{◌≡◌};
ghost use Rattle.table.specs.Table.{Judged};
ghost use Rattle.order.specs.Calls.{settled_open, settled};

use crate::Settling;
use nouns::setup::instance_ok;
use paper::Refusal;
use search::{explore, first_open};
use table::judge_table;
use table::records::load;

// Past 1 and 11.
fn settled_open(
    t: &[u8],
    n: usize,
    s: usize,
    c: usize,
    o: usize,
    j: usize,
) -> Result<Settling, Refusal>
    requires { Judged n s c t.now }
    ensures { result ≡ settled_open n s t.now o j }
{
    if !instance_ok(n, s, o, j) {
        return Err(Refusal::Instance);
    }
    let mut m = [0u8; 7];
    explore(t, n, s, o, j, &mut m);
    let found = first_open(t, n, s, o, j, &m);
    if let Some(first) = found {
        return Ok(Settling::Waits(first));
    }
    let r = load(t, n, s, o, j);
    Ok(Settling::Settled(r.vote.command))
}

#[tactic(auto, unfolding(crate::specs::Calls::settled))]
pub fn settled(
    t: &[u8],
    n: usize,
    s: usize,
    c: usize,
    o: usize,
    j: usize,
) -> Result<Settling, Refusal>
    ensures { result ≡ settled n s c t.now o j }
{
    judge_table(t, n, s, c)?;
    settled_open(t, n, s, c, o, j)
}
