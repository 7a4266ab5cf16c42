// What every event asks first: 1, 11, then 2.
ghost use Rattle.std.specs.Prelude.{◌≡◌};
ghost use Rattle.gate.specs.Events.{gate_of};

use paper::Refusal;
use table::judge_table;

#[tactic(auto, unfolding(crate::specs::Events::gate_of, table::specs::Calls::judged))]
pub fn gate_of(t: &[u8], n: usize, s: usize, c: usize, room: usize) -> Result<(), Refusal>
    ensures { result ≡ gate_of n s c t.now room }
{
    judge_table(t, n, s, c)?;
    if room < 256 {
        return Err(Refusal::Room);
    }
    Ok(())
}
