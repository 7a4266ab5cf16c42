// "Nudge I", as a public call.
#![tactic(auto)]

ghost use Rattle.std.specs.Prelude.{◌≡◌, length};
ghost use Rattle.gate.specs.Events.{Passed, nudge_open, nudged};

use gate::Event;
use gate::act::act;
use gate::entrance::gate_of;
use nouns::setup::instance_ok;
use paper::Refusal;
use step::made::is_committed;
use table::records::load;

// Past the gate.
#[tactic(auto, unfolding(gate::specs::Events::nudge_open, gate::specs::Events::acted))]
fn nudge_open(
    t: &mut [u8],
    out: &mut [u8],
    n: usize,
    s: usize,
    c: usize,
    o: usize,
    j: usize,
) -> Result<Event, Refusal>
    requires { Passed n s c t.old (length out.old) }
    ensures answers { result ≡ (nudge_open n s c t.old out.old o j).answer }
    ensures table { t.new ≡ (nudge_open n s c t.old out.old o j).table }
    ensures room { out.new ≡ (nudge_open n s c t.old out.old o j).out }
{
    if !instance_ok(n, s, o, j) {
        return Err(Refusal::Instance);
    }
    let r = load(&*t, n, s, o, j);
    if !is_committed(r) && r.phase == 0 {
        return Err(Refusal::NudgeIdle);
    }
    let x = lead::again::nudge(n, c as u8, o as u8, j as u16, r);
    act(t, out, n, s, o, j, x)
}

#[tactic(auto, unfolding(gate::specs::Events::gated), using(gate::proofs::Calls::passed))]
pub fn nudge(
    t: &mut [u8],
    n: usize,
    s: usize,
    c: usize,
    out: &mut [u8],
    o: usize,
    j: usize,
) -> Result<Event, Refusal>
    ensures answers { result ≡ (nudged n s c t.old out.old o j).answer }
    ensures table { t.new ≡ (nudged n s c t.old out.old o j).table }
    ensures room { out.new ≡ (nudged n s c t.old out.old o j).out }
{
    gate_of(&*t, n, s, c, out.len())?;
    nudge_open(t, out, n, s, c, o, j)
}
