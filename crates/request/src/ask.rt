// The call: refusals in the paper's order, then the step.
ghost use Rattle.std.specs.Prelude.{◌≡◌, ◌≤◌, length};
ghost use Rattle.paper.specs.Vote.{blank};
ghost use Rattle.paper.specs.Command.{interfere};
ghost use Rattle.rules.specs.Events.{request_number, on_request};
ghost use Rattle.table.specs.Sizes.{Sizes};
ghost use Rattle.seen.specs.Records.{records_in};
ghost use Rattle.gate.specs.Events.{Passed, asked, request_open, requested};
ghost use Rattle.request.specs.Request.{Asking};

use crate::lowest::request_number;
use codec::op_of;
use gate::Event;
use gate::act::act;
use gate::entrance::gate_of;
use nouns::command::second_ok;
use nouns::vote::no_vote;
use paper::{Command, Record, Refusal};
use rules::Step;
use seen::seen;
use step::afresh::afresh;
use step::made::begun;

fn blank() -> Record
    ensures { result ≡ blank }
{
    begun(0, no_vote(), 0, 0)
}

fn on_request(t: &[u8], n: usize, s: usize, c: usize, j: usize, k: Command) -> Step
    requires { Sizes n s c t.now × (j ≤ s) × (j ≡ request_number s c (records_in s t.now)) }
    ensures { result ≡ on_request interfere n s c (records_in s t.now) k }
{
    let seen = seen(t, n, s, c, c, j, k);
    let own = c as u8;
    afresh(n, own, own, j as u16, blank(), k, seen)
}

// A command that is taken: 5, then the step.
fn ask(
    t: &mut [u8],
    out: &mut [u8],
    n: usize,
    s: usize,
    c: usize,
    k: Command,
) -> Result<Event, Refusal>
    requires { Asking n s c t.old (length out.old) k }
    ensures answers { result ≡ (asked interfere n s c t.old out.old k).answer }
    ensures table { t.new ≡ (asked interfere n s c t.old out.old k).table }
    ensures room { out.new ≡ (asked interfere n s c t.old out.old k).out }
{
    let j = request_number(&*t, n, s, c);
    if s < j {
        return Err(Refusal::NoBlank);
    }
    let x = on_request(&*t, n, s, c, j, k);
    act(t, out, n, s, c, j, x)
}

// Past the gate.
#[tactic(auto, unfolding(gate::specs::Events::request_open))]
fn request_open(
    t: &mut [u8],
    out: &mut [u8],
    n: usize,
    s: usize,
    c: usize,
    op: usize,
    key: u32,
    second: u32,
    edit: u64,
) -> Result<Event, Refusal>
    requires { Passed n s c t.old (length out.old) }
    ensures answers { result ≡ (request_open n s c t.old out.old op key second edit).answer }
    ensures table { t.new ≡ (request_open n s c t.old out.old op key second edit).table }
    ensures room { out.new ≡ (request_open n s c t.old out.old op key second edit).out }
{
    if op < 1 || 3 < op {
        return Err(Refusal::Op);
    }
    let k = Command {
        op: op_of(op as u8),
        key,
        second,
        edit,
    };
    if !second_ok(k) {
        return Err(Refusal::Op);
    }
    ask(t, out, n, s, c, k)
}

#[tactic(auto, unfolding(gate::specs::Events::gated), using(gate::proofs::Calls::passed))]
pub fn request(
    t: &mut [u8],
    n: usize,
    s: usize,
    c: usize,
    out: &mut [u8],
    op: usize,
    key: u32,
    second: u32,
    edit: u64,
) -> Result<Event, Refusal>
    ensures answers { result ≡ (requested n s c t.old out.old op key second edit).answer }
    ensures table { t.new ≡ (requested n s c t.old out.old op key second edit).table }
    ensures room { out.new ≡ (requested n s c t.old out.old op key second edit).out }
{
    gate_of(&*t, n, s, c, out.len())?;
    request_open(t, out, n, s, c, op, key, second, edit)
}
