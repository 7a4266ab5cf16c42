// The call: refusals in the paper's order, then the message's kind.
ghost use Rattle.std.specs.Prelude.{◌≡◌, length};
ghost use Rattle.paper.specs.Command.{interfere};
ghost use Rattle.gate.specs.Events.{Passed, heard, receive_open, received};
ghost use Rattle.receive.specs.Message.{Hearing};

use crate::by_kind::{receive, refused10};
use gate::Event;
use gate::act::act;
use gate::entrance::gate_of;
use paper::{Message, Refusal};
use table::records::load;
use wire::read_message;

// A valid message.
fn hear(
    t: &mut [u8],
    out: &mut [u8],
    n: usize,
    s: usize,
    c: usize,
    m: Message,
) -> Result<Event, Refusal>
    requires { Hearing n s c t.old (length out.old) m }
    ensures answers { result ≡ (heard interfere n s c t.old out.old m).answer }
    ensures table { t.new ≡ (heard interfere n s c t.old out.old m).table }
    ensures room { out.new ≡ (heard interfere n s c t.old out.old m).out }
{
    let o = m.owner as usize;
    let j = m.number as usize;
    let r = load(&*t, n, s, o, j);
    if refused10(r, m) {
        return Err(Refusal::OtherCommit);
    }
    let x = receive(&*t, n, s, c, r, m);
    act(t, out, n, s, o, j, x)
}

// Past the gate.
#[tactic(auto, unfolding(gate::specs::Events::receive_open))]
fn message_open(
    t: &mut [u8],
    out: &mut [u8],
    n: usize,
    s: usize,
    c: usize,
    b: &[u8],
) -> Result<Event, Refusal>
    requires { Passed n s c t.old (length out.old) }
    ensures answers { result ≡ (receive_open interfere n s c t.old out.old b.now).answer }
    ensures table { t.new ≡ (receive_open interfere n s c t.old out.old b.now).table }
    ensures room { out.new ≡ (receive_open interfere n s c t.old out.old b.now).out }
{
    let m = read_message(n, s, c, b)?;
    hear(t, out, n, s, c, m)
}

#[tactic(auto, unfolding(gate::specs::Events::gated), using(gate::proofs::Calls::passed))]
pub fn message(
    t: &mut [u8],
    n: usize,
    s: usize,
    c: usize,
    out: &mut [u8],
    b: &[u8],
) -> Result<Event, Refusal>
    ensures answers { result ≡ (received n s c t.old out.old b.now).answer }
    ensures table { t.new ≡ (received n s c t.old out.old b.now).table }
    ensures room { out.new ≡ (received n s c t.old out.old b.now).out }
{
    gate_of(&*t, n, s, c, out.len())?;
    message_open(t, out, n, s, c, b)
}
