// What a valid message does to its instance's record, by its kind.
ghost use Rattle.std.specs.Prelude.{◌≡◌, ◌<◌};
ghost use Rattle.rules.specs.PreAccept.{pre_accept};
ghost use Rattle.rules.specs.PrepareOk.{on_prepare_ok, prepared_by};
ghost use Rattle.rules.specs.Received.{receive, refused10};
ghost use Rattle.paper.specs.Command.{interfere};
ghost use Rattle.rules.specs.Seen.{seen};
ghost use Rattle.seen.specs.Records.{records_in};
ghost use Rattle.table.specs.Sizes.{Sizes};
ghost use Rattle.receive.specs.Message.{Ready};

use decide::{afresh_command, decide, quorum};
use follow::accept::accept;
use follow::commit::{commit, differs};
use follow::pre_accept::pre_accept;
use follow::prepare::prepare;
use lead::accept_ok::on_accept_ok;
use lead::nack::nack;
use lead::pre_accept_ok::on_pre_accept_ok;
use nouns::message::{command_in, is_commit, vote_in};
use paper::{Body, Command, Message, Record};
use rules::Step;
use seen::seen;
use step::made::{awaited, collect, silent};

// A Commit that differs from the stored one: refusal 10.
#[tactic(auto, unfolding(rules::specs::Received::conflict))]
pub fn refused10(r: Record, m: Message) -> bool
    ensures { result ≡ refused10 r m }
{
    let body = m.body;
    is_commit(body) && differs(r, m, command_in(body))
}

// Seen of a command for the message's instance.
fn seen_for(t: &[u8], n: usize, s: usize, c: usize, m: Message, k: Command) -> [u16; 7]
    requires { Sizes n s c t.now }
    ensures { result ≡ seen interfere n s (records_in s t.now) m.owner m.number k }
{
    seen(t, n, s, c, m.owner as usize, m.number as usize, k)
}

fn on_proposal(t: &[u8], n: usize, s: usize, c: usize, r: Record, m: Message, k: Command) -> Step
    requires { Ready n s c t.now m }
    ensures { result ≡ pre_accept c m.owner m.number r m k (seen interfere n s (records_in s t.now) m.owner m.number k) }
{
    let seen = seen_for(t, n, s, c, m, k);
    pre_accept(c as u8, m.owner, m.number, r, m, k, seen)
}

// With the reply collected: at F+1 replies, own included, the lead decides.
fn prepared_by(t: &[u8], n: usize, s: usize, c: usize, r: Record, m: Message) -> Step
    requires { Ready n s c t.now m }
    ensures { result ≡ prepared_by n c m.owner m.number r (seen interfere n s (records_in s t.now) m.owner m.number) }
{
    if !quorum(n, r) {
        return silent(r);
    }
    let seen = seen_for(t, n, s, c, m, afresh_command(r));
    decide(n, c as u8, m.owner, m.number, r, seen)
}

fn on_prepare_ok(t: &[u8], n: usize, s: usize, c: usize, r: Record, m: Message) -> Step
    requires { Ready n s c t.now m × (r.set < 128) }
    ensures { result ≡ on_prepare_ok n c m.owner m.number r m (seen interfere n s (records_in s t.now) m.owner m.number) }
{
    if !awaited(1, r, m) {
        return silent(r);
    }
    prepared_by(t, n, s, c, collect(r, m.from, vote_in(m)), m)
}

pub fn receive(t: &[u8], n: usize, s: usize, c: usize, r: Record, m: Message) -> Step
    requires { Ready n s c t.now m × (r.set < 128) }
    ensures { result ≡ receive n c (seen interfere n s (records_in s t.now) m.owner m.number) r m }
{
    let o = m.owner;
    let j = m.number;
    let body = m.body;
    let own = c as u8;
    match body {
        Body::PreAccept(k) => on_proposal(t, n, s, c, r, m, k),
        Body::PreAcceptOk => on_pre_accept_ok(n, own, o, j, r, m),
        Body::Accept(k) => accept(own, o, j, r, m, k),
        Body::AcceptOk => on_accept_ok(n, own, o, j, r, m),
        Body::Commit(k) => commit(r, m, k),
        Body::Prepare => prepare(own, o, j, r, m),
        Body::PrepareOk {
            voted: _,
            status: _,
            command: _,
        } => on_prepare_ok(t, n, s, c, r, m),
        Body::Nack(x) => nack(r, m, x),
    }
}
