// What every event's result is made of.
ghost use Rattle.std.specs.Prelude.{◌≡◌, ◌<◌};
ghost use Rattle.paper.specs.Message.{no_message};
ghost use Rattle.rules.specs.Step.{is_committed, begun, say, silent, collect, awaited, commit_back, nack_back};

use nouns::deps::no_deps;
use nouns::vote::{member, no_vote};
use paper::{Body, Message, Record, Vote};
use rules::Step;
use sets::{only_of, with};

pub fn is_committed(r: Record) -> bool
    ensures { result ≡ is_committed r }
{
    r.vote.status == 4
}

pub fn say(c: u8, o: u8, j: u16, b: u32, body: Body, d: [u16; 7]) -> Message
    ensures { result ≡ say c o j b body d }
{
    Message {
        from: c,
        to: 0,
        owner: o,
        number: j,
        ballot: b,
        body,
        deps: d,
    }
}

pub fn no_message() -> Message
    ensures { result ≡ no_message }
{
    let deps = no_deps();
    Message {
        from: 0,
        to: 0,
        owner: 0,
        number: 0,
        ballot: 0,
        body: Body::Prepare,
        deps,
    }
}

// Nothing is sent.
pub fn silent(r: Record) -> Step
    ensures { result ≡ silent r }
{
    Step {
        entry: r,
        to: 0,
        message: no_message(),
    }
}

// A record in phase p with nothing collected.
pub fn begun(b: u32, v: Vote, k: u8, p: u8) -> Record
    ensures { result ≡ begun b v k p }
{
    let replies = [no_vote(); 7];
    Record {
        joined: b,
        vote: v,
        mark: k,
        phase: p,
        set: 0,
        replies,
    }
}

// Whether a reply is looked at: its phase, its ballot, and once from each copy.
#[tactic(auto, unfolding(rules::specs::Step::awaited))]
pub fn awaited(p: usize, r: Record, m: Message) -> bool
    requires { m.from < 7 }
    ensures { result ≡ awaited p r m }
{
    r.phase as usize == p && r.joined == m.ballot && !member(m.from as usize, r.set)
}

// The record with the reply v of copy q collected.
#[tactic(auto, unfolding(rules::specs::Step::collect))]
pub fn collect(r: Record, q: u8, v: Vote) -> Record
    requires { (q < 7) × (r.set < 128) }
    ensures { result ≡ collect r q v }
{
    let mut replies = r.replies;
    replies[q as usize] = v;
    Record {
        set: with(r.set, q),
        replies,
        ..r
    }
}

// Committed: Commit goes back, at the joined ballot.
#[tactic(auto, unfolding(rules::specs::Step::commit_back))]
pub fn commit_back(c: u8, o: u8, j: u16, r: Record, q: u8) -> Step
    requires { q < 7 }
    ensures { result ≡ commit_back c o j r q }
{
    let Vote { command, deps, .. } = r.vote;
    let message = say(c, o, j, r.joined, Body::Commit(command), deps);
    Step {
        entry: r,
        to: only_of(q),
        message,
    }
}

// A lower ballot than the joined one is answered Nack.
#[tactic(auto, unfolding(rules::specs::Step::nack_back))]
pub fn nack_back(c: u8, o: u8, j: u16, r: Record, m: Message) -> Step
    requires { m.from < 7 }
    ensures { result ≡ nack_back c o j r m }
{
    let message = say(c, o, j, m.ballot, Body::Nack(r.joined), no_deps());
    Step {
        entry: r,
        to: only_of(m.from),
        message,
    }
}
