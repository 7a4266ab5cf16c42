// What a message is found to be, by value: a function for each clause of the paper, under the clause's name, and one for each
// group of them, which tries them in their order. A group whose part the kind does not have is passed over.
#![tactic(auto)]

ghost use Rattle.std.specs.Prelude.{◌≡◌};
ghost use Rattle.paper.specs.Message.{row_in, vote_in};
ghost use Rattle.paper.specs.Vote.{voted_below, none_voted, none_op};
ghost use Rattle.paper.specs.Valid.{
  lead_of,
  from_range,
  to_range,
  owner_range,
  number_range,
  ballot_range,
  recovery_ballot,
  to_here,
  from_another,
  from_lead,
  to_lead,
  op_range,
  fresh_op,
  joined_range,
  deps_carried,
  second_carried,
  verdict_on,
};
ghost use Rattle.valid.specs.Groups.{all_carried, head_verdict, way_verdict, told_verdict, command_verdict, highest, entries_verdict, deps_verdict, joined_verdict, body_verdict};

use nouns::ballot::{ballot_ok, lead};
use nouns::command::{edit_ok, is_noop, key_ok, second_ok};
use nouns::deps::{deps_ok, entry_ok, no_deps, same_deps};
use nouns::message::{command_in, is_fresh, is_recovery, is_reply, is_word, joined_in, vote_in};
use paper::{Blame, Field, Message, Row, Vote};

fn lead_of(m: Message) -> usize
    ensures { result ≡ lead_of m }
{
    lead(m.owner as usize, m.ballot)
}

fn from_range(n: usize, m: Message) -> bool
    ensures { result ≡ from_range n m }
{
    (m.from as usize) < n
}

fn to_range(n: usize, m: Message) -> bool
    ensures { result ≡ to_range n m }
{
    (m.to as usize) < n
}

fn owner_range(n: usize, m: Message) -> bool
    ensures { result ≡ owner_range n m }
{
    (m.owner as usize) < n
}

fn number_range(s: usize, m: Message) -> bool
    ensures { result ≡ number_range s m }
{
    1 <= m.number && m.number as usize <= s
}

fn ballot_range(n: usize, m: Message) -> bool
    ensures { result ≡ ballot_range n m }
{
    ballot_ok(n, m.ballot)
}

fn recovery_ballot(w: Row, m: Message) -> bool
    ensures { result ≡ recovery_ballot w m }
{
    !is_recovery(w.ballots) || 8 <= m.ballot
}

fn to_here(c: usize, m: Message) -> bool
    ensures { result ≡ to_here c m }
{
    m.to as usize == c
}

fn from_another(c: usize, m: Message) -> bool
    ensures { result ≡ from_another c m }
{
    m.from as usize != c
}

fn from_lead(w: Row, m: Message) -> bool
    ensures { result ≡ from_lead w m }
{
    !is_word(w.role) || m.from as usize == lead_of(m)
}

fn to_lead(w: Row, m: Message) -> bool
    ensures { result ≡ to_lead w m }
{
    !is_reply(w.role) || m.to as usize == lead_of(m)
}

fn voted_below(m: Message, v: Vote) -> bool
    ensures { result ≡ voted_below m.ballot v }
{
    v.voted < m.ballot
}

fn none_voted(v: Vote) -> bool
    ensures { result ≡ none_voted v }
{
    v.status != 0 || v.voted == 0
}

fn none_op(v: Vote) -> bool
    ensures { result ≡ none_op v }
{
    v.status != 0 || is_noop(v.command)
}

fn op_range(w: Row, o: usize) -> bool
    ensures { result ≡ op_range w.parts.second o }
{
    if w.parts.second { o == 3 } else { o <= 2 }
}

fn fresh_op(w: Row, m: Message, v: Vote) -> bool
    ensures { result ≡ fresh_op w m v }
{
    let fresh = is_fresh(w.ballots) && m.ballot == 0;
    !fresh || !is_noop(v.command)
}

fn joined_range(n: usize, j: u32) -> bool
    ensures { result ≡ joined_range n j }
{
    ballot_ok(n, j)
}

fn deps_carried(w: Row, m: Message) -> bool
    ensures { result ≡ deps_carried w m }
{
    w.parts.deps || same_deps(m.deps, no_deps())
}

fn second_carried(w: Row, m: Message) -> bool
    ensures { result ≡ second_carried w (vote_in m) }
{
    w.parts.second || command_in(m.body).second == 0
}

fn all_carried(w: Row, m: Message) -> bool
    ensures { result ≡ all_carried w m }
{
    deps_carried(w, m) && second_carried(w, m)
}

#[tactic(auto, unfolding(crate::specs::Groups::head_verdict))]
fn head_verdict(n: usize, s: usize, w: Row, m: Message) -> Result<(), Blame>
    ensures { result ≡ head_verdict n s w m }
{
    if !all_carried(w, m) {
        return Err(Blame::Length);
    }
    if !from_range(n, m) {
        return Err(Blame::Of(Field::From));
    }
    if !to_range(n, m) {
        return Err(Blame::Of(Field::To));
    }
    if !owner_range(n, m) {
        return Err(Blame::Of(Field::Owner));
    }
    if !number_range(s, m) {
        return Err(Blame::Of(Field::Number));
    }
    if !(ballot_range(n, m) && recovery_ballot(w, m)) {
        return Err(Blame::Of(Field::Ballot));
    }
    Ok(())
}

#[tactic(auto, unfolding(crate::specs::Groups::way_verdict))]
fn way_verdict(c: usize, w: Row, m: Message) -> Result<(), Blame>
    ensures { result ≡ way_verdict c w m }
{
    if !(to_here(c, m) && from_another(c, m)) {
        return Err(Blame::Way);
    }
    if !(from_lead(w, m) && to_lead(w, m)) {
        return Err(Blame::Lead);
    }
    Ok(())
}

#[tactic(auto, unfolding(crate::specs::Groups::told_verdict))]
fn told_verdict(n: usize, w: Row, m: Message, v: Vote) -> Result<(), Blame>
    ensures { result ≡ told_verdict n w m v }
{
    if !w.parts.told {
        return Ok(());
    }
    if !(ballot_ok(n, v.voted) && voted_below(m, v)) {
        return Err(Blame::Of(Field::Voted));
    }
    if !(v.status <= 3 && none_voted(v)) {
        return Err(Blame::Of(Field::Status));
    }
    Ok(())
}

#[tactic(auto, unfolding(crate::specs::Groups::command_verdict))]
fn command_verdict(w: Row, m: Message, v: Vote) -> Result<(), Blame>
    ensures { result ≡ command_verdict w m v }
{
    if !w.parts.command {
        return Ok(());
    }
    if !(fresh_op(w, m, v) && (!w.parts.told || none_op(v))) {
        return Err(Blame::Of(Field::Op));
    }
    if !key_ok(v.command) {
        return Err(Blame::Of(Field::Key));
    }
    if !second_ok(v.command) {
        return Err(Blame::Of(Field::Second));
    }
    if !edit_ok(v.command) {
        return Err(Blame::Of(Field::Edit));
    }
    Ok(())
}

fn highest(s: usize, w: Row, v: Vote) -> usize
    ensures { result ≡ highest s w v }
{
    if w.parts.told && v.status == 0 { 0 } else { s }
}

// The first entry that is too large; most messages have none, which is asked at once.
fn entries_verdict(n: usize, s: usize, d: [u16; 7]) -> Result<(), Blame>
    ensures { result ≡ entries_verdict n s d 7 0 }
{
    if deps_ok(n, s, d) {
        return Ok(());
    }
    for i in 0..7_u8 {
        if !entry_ok(n, s, i as usize, d[i as usize]) {
            return Err(Blame::Of(Field::Entry(i)));
        }
    }
    Ok(())
}

#[tactic(auto, unfolding(crate::specs::Groups::deps_verdict))]
fn deps_verdict(n: usize, s: usize, w: Row, v: Vote) -> Result<(), Blame>
    ensures { result ≡ deps_verdict n s w v }
{
    if !w.parts.deps {
        return Ok(());
    }
    entries_verdict(n, highest(s, w, v), v.deps)
}

#[tactic(auto, unfolding(crate::specs::Groups::joined_verdict))]
fn joined_verdict(n: usize, w: Row, m: Message, j: u32) -> Result<(), Blame>
    ensures { result ≡ joined_verdict n w m j }
{
    if !w.parts.joined {
        return Ok(());
    }
    if !(joined_range(n, j) && m.ballot < j) {
        return Err(Blame::Of(Field::Joined));
    }
    Ok(())
}

#[tactic(auto, unfolding(crate::specs::Groups::body_verdict))]
fn body_verdict(
    n: usize,
    s: usize,
    w: Row,
    o: usize,
    m: Message,
    v: Vote,
    j: u32,
) -> Result<(), Blame>
    ensures { result ≡ body_verdict n s w o m v j }
{
    told_verdict(n, w, m, v)?;
    if !op_range(w, o) {
        return Err(Blame::Of(Field::Op));
    }
    command_verdict(w, m, v)?;
    deps_verdict(n, s, w, v)?;
    joined_verdict(n, w, m, j)
}

// What the message m, as received by copy c, is found to be; w is the row of its kind, which a reader or writer has already, and o
// the op's number as it stands in the bytes.
pub fn verdict_on(n: usize, s: usize, c: usize, w: Row, o: usize, m: Message) -> Result<(), Blame>
    requires { w ≡ row_in m.body }
    ensures { result ≡ verdict_on n s c o m }
{
    head_verdict(n, s, w, m)?;
    way_verdict(c, w, m)?;
    body_verdict(n, s, w, o, m, vote_in(m), joined_in(m.body))
}
