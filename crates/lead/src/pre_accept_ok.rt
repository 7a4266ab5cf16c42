// "PreAcceptOK b".
ghost use Rattle.std.specs.Prelude.{◌≡◌, ◌&&◌, ◌||◌, not, ◌<◌, ◌≤◌};
ghost use Rattle.paper.specs.Logic.{all_below};
ghost use Rattle.paper.specs.Deps.{same_deps};
ghost use Rattle.paper.specs.Vote.{member};
ghost use Rattle.rules.specs.PreAcceptOk.{
  added,
  matching,
  different,
  added_vote,
  fast_enough,
  slow_enough,
  some_enough,
  pre_accepted_by,
  on_pre_accept_ok,
};

use nouns::deps::same_deps;
use nouns::logic::all_below;
use nouns::setup::faults;
use nouns::vote::{count, member, noop};
use paper::{Message, Record, Vote};
use rules::Step;
use sets::those;
use step::accepting::accepting_join;
use step::committing::committing;
use step::made::{awaited, collect, silent};

// The dependencies that copy q replied.
fn added(r: &Record, q: usize) -> [u16; 7]
    requires { q < 7 }
    ensures { result ≡ added r.now q }
{
    r.replies[q].deps
}

// The replies equal to what was sent.
#[tactic(auto, unfolding(rules::specs::PreAcceptOk::matching))]
fn matching(r: Record) -> u8
    ensures { result ≡ matching r }
{
    those(|q| member(q, r.set) && same_deps(added(&r, q), r.vote.deps))
}

fn agree(r: &Record, p: usize, q: usize) -> bool
    requires { (p < 7) × (q < 7) }
    ensures { result ≡ (not (member p r.now.set && member q r.now.set) || same_deps (added r.now p) (added r.now q)) }
{
    !(member(p, r.set) && member(q, r.set)) || same_deps(added(r, p), added(r, q))
}

// The reply of copy p agrees with every other.
fn agrees(r: &Record, p: usize) -> bool
    requires { p < 7 }
    ensures { result ≡ all_below 7 (λ q. not (member p r.now.set && member q r.now.set) || same_deps (added r.now p) (added r.now q)) }
{
    all_below(7, |q| agree(r, p, q))
}

// Two replies are different.
#[tactic(auto, unfolding(rules::specs::PreAcceptOk::different))]
fn different(r: Record) -> bool
    ensures { result ≡ different r }
{
    !all_below(7, |p| agrees(&r, p))
}

// At 2F-1 replies equal to what was sent.
#[tactic(auto, unfolding(rules::specs::PreAcceptOk::fast_enough))]
fn fast_enough(n: usize, r: Record) -> bool
    requires { (3 ≤ n) × (n ≤ 7) }
    ensures { result ≡ fast_enough n r }
{
    2 * faults(n) - 1 <= count(matching(r))
}

// The fast path is lost: F copies answered and two of them disagree, or all did.
#[tactic(auto, unfolding(rules::specs::PreAcceptOk::slow_enough))]
fn slow_enough(n: usize, r: Record) -> bool
    requires { (3 ≤ n) × (n ≤ 7) }
    ensures { result ≡ slow_enough n r }
{
    let f = faults(n);
    let replied = count(r.set);
    f <= replied && different(r) || 2 * f <= replied
}

// At F replies.
#[tactic(auto, unfolding(rules::specs::PreAcceptOk::some_enough))]
pub fn some_enough(n: usize, r: Record) -> bool
    requires { 3 ≤ n }
    ensures { result ≡ some_enough n r }
{
    faults(n) <= count(r.set)
}

// With the reply collected.
#[tactic(auto, unfolding(rules::specs::PreAcceptOk::pre_accepted_by))]
fn pre_accepted_by(n: usize, c: u8, o: u8, j: u16, r: Record) -> Step
    requires { (3 ≤ n) × (n ≤ 7) }
    ensures { result ≡ pre_accepted_by n c o j r }
{
    if r.joined == 0 {
        if fast_enough(n, r) {
            return committing(n, c, o, j, r);
        }
        if slow_enough(n, r) {
            return accepting_join(n, c, o, j, r);
        }
        return silent(r);
    }
    if some_enough(n, r) {
        return accepting_join(n, c, o, j, r);
    }
    silent(r)
}

fn added_vote(d: [u16; 7]) -> Vote
    ensures { result ≡ added_vote d }
{
    Vote {
        voted: 0,
        status: 0,
        command: noop(),
        deps: d,
    }
}

#[tactic(auto, unfolding(rules::specs::PreAcceptOk::on_pre_accept_ok))]
pub fn on_pre_accept_ok(n: usize, c: u8, o: u8, j: u16, r: Record, m: Message) -> Step
    requires { (3 ≤ n) × (n ≤ 7) × (m.from < 7) × (r.set < 128) }
    ensures { result ≡ on_pre_accept_ok n c o j r m }
{
    if !awaited(2, r, m) {
        return silent(r);
    }
    let v = added_vote(m.deps);
    pre_accepted_by(n, c, o, j, collect(r, m.from, v))
}
