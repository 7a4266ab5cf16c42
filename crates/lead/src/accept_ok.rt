// "AcceptOK b".
ghost use Rattle.std.specs.Prelude.{◌≡◌, ◌<◌, ◌≤◌};
ghost use Rattle.rules.specs.AcceptOk.{accepted_by, on_accept_ok};

use crate::pre_accept_ok::some_enough;
use nouns::vote::no_vote;
use paper::{Message, Record};
use rules::Step;
use step::committing::committing;
use step::made::{awaited, collect, silent};

// With the reply collected: at F, commit.
#[tactic(auto, unfolding(rules::specs::AcceptOk::accepted_by))]
fn accepted_by(n: usize, c: u8, o: u8, j: u16, r: Record) -> Step
    requires { 3 ≤ n }
    ensures { result ≡ accepted_by n c o j r }
{
    if some_enough(n, r) {
        committing(n, c, o, j, r)
    } else {
        silent(r)
    }
}

#[tactic(auto, unfolding(rules::specs::AcceptOk::on_accept_ok))]
pub fn on_accept_ok(n: usize, c: u8, o: u8, j: u16, r: Record, m: Message) -> Step
    requires { (3 ≤ n) × (m.from < 7) × (r.set < 128) }
    ensures { result ≡ on_accept_ok n c o j r m }
{
    if !awaited(3, r, m) {
        return silent(r);
    }
    accepted_by(n, c, o, j, collect(r, m.from, no_vote()))
}
