// "Commit".
ghost use Rattle.std.specs.Prelude.{◌≡◌};
ghost use Rattle.rules.specs.Commit.{differs, commit};

use nouns::command::same_command;
use nouns::deps::same_deps;
use paper::{Command, Message, Record};
use rules::Step;
use step::committing::committed;
use step::made::{is_committed, silent};

// Different from a stored commit: refusal 10.
#[tactic(auto, unfolding(rules::specs::Commit::differs))]
pub fn differs(r: Record, m: Message, k: Command) -> bool
    ensures { result ≡ differs r m k }
{
    is_committed(r) && !(same_command(k, r.vote.command) && same_deps(m.deps, r.vote.deps))
}

// Equal to a stored commit: nothing; else status 4.
#[tactic(auto, unfolding(rules::specs::Commit::commit))]
pub fn commit(r: Record, m: Message, k: Command) -> Step
    ensures { result ≡ commit r m k }
{
    if is_committed(r) {
        return silent(r);
    }
    silent(committed(r, k, m.deps))
}
