// Sets of copies as bits, by value: each function is the definition of its name in rules/specs/Sets.
#![tactic(auto)]

ghost use Rattle.std.specs.Prelude.{◌≡◌, ℕ, Bool, ◌^◌, ◌≤◌, ◌<◌};
ghost use Rattle.paper.specs.Vote.{member};
ghost use Rattle.rules.specs.Sets.{those, others, absent, with, lowest};

use nouns::vote::member;

// The places at which a test holds.
pub fn those<F: Fn(usize) -> bool>(test: F) -> u8
    requires { (q : ℕ) → q < 7 → F.pre test q }
    ensures { (f : ℕ → Bool) → ((q : ℕ) → q < 7 → (b : Bool) → F.post test q b → b ≡ f q) → result ≡ those f }
{
    let mut set = 0;
    for q in 0..7 {
        if test(q as usize) {
            set = with(set, q);
        }
    }
    set
}

// The lowest member of a set, 7 where there is none.
#[tactic(auto, using(crate::proofs::Laws::lowest_one))]
pub fn lowest(m: u8) -> usize
    ensures { result ≡ lowest (λ q. member q m) }
{
    usize::min(m.trailing_zeros() as usize, 7)
}

// Copy q alone.
pub fn only_of(q: u8) -> u8
    requires { q < 7 }
    ensures { (result ≡ 2 ^ q) × (result ≤ 64) }
{
    1 << q
}

// The set m, which copy q has joined.
pub fn with(m: u8, q: u8) -> u8
    requires { (q < 7) × (m < 128) }
    ensures { result ≡ with m q }
{
    m + only_of(q)
}

// All copies but this one.
#[tactic(auto, unfolding(rules::specs::Sets::others))]
pub fn others(n: usize, c: usize) -> u8
    ensures { result ≡ others n c }
{
    those(|q| q < n && q != c)
}

// All copies but this one and those in m.
#[tactic(auto, unfolding(rules::specs::Sets::absent))]
pub fn absent(n: usize, c: usize, m: u8) -> u8
    ensures { result ≡ absent n c m }
{
    those(|q| q < n && q != c && !member(q, m))
}
