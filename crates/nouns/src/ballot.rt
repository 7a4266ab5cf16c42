ghost use Rattle.std.specs.Prelude.{◌≡◌};
ghost use Rattle.paper.specs.Ballot.{ballot_ok, lead};

#[tactic(auto, unfolding(paper::specs::Ballot::ballot_ok))]
pub fn ballot_ok(n: usize, b: u32) -> bool
    ensures { result ≡ ballot_ok n b }
{
    let x = b as usize;
    x == 0 || 8 <= x && x % 8 < n
}

#[tactic(auto, unfolding(paper::specs::Ballot::lead))]
pub fn lead(o: usize, b: u32) -> usize
    ensures { result ≡ lead o b }
{
    let x = b as usize;
    if x == 0 { o } else { x % 8 }
}
