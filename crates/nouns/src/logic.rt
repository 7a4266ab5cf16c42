// A test of each place.
ghost use Rattle.std.specs.Prelude.{◌≡◌, ℕ, Bool, ◌<◌};
ghost use Rattle.paper.specs.Logic.{all_below};

// A test holds of each number below n.
pub fn all_below<F: Fn(usize) -> bool>(n: usize, test: F) -> bool
    requires { (i : ℕ) → i < n → F.pre test i }
    ensures { (f : ℕ → Bool) → ((i : ℕ) → i < n → (b : Bool) → F.post test i b → b ≡ f i) → result ≡ all_below n f }
{
    let mut all = true;
    for i in 0..n {
        all = test(i) & all;
    }
    all
}
