ghost use Rattle.std.specs.Prelude.{◌≡◌, ◌≤◌};
ghost use Rattle.paper.specs.Setup.{setup_ok, faults};
ghost use Rattle.paper.specs.Instance.{instance_ok};

// All instances of seven copies with 64 numbers each.
pub const INSTANCES: usize = 7 * 64;

#[tactic(auto, unfolding(paper::specs::Setup::setup_ok))]
pub fn setup_ok(n: usize, s: usize, c: usize) -> bool
    ensures { result ≡ setup_ok n s c }
{
    (n == 3 || n == 5 || n == 7) && (1 <= s && s <= 64) && c < n
}

#[tactic(auto, unfolding(paper::specs::Instance::instance_ok))]
pub fn instance_ok(n: usize, s: usize, o: usize, j: usize) -> bool
    ensures { result ≡ instance_ok n s o j }
{
    o < n && 1 <= j && j <= s
}

// F.
pub fn faults(n: usize) -> usize
    requires { 1 ≤ n }
    ensures { result ≡ faults n }
{
    (n - 1) / 2
}
