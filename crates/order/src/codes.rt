// Codes of the hand-out list: made of an instance, and taken apart again.
ghost use Rattle.std.specs.Prelude.{◌≡◌, ◌≤◌, ◌<◌};
ghost use Rattle.rules.specs.Order.{code_of, instance_of};

pub fn code_of(o: usize, j: usize) -> u16
    requires { (o < 7) × (j ≤ 64) }
    ensures { result ≡ code_of o j }
{
    (256 * o + j) as u16
}

pub fn owner_of(code: u16) -> usize
    ensures { result ≡ (instance_of code).0 }
{
    usize::from(code) / 256
}

pub fn number_of(code: u16) -> usize
    ensures { result ≡ (instance_of code).1 }
{
    usize::from(code) % 256
}
