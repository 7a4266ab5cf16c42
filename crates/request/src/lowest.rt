// The lowest blank own number.
ghost use Rattle.std.specs.Prelude.{◌≡◌, ◌≤◌};
ghost use Rattle.rules.specs.Events.{request_number};
ghost use Rattle.seen.specs.Records.{records_in};
ghost use Rattle.table.specs.Sizes.{Has};
ghost use Rattle.request.specs.Request.{is_untouched};
ghost use Rattle.table.specs.Table.{Judged};

use table::records::{joined_of, phase_of, status_of};

// No ballot joined, no vote, no phase: in a sound table that is a blank record.
#[tactic(auto, unfolding(crate::specs::Request::is_untouched))]
fn is_untouched(t: &[u8], n: usize, s: usize, o: usize, j: usize) -> bool
    requires { Has n s o j t.now }
    ensures { result ≡ is_untouched (records_in s t.now o j) }
{
    joined_of(t, n, s, o, j) == 0 && status_of(t, n, s, o, j) == 0 && phase_of(t, n, s, o, j) == 0
}

// The lowest blank own number; above S where none is blank.
pub fn request_number(t: &[u8], n: usize, s: usize, c: usize) -> usize
    requires { Judged n s c t.now }
    ensures { (result ≡ request_number s c (records_in s t.now)) × (1 ≤ result) }
{
    for j in 1..s + 1 {
        if is_untouched(t, n, s, c, j) {
            return j;
        }
    }
    s + 1
}
