// The search for what interferes, row by row from its end: of each record only what decides is looked at, where it stands.
ghost use Rattle.std.specs.Prelude.{◌≡◌, ◌&&◌, ◌||◌, not, leb, eqb};
ghost use Rattle.paper.specs.Command.{noop, touches, interfere};
ghost use Rattle.table.specs.Sizes.{Sizes, Row, Has};
ghost use Rattle.rules.specs.Seen.{met, seen};
ghost use Rattle.rules.specs.Sets.{highest};
ghost use Rattle.seen.specs.Records.{records_in};
ghost use Rattle.seen.specs.Sought.{asks};

use crate::sought::{Sought, sought_for};
use nouns::command::op_number;
use paper::Command;
use table::records::{key_of, op_of, second_of, status_of};

// The command of p.i is on object a or on object b. Its fields are read one by one, as far as they are asked for.
fn touched(t: &[u8], n: usize, s: usize, p: usize, i: usize, a: u32, b: u32) -> bool
    requires { Has n s p i t.now }
    ensures { result ≡ (touches (records_in s t.now p i).vote.command a || touches (records_in s t.now p i).vote.command b) }
{
    let key = key_of(t, n, s, p, i);
    if key == a || key == b {
        return true;
    }
    if op_number(op_of(t, n, s, p, i)) != 3 {
        return false;
    }
    let second = second_of(t, n, s, p, i);
    second == a || second == b
}

// p.i is not o.j.
fn another(o: usize, j: usize, p: usize, i: usize) -> bool
    ensures { result ≡ not (eqb p o && eqb i j) }
{
    p != o || i != j
}

// p.i has status >= 1 and the command is one that is sought. Nothing else of the record is looked at, and most records are
// passed over by their keys.
fn meets(t: &[u8], n: usize, s: usize, p: usize, i: usize, w: Sought) -> bool
    requires { Has n s p i t.now }
    ensures { result ≡ (leb 1 (records_in s t.now p i).vote.status && asks w noop (records_in s t.now p i).vote.command) }
{
    if !touched(t, n, s, p, i, w.first, w.second) {
        return false;
    }
    if status_of(t, n, s, p, i) == 0 {
        return false;
    }
    w.least <= op_number(op_of(t, n, s, p, i))
}

// The highest number of owner p's row that is met, else 0. Rows may have gaps: only a match ends the walk down.
fn row_seen(t: &[u8], n: usize, s: usize, c: usize, o: usize, j: usize, w: Sought, p: usize) -> u16
    requires { Row n s c p t.now }
    ensures { result ≡ highest s (met (asks w) (records_in s t.now) o j noop p) }
{
    let mut left = s;
    while 0 < left {
        let met = meets(t, n, s, p, left, w);
        let other = another(o, j, p, left);
        if met && other {
            return left as u16;
        }
        left -= 1;
    }
    0
}

// In each row the last vote for a command that interferes with k, leaving out o.j; put where it is wanted.
pub fn put_seen(
    t: &[u8],
    n: usize,
    s: usize,
    c: usize,
    o: usize,
    j: usize,
    k: Command,
    deps: &mut [u16; 7],
)
    requires { Sizes n s c t.now }
    ensures { deps.new ≡ seen interfere n s (records_in s t.now) o j k }
{
    let w = sought_for(k);
    *deps = [0; 7];
    for p in 0..n {
        deps[p] = row_seen(t, n, s, c, o, j, w, p);
    }
}
