// Lists with a row of seven marks for each instance: which part of each owner's row an instance reaches.
#![tactic(auto)]

ghost use Rattle.std.specs.Prelude.{◌≡◌, ◌≤◌, ◌<◌};
ghost use Rattle.rows.specs.Rows.{slot_of, marks_at, mark_at, put_row, Within};

// The place of o.j: 64 to an owner.
pub fn slot_of(o: usize, j: usize) -> usize
    requires { (o < 7) × (1 ≤ j) × (j ≤ 64) }
    ensures { (result ≡ slot_of o j) × (result < 448) }
{
    64 * o + (j - 1)
}

pub fn marks_at(h: &[u8], x: usize) -> [u16; 7]
    requires { Within h.now x }
    ensures { result ≡ marks_at h.now x }
{
    codec::read_deps(h, 14 * x)
}

// The mark of owner o at a place: its row up to there is reached.
pub fn mark_at(h: &[u8], x: usize, o: usize) -> usize
    requires { Within h.now x × (o < 7) }
    ensures { result ≡ mark_at h.now x o }
{
    numbers::get::<u16>(h, 14 * x + 2 * o) as usize
}

pub fn put_row(h: &mut [u8], x: usize, d: [u16; 7])
    requires { Within h.old x }
    ensures { h.new ≡ put_row h.old x d }
{
    codec::write_deps(h, 14 * x, d);
}
