// Where messages left and since when copies are down: numbers in a lent list.
ghost use Rattle.std.specs.Prelude.{◌≤◌};

// How long the list is.
pub const MARKS: usize = 3088;

pub fn get(v: &[usize], i: usize) -> usize {
    v.get(i).copied().unwrap_or(0)
}

pub fn set(v: &mut [usize], i: usize, x: usize) {
    if let Some(mark) = v.get_mut(i) {
        *mark = x;
    }
}

// A message's place in the list: the column where it left, then from where and to where.
pub fn place(id: usize) -> usize
    ensures { result ≤ 3085 }
{
    (id % 1024) * 3 + 16
}

// Where the list says whether a copy is down; places 0 to 6 say from where on its line is to be drawn.
pub fn down(c: usize) -> usize {
    if c < 7 { c + 7 } else { 14 }
}

pub fn leave(v: &mut [usize], id: usize, x: usize, from: usize, to: usize) {
    let at = place(id);
    set(&mut *v, at, x);
    set(&mut *v, at + 1, from);
    set(&mut *v, at + 2, to);
}
