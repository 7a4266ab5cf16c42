// Where the pen is: the columns go right with what happens, the copies' lines stand one below the other.
use text::put::{empty, finish, put_form};

// The copies of the run that is drawn, the column, where the run begins, and how wide and high all is so far.
// While it is only measured, nothing is written.
#[derive(Clone, Copy)]
pub struct Picture {
    pub n: usize,
    pub x: usize,
    pub top: usize,
    pub wide: usize,
    pub high: usize,
    pub writes: bool,
}

pub const LEFT: usize = 70;

const FAR: usize = 1000000;

// The width of the legend.
const KEY: usize = 460;

// Before the first run: as wide and high as was measured, and never narrower than the legend.
pub fn blank(writes: bool, wide: usize, high: usize) -> Picture {
    Picture {
        n: 0,
        x: LEFT,
        top: 0,
        wide: wide.max(KEY),
        high,
        writes,
    }
}

// A number that stays in range.
pub fn plus(a: usize, b: usize) -> usize {
    if FAR < a || FAR < b { FAR } else { a + b }
}

// The pen moves right.
pub fn moved(p: Picture, by: usize) -> Picture {
    let x = plus(p.x, by);
    Picture {
        x,
        wide: p.wide.max(plus(x, 40)),
        ..p
    }
}

// The height of n lines.
fn lines(n: usize) -> usize {
    if 7 < n { 840 } else { n * 120 }
}

// A run of n copies begins below the last one.
pub fn with_run(p: Picture, n: usize) -> Picture {
    let top = plus(p.top, lines(p.n));
    Picture {
        n,
        x: LEFT,
        top,
        high: plus(top, lines(n)),
        ..p
    }
}

// The height of a copy's line.
pub fn line_of(p: Picture, c: usize) -> usize {
    plus(plus(p.top, lines(c)), 45)
}

// Draws a part by its form, with the numbers in it.
pub fn draw<const K: usize>(p: Picture, form: &[u8], v: [usize; K]) {
    if p.writes {
        finish(put_form(empty(), form, v));
    }
}
