// The copies' lines, and what happens on them.
use crate::marks::{down, get, set};
use crate::picture::{LEFT, Picture, draw, line_of, moved, plus, with_run};

// The copy's line up to here, from where it was last drawn to.
fn line_on(p: Picture, v: &[usize], c: usize) {
    if p.n <= c {
        return;
    }
    let at = [get(v, c), line_of(p, c), p.x];
    if get(v, down(c)) == 1 {
        draw(p, b"<path class=\"down\" d=\"M# #H#\"/>", at);
        return;
    }
    draw(p, b"<path class=\"copy\" d=\"M# #H#\"/>", at);
}

// The lines of all copies end.
pub fn end_run(p: Picture, v: &[usize]) {
    for c in 0..7 {
        line_on(p, v, c);
    }
}

fn begin_copy(p: Picture, v: &mut [usize], c: usize) {
    set(v, c, LEFT);
    if p.n <= c {
        return;
    }
    draw(
        p,
        b"<text x=\"10\" y=\"#\" class=\"copyname\">copy #</text>",
        [plus(line_of(p, c), 4), c],
    );
}

pub fn begin_run(p: Picture, n: usize, v: &mut [usize]) -> Picture {
    end_run(p, &*v);
    let q = with_run(p, n);
    v.fill(0);
    for c in 0..7 {
        begin_copy(q, &mut *v, c);
    }
    q
}

// A mark on a copy's line, by its form, and below it the name of the instance.
pub fn mark(p: Picture, c: usize, o: usize, j: usize, form: &[u8]) -> Picture {
    let y = line_of(p, c);
    draw(p, form, [p.x, y]);
    draw(
        p,
        b"<text x=\"#\" y=\"#\" class=\"name\">#.#</text>",
        [p.x, plus(y, 20), o, j],
    );
    p
}

// From here on the copy is down, or goes on.
pub fn turned(p: Picture, c: usize, v: &mut [usize], is_down: usize) -> Picture {
    let q = moved(p, 12);
    line_on(q, &*v, c);
    set(&mut *v, c, q.x);
    set(&mut *v, down(c), is_down);
    q
}

pub fn stop(p: Picture, c: usize, v: &mut [usize]) -> Picture {
    let q = turned(p, c, v, 1);
    draw(
        q,
        b"<path class=\"cut\" d=\"M# #m-7 -7l14 14m-14 0l14 -14\"/>",
        [q.x, line_of(q, c)],
    );
    q
}
