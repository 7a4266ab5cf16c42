// Draws what a line of a played script says.
use crate::copies::{begin_run, mark, stop, turned};
use crate::messages::{arrive, depart, lose};
use crate::picture::{Picture, moved};
use text::forms::{NUMBERS, which_form};

// What happens at a copy.
#[derive(Clone, Copy, Debug, PartialEq, Eq)]
enum AtCopy {
    HandsOut,
    Commits,
    GoesOn,
    Stops,
}

// What a line says: a run begins, something becomes of a message, or something happens at a copy.
#[derive(Clone, Copy, Debug, PartialEq, Eq)]
enum Line {
    Begins,
    Leaves,
    Arrives,
    IsLost,
    At(AtCopy),
}

const FORMS: [(Line, &[u8]); 12] = [
    (Line::Begins, b"copies #, numbers #"),
    (Line::Leaves, b"  message # leaves # for #:*"),
    (Line::Arrives, b"  message # arrives at #:*"),
    (Line::IsLost, b"  message # is lost on the way"),
    (Line::IsLost, b"  message # is lost:*"),
    (Line::At(AtCopy::HandsOut), b"  copy # hands out #.#:*"),
    (Line::At(AtCopy::Commits), b"  copy # saves #.#: committed*"),
    (
        Line::At(AtCopy::GoesOn),
        b"  copy # goes on with what it saved",
    ),
    (Line::At(AtCopy::Stops), b"  copy # stops"),
    (
        Line::At(AtCopy::Stops),
        b"  copy # is cut off before it saves #.#",
    ),
    (
        Line::At(AtCopy::Stops),
        b"  copy # is cut off before it sends",
    ),
    (
        Line::At(AtCopy::Stops),
        b"  copy # is cut off after # of # marks are saved",
    ),
];

fn commit(p: Picture, c: usize, o: usize, j: usize) -> Picture {
    mark(
        moved(p, 8),
        c,
        o,
        j,
        b"<circle class=\"commit\" cx=\"#\" cy=\"#\" r=\"5\"/>",
    )
}

fn hand_out(p: Picture, c: usize, o: usize, j: usize) -> Picture {
    mark(
        moved(p, 24),
        c,
        o,
        j,
        b"<path class=\"handed\" d=\"M# #m-5 -5h10v10h-10z\"/>",
    )
}

fn at_copy(p: Picture, what: AtCopy, a: [usize; NUMBERS], v: &mut [usize]) -> Picture {
    match what {
        AtCopy::HandsOut => hand_out(p, a[0], a[1], a[2]),
        AtCopy::Commits => commit(p, a[0], a[1], a[2]),
        AtCopy::GoesOn => turned(p, a[0], v, 0),
        AtCopy::Stops => stop(p, a[0], v),
    }
}

pub fn see(p: Picture, line: &[u8], v: &mut [usize]) -> Picture {
    let Some(got) = which_form(line, &FORMS) else {
        return p;
    };
    let a = got.v;
    match got.form {
        Line::Begins => begin_run(p, a[0], v),
        Line::Leaves => depart(p, a[0], a[1], a[2], v),
        Line::Arrives => arrive(p, a[0], a[1], &*v, got.rest),
        Line::IsLost => lose(p, a[0], &*v),
        Line::At(what) => at_copy(p, what, a, v),
    }
}
