// The messages' arrows.
use crate::marks::{get, leave, place};
use crate::picture::{Picture, draw, line_of, moved, plus};
use text::put::{empty, finish, put_bytes, put_form};

fn half_way(a: usize, b: usize) -> usize {
    plus(a, b) / 2
}

// Three quarters of the way: labels stand near where arrows end, since no two end in one column.
fn near_end(a: usize, b: usize) -> usize {
    half_way(half_way(a, b), b)
}

pub fn depart(p: Picture, id: usize, from: usize, to: usize, v: &mut [usize]) -> Picture {
    let q = moved(p, 12);
    leave(v, id, q.x, from, to);
    q
}

// The first two words, with the space behind them.
fn two_words(words: &[u8]) -> &[u8] {
    let mut spaces = words.iter().enumerate().filter(|(_, b)| **b == b' ');
    match spaces.nth(1) {
        Some((second, _)) => &words[..=second],
        None => words,
    }
}

// What the message is: its name and instance, up to the ballot.
fn write_label(p: Picture, x: usize, y: usize, words: &[u8]) {
    if !p.writes {
        return;
    }
    let open = put_form(empty(), b"<text x=\"#\" y=\"#\" class=\"label\">", [x, y]);
    finish(put_bytes(put_bytes(open, two_words(words)), b"</text>"));
}

pub fn arrive(p: Picture, id: usize, to: usize, v: &[usize], words: &[u8]) -> Picture {
    let q = moved(p, 72);
    let at = place(id);
    let x = get(v, at);
    let y = line_of(q, get(v, at + 1));
    let below = line_of(q, to);
    draw(
        q,
        b"<path class=\"message\" d=\"M# #L# #\"/>",
        [x, y, q.x, below],
    );
    write_label(q, near_end(x, q.x), near_end(y, below), words);
    q
}

// A cross where the message is lost, not far on its way.
pub fn lose(p: Picture, id: usize, v: &[usize]) -> Picture {
    let q = moved(p, 12);
    let at = place(id);
    let y = line_of(q, get(v, at + 1));
    let below = half_way(y, half_way(y, line_of(q, get(v, at + 2))));
    draw(
        q,
        b"<path class=\"lost\" d=\"M# #L# #\"/>",
        [get(v, at), y, q.x, below],
    );
    draw(
        q,
        b"<path class=\"cross\" d=\"M# #m-4 -4l8 8m-8 0l8 -8\"/>",
        [q.x, below],
    );
    q
}
