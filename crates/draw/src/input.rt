// Reads all that `play` wrote, measures the picture, and then draws it.
use crate::copies::end_run;
use crate::marks::MARKS;
use crate::picture::{Picture, blank, draw, moved};
use crate::see::see;
use text::bytes::front;
use text::put::{empty, finish, put_bytes};

// How much of what `play` wrote is drawn.
const ROOM: usize = 400000;

// All lines one after the other.
fn pass(p: Picture, text: &[u8], v: &mut [usize]) -> Picture {
    let mut q = p;
    for line in text.split(|&b| b == b'\n') {
        q = see(q, line, &mut *v);
    }
    q
}

fn draw_size(p: Picture) {
    draw(
        p,
        b"<svg xmlns=\"http://www.w3.org/2000/svg\" width=\"#\" height=\"#\" viewBox=\"0 0 # #\">",
        [p.wide, p.high, p.wide, p.high],
    );
}

// How arrows end, what lines and marks look like, and on a white ground the legend.
fn draw_head() {
    finish(put_bytes(
        empty(),
        b"<defs><marker id=\"tip\" viewBox=\"0 0 8 8\" refX=\"8\" refY=\"4\" markerWidth=\"7\" markerHeight=\"7\" orient=\"auto\">\
            <path d=\"M0 0L8 4L0 8z\" style=\"fill:#345\"/></marker></defs>\n\
            <style>text{font-family:sans-serif;paint-order:stroke;stroke:white;stroke-width:3px}.copyname{font-size:14px}\
            .label{font-size:10px;fill:#345;text-anchor:middle}.name{font-size:11px;font-weight:bold;text-anchor:middle}\
            .key{font-size:11px}path{fill:none}.copy{stroke:#888;stroke-width:2}\
            .down{stroke:#ccc;stroke-width:2;stroke-dasharray:3 5}.message{stroke:#345;marker-end:url(#tip)}\
            .lost{stroke:#b99;stroke-dasharray:4 3}.cross{stroke:#b55;stroke-width:2}.cut{stroke:#c00;stroke-width:3}\
            .commit{fill:#183}.handed{fill:#26c}</style>\n\
            <rect width=\"100%\" height=\"100%\" fill=\"white\"/>\n\
            <circle class=\"commit\" cx=\"75\" cy=\"12\" r=\"5\"/><text x=\"86\" y=\"16\" class=\"key\">committed</text>\n\
            <path class=\"handed\" d=\"M165 12m-5 -5h10v10h-10z\"/><text x=\"176\" y=\"16\" class=\"key\">handed out</text>\n\
            <path class=\"cut\" d=\"M260 12m-7 -7l14 14m-14 0l14 -14\"/><text x=\"273\" y=\"16\" class=\"key\">cut off</text>\n\
            <path class=\"cross\" d=\"M335 12m-4 -4l8 8m-8 0l8 -8\"/><text x=\"345\" y=\"16\" class=\"key\">message lost</text>",
    ));
}

// The first pass writes nothing: it finds how wide and high the picture is.
fn measured(text: &[u8], v: &mut [usize]) -> Picture {
    let p = pass(blank(false, 0, 0), text, &mut *v);
    v.fill(0);
    blank(true, p.wide, p.high)
}

// The lines of the last run end a little after what happened last.
fn draw_text(text: &[u8], v: &mut [usize]) {
    let p = measured(text, &mut *v);
    draw_size(p);
    draw_head();
    let end = pass(p, text, &mut *v);
    end_run(moved(end, 20), &*v);
    finish(put_bytes(empty(), b"</svg>"));
}

fn draw_areas(text: &mut [u8; ROOM], v: &mut [usize; MARKS]) {
    let k = io::read_full(0, text);
    draw_text(front(text, k), v);
}

pub fn draw_input() {
    let mut text = [0u8; ROOM];
    let mut v = [0usize; MARKS];
    draw_areas(&mut text, &mut v);
}
