// Draws what `play` wrote, from standard input, as an SVG space-time picture: each copy is a line from left to right, each
// message an arrow from where it left to where it arrived. A lost message ends in a cross; commits are dots, hand-outs
// squares, cuts red crosses, and a copy's line is dashed while it is down. A script of several runs gives one below the
// other.
#![tactic(auto)]

mod copies;
mod input;
mod marks;
mod messages;
mod picture;
mod see;

fn main() {
    input::draw_input();
}
