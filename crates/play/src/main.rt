// Plays a script of several copies from standard input and writes what happens. The crate `script` has its words.
// A line that cannot be played gets its number and a reason, and the run stops there.
#![tactic(auto)]

mod input;
mod line;

fn main() {
    input::play_input();
}
