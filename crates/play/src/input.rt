// Reads the script and plays it line by line, until a line cannot be played.
use crate::line::play_line;
use say::reason::put_reason;
use say::value::begin;
use scene::copies::begun;
use scene::disks::ALL;
use script::Reason;
use text::lines::Lines;
use text::put::finish;

// Says in which line, and why, the run stopped.
fn say_halt(line: usize, why: Reason) {
    finish(put_reason(begin(b"line #: ", [line]), why));
}

// A proved loop has to end, and nothing says that the input does: the lines count up to a number that no script reaches.
fn play_lines(buf: &mut [u8], all: &mut [u8]) {
    let mut lines = Lines::new(buf);
    let mut w = begun(0, 0);
    for count in 1..4294967296 {
        let Some(line) = lines.next_line() else {
            break;
        };
        match play_line(line, w, &mut *all) {
            Ok(next) => w = next,
            Err(why) => {
                say_halt(count, why);
                break;
            }
        }
    }
}

fn play_areas(buf: &mut [u8], all: &mut [u8; ALL]) {
    play_lines(buf, all);
}

pub fn play_input() {
    let mut buf = io::large_buffer();
    let mut all = [0u8; ALL];
    play_areas(&mut buf, &mut all);
}
