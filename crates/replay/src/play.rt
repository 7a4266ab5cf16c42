// Plays the lines of the input: the setup, or a call and its answer.
use crate::{messages, tables};
use table::LONGEST;
use text::forms::{Read, which_form};
use text::lines::{Lines, is_passed_over};
use text::put::{Text, bad_line, finish};

#[derive(Clone, Copy, Debug, PartialEq, Eq)]
pub enum Call {
    Read,
    Write,
    Judge,
    Blank,
    Part,
}

// What a line is.
#[derive(Clone, Copy, Debug, PartialEq, Eq)]
pub enum Line {
    Run,
    Call(Call),
}

const FORMS: [(Line, &[u8]); 6] = [
    (Line::Run, b"run # #"),
    (Line::Call(Call::Read), b"# read @"),
    (
        Line::Call(Call::Write),
        b"# write # # # # # # # # # # # # # # # # # # # # #",
    ),
    (Line::Call(Call::Judge), b"# judge # # # # @"),
    (Line::Call(Call::Blank), b"# blank #"),
    (Line::Call(Call::Part), b"# part # # #"),
];

// The setup of the calls that follow, and the copy of a call.
#[derive(Clone, Copy)]
pub struct Setup {
    pub n: usize,
    pub s: usize,
    pub c: usize,
}

fn answer_of(call: Call, got: &Read<Line>, w: Setup, t: &mut [u8]) -> Text {
    match call {
        Call::Read => messages::read(got, w),
        Call::Write => messages::write(got, w),
        Call::Judge => tables::judge(got, w, t),
        Call::Blank => tables::blank(got, w, t),
        Call::Part => tables::part(got, w, t),
    }
}

fn play_call(call: Call, got: &Read<Line>, w: Setup, t: &mut [u8]) {
    finish(answer_of(call, got, w, t));
}

fn refused(w: Setup) -> Setup {
    finish(bad_line());
    w
}

// The setup that holds after the line.
fn play_read(got: &Read<Line>, w: Setup, t: &mut [u8]) -> Setup {
    let v = got.v;
    match got.form {
        Line::Run => Setup {
            n: v[0],
            s: v[1],
            c: 0,
        },
        Line::Call(call) => {
            play_call(call, got, Setup { c: v[0], ..w }, t);
            w
        }
    }
}

// Plays a line that is not passed over: what is read of it is cleared first.
fn play_form(line: &[u8], w: Setup, t: &mut [u8]) -> Setup {
    match which_form(line, &FORMS) {
        Some(got) => play_read(&got, w, t),
        None => refused(w),
    }
}

// Plays one line; the setup that holds after it.
fn play_line(line: &[u8], w: Setup, t: &mut [u8]) -> Setup {
    if is_passed_over(line) {
        return w;
    }
    play_form(line, w, t)
}

// A proved loop has to end, and nothing says that the input does: the lines are counted, up to a number that no run reaches.
fn play_lines(buf: &mut [u8], t: &mut [u8]) {
    let mut lines = Lines::new(buf);
    let mut w = Setup { n: 0, s: 0, c: 0 };
    for _ in 0..u64::MAX {
        let Some(line) = lines.next_line() else {
            break;
        };
        w = play_line(line, w, &mut *t);
    }
}

pub fn play_input() {
    let mut buf = io::large_buffer();
    let mut t = [0u8; LONGEST];
    play_lines(&mut buf, &mut t);
}
