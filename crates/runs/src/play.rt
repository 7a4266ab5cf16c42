// Plays the lines of the input: a run, how calls are made, or a call and its answer.
use crate::kept::{cut, ready};
use crate::streamed::{stream_line, take_line};
use crate::told::{Outcome, Told, Way, at_copy, begun, changed, poked, said};
use crate::{asked, event};
use storage::DISK;
use table::LONGEST;
use text::bytes::{checksum, front_mut, part, part_mut, write};
use text::forms::{BYTES, Read, which_form};
use text::lines::{Lines, is_passed_over};
use text::put::{Text, bad_line, finish, put_number};

// A call at a copy that is answered.
#[derive(Clone, Copy, Debug, PartialEq, Eq)]
enum Call {
    Request,
    Message,
    Recover,
    Nudge,
    Settled,
    HandOut,
    Cut,
}

#[derive(Clone, Copy, Debug, PartialEq, Eq)]
enum AtCopy {
    Poke,
    Call(Call),
}

// What a line is.
#[derive(Clone, Copy, Debug, PartialEq, Eq)]
enum Line {
    Run,
    Way(Way),
    At(AtCopy),
    Stream,
    Take,
}

const FORMS: [(Line, &[u8]); 15] = [
    (Line::Run, b"run # #"),
    (Line::Way(Way::As), b"as # # #"),
    (Line::Way(Way::Length), b"length #"),
    (Line::Way(Way::Room), b"room #"),
    (Line::Way(Way::Watch), b"watch"),
    (Line::At(AtCopy::Poke), b"# poke # @"),
    (Line::At(AtCopy::Call(Call::Request)), b"# request # # # #"),
    (Line::At(AtCopy::Call(Call::Message)), b"# message @"),
    (Line::At(AtCopy::Call(Call::Recover)), b"# recover # #"),
    (Line::At(AtCopy::Call(Call::Nudge)), b"# nudge # #"),
    (Line::At(AtCopy::Call(Call::Settled)), b"# settled # #"),
    (Line::At(AtCopy::Call(Call::HandOut)), b"# handout #"),
    (Line::At(AtCopy::Call(Call::Cut)), b"# cut #"),
    (Line::Stream, b"stream #"),
    (Line::Take, b"take @"),
];

// Seven areas, one for each copy's table, and one for the stream's buffer.
const TABLES: usize = 7 * LONGEST;

// The longest buffer of a stream: it holds a message of each kind, and a byte more.
const BUFFER: usize = 381;

const AREAS: usize = TABLES + BUFFER;

// A disk for each copy.
const DISKS: usize = 7 * DISK;

// Where the area of a copy starts; a copy past the seventh has none, and gets the end of all.
fn start_of(c: usize) -> usize {
    if 6 < c { AREAS } else { c * LONGEST }
}

fn disk_of(disks: &mut [u8], c: usize) -> &mut [u8] {
    let start = if 6 < c { DISKS } else { c * DISK };
    part_mut(disks, start, DISK)
}

// Blanks the tables of copies 0 to 6, as far as the setup has them.
fn blank_all(all: &mut [u8], w: Told) {
    for c in 0..7 {
        let _ = table::blank_table(part_mut(&mut *all, start_of(c), w.length), w.n, w.s, c);
    }
}

fn refused(w: Told) -> Told {
    finish(bad_line());
    w
}

fn play_run(n: usize, s: usize, all: &mut [u8]) -> Told {
    let w = begun(n, s);
    all.fill(0);
    blank_all(all, w);
    w
}

fn answer_of(
    call: Call,
    got: &Read<Line>,
    w: Told,
    t: &mut [u8],
    d: &mut [u8],
    room: &mut [u8],
) -> Outcome {
    let v = got.v;
    match call {
        Call::Request => event::request(v, w, t, d, room),
        Call::Message => event::message(got.bytes.as_slice(), w, t, d, room),
        Call::Recover => event::recover(v[1], v[2], w, t, d, room),
        Call::Nudge => event::nudge(v[1], v[2], w, t, d, room),
        Call::Settled => said(asked::settled(&*t, w, v[1], v[2]), w),
        Call::HandOut => asked::hand_out(t, w, d, v[1]),
        Call::Cut => cut(w, v[0], v[1], t, &*d),
    }
}

// The checksums after the call, where they are asked for.
fn put_watched(out: Text, w: Told, t: &[u8], room: &[u8]) -> Text {
    if !w.watch {
        return out;
    }
    put_number(put_number(out, checksum(t)), checksum(room))
}

fn play_in(
    call: Call,
    got: &Read<Line>,
    w: Told,
    t: &mut [u8],
    d: &mut [u8],
    room: &mut [u8],
) -> Told {
    let answer = answer_of(call, got, w, &mut *t, d, &mut *room);
    finish(put_watched(answer.text, w, &*t, &*room));
    answer.told
}

// C poke AT BYTES
fn poke(got: &Read<Line>, w: Told, t: &mut [u8]) -> Told {
    write(t, got.v[1], got.bytes.as_slice());
    poked(w, got.v[0])
}

fn play_call(call: Call, got: &Read<Line>, w: Told, t: &mut [u8], d: &mut [u8]) -> Told {
    let mut room = [0xEEu8; BYTES];
    if BYTES < w.room {
        return refused(w);
    }
    play_in(call, got, w, t, d, front_mut(&mut room, w.room))
}

// A call is about to be made; a cut is none.
fn before_call(what: AtCopy, copy: usize, w: Told, all: &[u8], disks: &mut [u8]) -> Told {
    if what == AtCopy::Call(Call::Cut) {
        return w;
    }
    let t = part(all, start_of(copy), LONGEST);
    ready(w, copy, t, disk_of(disks, copy))
}

// A call, or a poke, with the part of the copy's area that is lent.
fn play_copy(what: AtCopy, got: &Read<Line>, old: Told, all: &mut [u8], disks: &mut [u8]) -> Told {
    let copy = got.v[0];
    let w = before_call(what, copy, old, &*all, &mut *disks);
    let t = part_mut(all, start_of(copy), w.length);
    if t.len() != w.length {
        return refused(w);
    }
    let named = at_copy(w, copy);
    match what {
        AtCopy::Poke => poke(got, named, t),
        AtCopy::Call(call) => play_call(call, got, named, t, disk_of(disks, copy)),
    }
}

// stream ROOM
fn play_stream(room: usize, w: Told, all: &mut [u8]) -> Told {
    if BUFFER < room {
        return refused(w);
    }
    let buf = part_mut(all, TABLES, room);
    stream_line(w, &*buf)
}

// Plays one line that is read; how the calls after it are made.
fn play_read(got: &Read<Line>, w: Told, all: &mut [u8], disks: &mut [u8]) -> Told {
    let v = got.v;
    match got.form {
        Line::Run => play_run(v[0], v[1], all),
        Line::Way(what) => changed(w, what, v),
        Line::At(what) => play_copy(what, got, w, all, disks),
        Line::Stream => play_stream(v[0], w, all),
        Line::Take => take_line(got.bytes.as_slice(), w, part_mut(all, TABLES, w.buffer)),
    }
}

// Plays a line that is not passed over: what is read of it is cleared first.
fn play_form(line: &[u8], w: Told, all: &mut [u8], disks: &mut [u8]) -> Told {
    match which_form(line, &FORMS) {
        Some(got) => play_read(&got, w, all, disks),
        None => refused(w),
    }
}

fn play_line(line: &[u8], w: Told, all: &mut [u8], disks: &mut [u8]) -> Told {
    if is_passed_over(line) {
        return w;
    }
    play_form(line, w, all, disks)
}

// A proved loop has to end, and nothing says that the input does: the lines are counted, up to a number that no run reaches.
fn play_lines(buf: &mut [u8], all: &mut [u8], disks: &mut [u8]) {
    let mut lines = Lines::new(buf);
    let mut w = begun(0, 0);
    for _ in 0..u64::MAX {
        let Some(line) = lines.next_line() else {
            break;
        };
        w = play_line(line, w, &mut *all, &mut *disks);
    }
}

fn play_areas(buf: &mut [u8], all: &mut [u8; AREAS], disks: &mut [u8; DISKS]) {
    play_lines(buf, all, disks);
}

pub fn play_input() {
    let mut buf = io::large_buffer();
    let mut all = [0u8; AREAS];
    let mut disks = [0u8; DISKS];
    play_areas(&mut buf, &mut all, &mut disks);
}
