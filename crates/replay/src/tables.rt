// The calls on one table: judge, blank and part. The table's bytes are lent, as many as the longest table has.
use crate::play::{Line, Setup};
use paper::Refusal;
use table::part_start;
use text::bytes::{behind, checksum, front_mut, write};
use text::forms::Read;
use text::put::{Text, bad_line, empty, put_bytes, put_number, put_refused};

// Byte i is i modulo 251.
fn count_up(t: &mut [u8]) {
    for (i, b) in t.iter_mut().enumerate() {
        *b = (i % 251) as u8;
    }
}

// Writes bytes from a place of the record of o.j on, where the table has it; for o = 9, from a place of the table on.
fn set(t: &mut [u8], w: Setup, o: usize, j: usize, at: usize, bytes: &[u8]) {
    if o == 9 {
        write(t, at, bytes);
        return;
    }
    let start = part_start(&*t, w.n, w.s, w.c, o, j);
    if start == 0 {
        return;
    }
    write(behind(t, start), at, bytes);
}

fn put_judging(answer: Result<(), Refusal>) -> Text {
    match answer {
        Ok(()) => put_bytes(empty(), b"= sound"),
        Err(why) => put_refused(put_bytes(empty(), b"="), why),
    }
}

// The answer for a table that is blank but for the bytes of the line.
fn judge_in(t: &mut [u8], w: Setup, got: &Read<Line>) -> Text {
    let v = got.v;
    t.fill(0);
    let _ = table::blank_table(&mut *t, w.n, w.s, w.c);
    set(&mut *t, w, v[2], v[3], v[4], got.bytes.as_slice());
    put_judging(table::judge_table(&*t, w.n, w.s, w.c))
}

// The line names a record, or the table itself.
fn names_place(o: usize, j: usize) -> bool {
    o == 9 || o < 9 && 0 < j
}

// C judge LEN O J AT BYTES
pub fn judge(got: &Read<Line>, w: Setup, t: &mut [u8]) -> Text {
    let v = got.v;
    let length = v[1];
    if t.len() < length || !names_place(v[2], v[3]) {
        return bad_line();
    }
    judge_in(front_mut(t, length), w, got)
}

fn put_blanking(answer: Result<(), Refusal>) -> Text {
    match answer {
        Ok(()) => put_bytes(empty(), b"= blank"),
        Err(why) => put_refused(put_bytes(empty(), b"="), why),
    }
}

fn blank_in(t: &mut [u8], w: Setup) -> Text {
    t.fill(0xEE);
    let answer = table::blank_table(&mut *t, w.n, w.s, w.c);
    put_number(put_blanking(answer), checksum(&*t))
}

// C blank LEN
pub fn blank(got: &Read<Line>, w: Setup, t: &mut [u8]) -> Text {
    let length = got.v[1];
    if t.len() < length {
        return bad_line();
    }
    blank_in(front_mut(t, length), w)
}

fn part_in(t: &mut [u8], w: Setup, o: usize, j: usize) -> Text {
    count_up(&mut *t);
    let part = table::record_part(&*t, w.n, w.s, w.c, o, j);
    let told = put_number(put_bytes(empty(), b"= part"), part.len());
    put_number(told, checksum(part))
}

// C part LEN O J
pub fn part(got: &Read<Line>, w: Setup, t: &mut [u8]) -> Text {
    let v = got.v;
    let length = v[1];
    if t.len() < length {
        return bad_line();
    }
    part_in(front_mut(t, length), w, v[2], v[3])
}
