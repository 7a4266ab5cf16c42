// A line that is put together, by value: each function gives the line with more behind it. What has no place is dropped.
use crate::bytes::front;
use crate::held::Held;
use nouns::refusal::number_of;
use paper::Refusal;

const ROOM: usize = 4096;

pub type Text = Held<ROOM>;

pub fn empty() -> Text {
    Text::new()
}

pub fn put_byte(mut out: Text, b: u8) -> Text {
    let _ = out.push(b);
    out
}

pub fn put_bytes(mut out: Text, bytes: &[u8]) -> Text {
    for &b in bytes {
        out = put_byte(out, b);
    }
    out
}

fn put_decimal(out: Text, n: usize) -> Text {
    let mut digits = [0u8; 20];
    let k = io::decimal(n as u64, &mut digits);
    put_bytes(out, &digits[..k])
}

// A space and a number.
pub fn put_number(out: Text, n: usize) -> Text {
    put_decimal(put_byte(out, b' '), n)
}

// Puts a form: a text in which each '#' stands for the next of these numbers, 0 behind the last.
pub fn put_form<const K: usize>(mut out: Text, form: &[u8], v: [usize; K]) -> Text {
    let mut numbers = v.iter();
    for &b in form {
        out = match b {
            b'#' => put_decimal(out, numbers.next().copied().unwrap_or(0)),
            _ => put_byte(out, b),
        };
    }
    out
}

// Puts text k of these, counted from 0.
pub fn put_text(out: Text, texts: &[&[u8]], k: usize) -> Text {
    match texts.get(k) {
        Some(text) => put_bytes(out, text),
        None => out,
    }
}

fn hex_digit(x: u8) -> u8 {
    match x {
        0..=9 => b'0' + x,
        _ => b'a' + x % 16 - 10,
    }
}

fn put_pairs(mut out: Text, bytes: &[u8]) -> Text {
    for &b in bytes {
        out = put_byte(put_byte(out, hex_digit(b / 16)), hex_digit(b % 16));
    }
    out
}

// A space and the first k bytes of a room in hex, `-` for none.
pub fn put_hex(out: Text, room: &[u8], k: usize) -> Text {
    let bytes = front(room, k);
    let next = put_byte(out, b' ');
    if bytes.is_empty() {
        return put_byte(next, b'-');
    }
    put_pairs(next, bytes)
}

// A space, `refused`, the paper's number of the refusal, and behind it the offset where a field is wrong.
pub fn put_refused(out: Text, why: Refusal) -> Text {
    let told = put_number(put_bytes(out, b" refused"), number_of(why) as usize);
    match why {
        Refusal::WrongField(offset) => put_number(told, offset),
        _ => told,
    }
}

// The answer to a line that is not understood.
pub fn bad_line() -> Text {
    put_bytes(empty(), b"= bad line")
}

// Writes the line out, with its end.
pub fn finish(out: Text) {
    let line = put_byte(out, b'\n');
    io::write_all(1, line.as_slice());
}
