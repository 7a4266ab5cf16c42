// What a field of a message may be, beside what stands in the others.
use crate::fields::{is_for_rewire, row_at, value_in};
use nouns::message::{is_fresh, is_recovery};
use paper::Field;
use scene::Scene;
use text::put::{Text, put_bytes, put_form};
use wire::kind_at;

fn put_below(out: Text, n: usize) -> Text {
    put_form(out, b"below #", [n])
}

// The ballots of a recovery name the copy that leads them.
fn put_led(out: Text, n: usize) -> Text {
    put_form(out, b"at least 8 and, modulo 8, below #", [n])
}

fn put_zero_or_led(out: Text, n: usize) -> Text {
    put_led(put_bytes(out, b"0, or "), n)
}

fn put_ballot_range(out: Text, n: usize, b: &[u8]) -> Text {
    if is_recovery(row_at(b).ballots) {
        return put_led(out, n);
    }
    put_zero_or_led(out, n)
}

fn put_voted_range(out: Text, n: usize, b: &[u8]) -> Text {
    let v = [value_in(b, Field::Ballot)];
    put_form(put_zero_or_led(out, n), b"; and less than ballot #", v)
}

fn put_joined_range(out: Text, n: usize, b: &[u8]) -> Text {
    let v = [value_in(b, Field::Ballot)];
    put_form(put_led(out, n), b"; and more than ballot #", v)
}

fn put_status_range(out: Text, b: &[u8]) -> Text {
    let voted = value_in(b, Field::Voted);
    if voted == 0 {
        return put_bytes(out, b"0 to 3");
    }
    put_form(out, b"1 to 3, since voted is #", [voted])
}

// It tells that there is no vote.
fn tells_none(b: &[u8]) -> bool {
    row_at(b).parts.told && value_in(b, Field::Status) == 0
}

// Its owner asks for it.
fn is_first(b: &[u8]) -> bool {
    is_fresh(row_at(b).ballots) && value_in(b, Field::Ballot) == 0
}

// It is of a kind for rewires, which cannot tell that there is no vote.
fn put_rewire_range(out: Text, b: &[u8]) -> Text {
    let told = put_form(out, b"3, since kind is #", [kind_at(b)]);
    if tells_none(b) {
        return put_bytes(told, b"; and 0, since status is 0");
    }
    told
}

fn put_op_range(out: Text, b: &[u8]) -> Text {
    if is_for_rewire(b) {
        return put_rewire_range(out, b);
    }
    if tells_none(b) {
        return put_bytes(out, b"0, since status is 0");
    }
    if is_first(b) {
        return put_bytes(out, b"1 or 2, since ballot is 0");
    }
    put_bytes(out, b"0, 1 or 2")
}

// A no-op has neither key nor edit; every other command may have any.
fn put_noop_range(out: Text) -> Text {
    put_bytes(out, b"0, since op is 0")
}

fn put_second_range(out: Text, b: &[u8]) -> Text {
    put_form(out, b"above key #", [value_in(b, Field::Key)])
}

fn put_entry_range(out: Text, w: Scene, b: &[u8], q: usize) -> Text {
    if w.n <= q {
        return put_form(out, b"0, since there is no copy #", [q]);
    }
    if tells_none(b) {
        return put_bytes(out, b"0, since status is 0");
    }
    put_form(out, b"0 to #", [w.s])
}

// What the field may be in the message in these bytes.
pub fn put_range(out: Text, w: Scene, b: &[u8], f: Field) -> Text {
    let n = w.n;
    match f {
        Field::From => put_below(out, n),
        Field::To => put_below(out, n),
        Field::Owner => put_below(out, n),
        Field::Number => put_form(out, b"1 to #", [w.s]),
        Field::Ballot => put_ballot_range(out, n, b),
        Field::Voted => put_voted_range(out, n, b),
        Field::Status => put_status_range(out, b),
        Field::Op => put_op_range(out, b),
        Field::Key => put_noop_range(out),
        Field::Second => put_second_range(out, b),
        Field::Edit => put_noop_range(out),
        Field::Entry(q) => put_entry_range(out, w, b, q as usize),
        Field::Joined => put_joined_range(out, n, b),
    }
}
