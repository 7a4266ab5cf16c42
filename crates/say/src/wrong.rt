// What is wrong with a message that is refused.
use crate::fields::{field_at, is_for_rewire, row_at, value_in};
use crate::message::put_kind;
use crate::range::put_range;
use crate::value::put_meaning;
use nouns::ballot::lead;
use nouns::message::is_word;
use paper::{Field, Refusal};
use scene::Scene;
use text::put::{Text, put_bytes, put_form, put_refused};
use wire::{kind_at, length_of};

fn put_unknown_kind(out: Text, b: &[u8]) -> Text {
    if b.is_empty() {
        return put_bytes(out, b": it is empty");
    }
    put_form(out, b": there is no kind #", [kind_at(b)])
}

// The name of its kind; a rewire's messages are longer than others of that name.
fn put_full_name(out: Text, b: &[u8]) -> Text {
    let named = put_kind(out, kind_at(b));
    if is_for_rewire(b) {
        return put_bytes(named, b" of a rewire");
    }
    named
}

fn put_wrong_length(out: Text, b: &[u8]) -> Text {
    let k = kind_at(b);
    let named = put_full_name(put_bytes(out, b": "), b);
    put_form(
        named,
        b" has # bytes, and this has #",
        [length_of(k), b.len()],
    )
}

fn put_wrong_way(out: Text, c: usize, b: &[u8]) -> Text {
    let to = value_in(b, Field::To);
    if to != c {
        return put_form(out, b": it is for copy #, and this is copy #", [to, c]);
    }
    put_form(out, b": it says that copy # itself sent it", [c])
}

// A lead's word has another sender, or an answer to the lead another receiver.
fn put_wrong_lead(out: Text, b: &[u8]) -> Text {
    let owner = value_in(b, Field::Owner);
    let ballot = value_in(b, Field::Ballot);
    let leads = lead(owner, (ballot & 0xffffffff) as u32);
    let v = [leads, owner, value_in(b, Field::Number), ballot];
    let told = put_form(out, b": copy # leads #.# at ballot #", v);
    if is_word(row_at(b).role) {
        return put_form(
            told,
            b", and the sender is copy #",
            [value_in(b, Field::From)],
        );
    }
    put_form(
        told,
        b", and the receiver is copy #",
        [value_in(b, Field::To)],
    )
}

fn put_name(out: Text, f: Field) -> Text {
    match f {
        Field::From => put_bytes(out, b"from"),
        Field::To => put_bytes(out, b"to"),
        Field::Owner => put_bytes(out, b"owner"),
        Field::Number => put_bytes(out, b"number"),
        Field::Ballot => put_bytes(out, b"ballot"),
        Field::Voted => put_bytes(out, b"voted"),
        Field::Status => put_bytes(out, b"status"),
        Field::Op => put_bytes(out, b"op"),
        Field::Key => put_bytes(out, b"key"),
        Field::Second => put_bytes(out, b"second key"),
        Field::Edit => put_bytes(out, b"edit"),
        Field::Entry(q) => put_form(out, b"entry # of the dependencies", [q as usize]),
        Field::Joined => put_bytes(out, b"joined"),
    }
}

fn put_field(out: Text, w: Scene, b: &[u8], offset: usize, f: Field) -> Text {
    let named = put_name(put_bytes(out, b": "), f);
    let v = [offset, value_in(b, f)];
    let told = put_form(named, b", at byte #, is #; it has to be ", v);
    put_range(told, w, b, f)
}

fn put_wrong_field(out: Text, w: Scene, b: &[u8], offset: usize) -> Text {
    match field_at(b, offset) {
        Some(f) => put_field(out, w, b, offset, f),
        None => out,
    }
}

// Why copy c refuses an event; the bytes are those of the message that arrived, if it is one.
pub fn put_wrong(out: Text, w: Scene, c: usize, b: &[u8], why: Refusal) -> Text {
    let told = put_refused(out, why);
    match why {
        Refusal::UnknownKind => put_unknown_kind(told, b),
        Refusal::WrongLength => put_wrong_length(told, b),
        Refusal::WrongWay => put_wrong_way(told, c, b),
        Refusal::WrongLead => put_wrong_lead(told, b),
        Refusal::WrongField(offset) => put_wrong_field(told, w, b, offset),
        _ => put_meaning(told, why),
    }
}
