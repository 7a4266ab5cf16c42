// The fields of a message in its bytes: which of them begins where, and the number in each.
use nouns::message::{has_field, row_of};
use paper::{Field, Parts, Row};
use text::bytes::part;
use wire::{kind_at, offset_of, width_of};

// What messages of the kind of this one are like.
pub fn row_at(b: &[u8]) -> Row {
    row_of(kind_at(b))
}

// It is of a kind that carries rewires alone.
pub fn is_for_rewire(b: &[u8]) -> bool {
    row_at(b).parts.second
}

// Every field in the order of the bytes.
const FIELDS: [Field; 19] = [
    Field::From,
    Field::To,
    Field::Owner,
    Field::Number,
    Field::Ballot,
    Field::Voted,
    Field::Status,
    Field::Op,
    Field::Key,
    Field::Second,
    Field::Edit,
    Field::Entry(0),
    Field::Entry(1),
    Field::Entry(2),
    Field::Entry(3),
    Field::Entry(4),
    Field::Entry(5),
    Field::Entry(6),
    Field::Joined,
];

fn begins_at(p: Parts, f: Field, offset: usize) -> bool {
    has_field(p, f) && offset_of(p, f) == offset
}

// The field that begins at a place of a message.
pub fn field_at(b: &[u8], offset: usize) -> Option<Field> {
    let parts = row_at(b).parts;
    FIELDS.into_iter().find(|&f| begins_at(parts, f, offset))
}

// One more byte below those of a number; what is above eight bytes is lost.
fn with_low(x: usize, b: u8) -> usize {
    x % 72057594037927936 * 256 + b as usize
}

// The number in these bytes, the lowest first.
fn number_in(b: &[u8]) -> usize {
    b.iter().rev().fold(0, |x, &low| with_low(x, low))
}

// The number in a field; 0 where the message does not have the field whole.
pub fn value_in(b: &[u8], f: Field) -> usize {
    let parts = row_at(b).parts;
    if !has_field(parts, f) {
        return 0;
    }
    number_in(part(b, offset_of(parts, f), width_of(f)))
}
