// An entry in its bytes: kind, owner and number, then what the kind carries.
ghost use Rattle.std.specs.Prelude.{◌≡◌, ◌+◌, ◌≤◌, ◌<◌, eqb, length};
ghost use Rattle.numbers.specs.Num.{splice};
ghost use Rattle.record.specs.Part.{sound_part};
ghost use Rattle.table.specs.Calls.{part_size};
ghost use Rattle.entries.specs.Entry.{record_kind, kind_length, entry_head, entry_length, kind_in, owner_in, number_in, part_in, head_bytes};

use entries::Kind;
use record::places::LENGTH;
use record::{idle_ok, sound_part};

const KIND: usize = 0;

const OWNER: usize = KIND + 1;

const NUMBER: usize = OWNER + 1;

pub const HEAD: usize = NUMBER + 2;

// How long an entry of a kind is; 0 where there is no such kind.
pub fn entry_length(kind: usize) -> usize
    ensures { result ≡ entry_length kind }
{
    Kind::of(kind).map_or(0, kind_length)
}

pub fn kind_length(kind: Kind) -> usize
    ensures { result ≡ kind_length kind }
{
    match kind {
        Kind::Record => HEAD + LENGTH,
        Kind::Mark => HEAD,
    }
}

pub fn kind_in(b: &[u8]) -> usize
    requires { 1 ≤ length b.now }
    ensures { result ≡ kind_in b.now }
{
    numbers::get::<u8>(b, KIND) as usize
}

// The entry is a record's.
pub fn has_record(b: &[u8]) -> bool
    requires { 1 ≤ length b.now }
    ensures { result ≡ eqb (kind_in b.now) record_kind }
{
    Kind::of(kind_in(b)) == Some(Kind::Record)
}

pub fn owner_in(b: &[u8]) -> usize
    requires { entry_head ≤ length b.now }
    ensures { result ≡ owner_in b.now }
{
    numbers::get::<u8>(b, OWNER) as usize
}

pub fn number_in(b: &[u8]) -> usize
    requires { entry_head ≤ length b.now }
    ensures { result ≡ number_in b.now }
{
    numbers::get::<u16>(b, NUMBER) as usize
}

// The record's bytes in an entry that has one.
pub fn part_in(b: &[u8]) -> &[u8]
    requires { entry_head + part_size ≤ length b.now }
    ensures part { result.now ≡ part_in b.now }
    ensures long { length result.now ≡ part_size }
{
    let end = HEAD + LENGTH;
    &b[HEAD..end]
}

// The bytes of a record of owner o are sound. Most are idle, and what a phase asks is then not looked at.
pub fn part_sound(part: &[u8], n: usize, s: usize, c: usize, o: usize) -> bool
    requires { (length part.now ≡ part_size) × (1 ≤ n) × (n ≤ 7) × (c < 8) }
    ensures { result ≡ sound_part n s c o part.now }
{
    if idle_ok(part, n, s) {
        return true;
    }
    sound_part(part, n, s, c, o)
}

// Kind, owner and number at the front.
pub fn write_head(out: &mut [u8], kind: usize, o: usize, j: usize)
    requires { (entry_head ≤ length out.old) × (kind < 256) × (o < 256) × (j < 65536) }
    ensures { out.new ≡ splice out.old 0 (head_bytes kind o j) }
{
    numbers::put(&mut *out, KIND, kind as u8);
    numbers::put(&mut *out, OWNER, o as u8);
    numbers::put(&mut *out, NUMBER, j as u16);
}
