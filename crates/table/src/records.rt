// Records by their instance's name: one in and out, a field of one where it stands, its mark.
ghost use Rattle.std.specs.Prelude.{◌≡◌, length};
ghost use Rattle.table.specs.Sizes.{Has};
ghost use Rattle.record.specs.Layout.{with_mark};
ghost use Rattle.table.specs.Table.{record_in, put_record, Whole};
ghost use Rattle.table.specs.Calls.{part_size, put_part};

use crate::{part, place_of};
use paper::{Op, Record, Vote};
use record::fields::{
    deps_in, joined_in, key_in, mark_in, op_in, phase_in, second_in, status_in, vote_in,
};
use record::places::{LENGTH, MARK};

pub fn load(t: &[u8], n: usize, s: usize, o: usize, j: usize) -> Record
    requires { Has n s o j t.now }
    ensures { result ≡ record_in s t.now o j }
{
    record::read_record(part(t, n, s, o, j))
}

// Puts a record in its place; the writer is lent that part of the table and no other.
pub fn store(t: &mut [u8], n: usize, s: usize, o: usize, j: usize, r: Record)
    requires { Has n s o j t.old }
    ensures { t.new ≡ put_record s t.old o j r }
{
    let at = place_of(n, s, o, j);
    let next = at + LENGTH;
    record::write_record(&mut t[at..next], r);
}

// Puts back a part that was saved.
pub fn put_part(t: &mut [u8], n: usize, s: usize, o: usize, j: usize, part: &[u8])
    requires { Has n s o j t.old × (length part.now ≡ part_size) }
    ensures { t.new ≡ put_part s t.old o j part.now }
{
    numbers::put_bytes(t, place_of(n, s, o, j), part);
}

pub fn joined_of(t: &[u8], n: usize, s: usize, o: usize, j: usize) -> u32
    requires { Has n s o j t.now }
    ensures { result ≡ (record_in s t.now o j).joined }
{
    joined_in(part(t, n, s, o, j))
}

pub fn vote_of(t: &[u8], n: usize, s: usize, o: usize, j: usize) -> Vote
    requires { Has n s o j t.now }
    ensures { result ≡ (record_in s t.now o j).vote }
{
    vote_in(part(t, n, s, o, j))
}

pub fn status_of(t: &[u8], n: usize, s: usize, o: usize, j: usize) -> u8
    requires { Has n s o j t.now }
    ensures { result ≡ (record_in s t.now o j).vote.status }
{
    status_in(part(t, n, s, o, j))
}

pub fn op_of(t: &[u8], n: usize, s: usize, o: usize, j: usize) -> Op
    requires { Has n s o j t.now }
    ensures { result ≡ (record_in s t.now o j).vote.command.op }
{
    op_in(part(t, n, s, o, j))
}

pub fn key_of(t: &[u8], n: usize, s: usize, o: usize, j: usize) -> u32
    requires { Has n s o j t.now }
    ensures { result ≡ (record_in s t.now o j).vote.command.key }
{
    key_in(part(t, n, s, o, j))
}

pub fn second_of(t: &[u8], n: usize, s: usize, o: usize, j: usize) -> u32
    requires { Has n s o j t.now }
    ensures { result ≡ (record_in s t.now o j).vote.command.second }
{
    second_in(part(t, n, s, o, j))
}

pub fn deps_of(t: &[u8], n: usize, s: usize, o: usize, j: usize) -> [u16; 7]
    requires { Has n s o j t.now }
    ensures { result ≡ (record_in s t.now o j).vote.deps }
{
    deps_in(part(t, n, s, o, j))
}

pub fn mark_of(t: &[u8], n: usize, s: usize, o: usize, j: usize) -> u8
    requires { Has n s o j t.now }
    ensures { result ≡ (record_in s t.now o j).mark }
{
    mark_in(part(t, n, s, o, j))
}

pub fn phase_of(t: &[u8], n: usize, s: usize, o: usize, j: usize) -> u8
    requires { Has n s o j t.now }
    ensures { result ≡ (record_in s t.now o j).phase }
{
    phase_in(part(t, n, s, o, j))
}

// A mark is one byte: no other is written.
pub fn put_mark(t: &mut [u8], n: usize, s: usize, o: usize, j: usize)
    requires { Has n s o j t.old × Whole s t.old o j }
    ensures { t.new ≡ put_record s t.old o j (with_mark (record_in s t.old o j) 1) }
{
    let at = place_of(n, s, o, j) + MARK;
    t[at] = 1;
}
