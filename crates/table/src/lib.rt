// The table: lent bytes, a head and one record for each instance.
#![tactic(auto)]

ghost use Rattle.std.specs.Prelude.{◌≡◌, ◌&&◌, ◌+◌, ◌*◌, ◌≤◌, ◌<◌, length, replicate};
ghost use Rattle.paper.specs.Instance.{instance_ok};
ghost use Rattle.paper.specs.Logic.{all_below};
ghost use Rattle.record.specs.Layout.{record_length};
ghost use Rattle.record.specs.Part.{sound_part};
ghost use Rattle.table.specs.Place.{head_length, table_length, place_of, part_at};
ghost use Rattle.table.specs.Table.{fits_setup, head_is, past_idle, sound_row, sound_table, blank_table};
ghost use Rattle.table.specs.Calls.{blanked, blanked_table, judged, part_of, part_start, part_length, length_of};
ghost use Rattle.table.specs.Sizes.{Sizes, Row, Names, Has};

use nouns::setup::{instance_ok, setup_ok};
use paper::Refusal;
use record::places::LENGTH;

pub mod records;

// The head: N, S and the copy's number, a byte each.
const COPIES: usize = 0;

const NUMBERS: usize = COPIES + 1;

const COPY: usize = NUMBERS + 1;

pub const HEAD: usize = COPY + 1;

// The longest table.
pub const LONGEST: usize = HEAD + LENGTH * nouns::setup::INSTANCES;

fn times(n: usize, s: usize) -> usize
    requires { (n ≤ 7) × (s ≤ 64) }
    ensures { (result ≡ n * s) × (result ≤ 448) }
{
    n * s
}

fn table_length(n: usize, s: usize) -> usize
    requires { (n ≤ 7) × (s ≤ 64) }
    ensures { result ≡ table_length n s }
{
    HEAD + LENGTH * times(n, s)
}

// How long a table of the setup is; 0 of a bad setup.
#[tactic(auto, unfolding(crate::specs::Calls::length_of), using(crate::proofs::Laws::setup_small))]
pub fn length_of(n: usize, s: usize) -> usize
    ensures { result ≡ length_of n s }
{
    if !setup_ok(n, s, 0) {
        return 0;
    }
    table_length(n, s)
}

// What refusal 1 asks.
#[tactic(auto, unfolding(crate::specs::Table::fits_setup), using(crate::proofs::Laws::setup_small))]
pub fn fits_setup(t: &[u8], n: usize, s: usize, c: usize) -> bool
    ensures { result ≡ fits_setup n s c t.now }
{
    if !setup_ok(n, s, c) {
        return false;
    }
    t.len() == table_length(n, s)
}

// Where the record of o.j starts.
fn place_of(n: usize, s: usize, o: usize, j: usize) -> usize
    requires { Names n s o j }
    ensures { (result ≡ place_of s o j) × (result + record_length ≤ table_length n s) }
{
    HEAD + LENGTH * (times(o, s) + (j - 1))
}

// The part of the table that the record of o.j takes.
fn part(t: &[u8], n: usize, s: usize, o: usize, j: usize) -> &[u8]
    requires { Has n s o j t.now }
    ensures part { result.now ≡ part_at t.now (place_of s o j) }
    ensures long { length result.now ≡ record_length }
{
    let at = place_of(n, s, o, j);
    let end = at + LENGTH;
    &t[at..end]
}

#[tactic(auto, unfolding(crate::specs::Table::head_is, numbers::specs::Num::num_at))]
fn head_is(t: &[u8], n: usize, s: usize, c: usize) -> bool
    requires { head_length ≤ length t.now }
    ensures { result ≡ head_is n s c t.now }
{
    t[COPIES] as usize == n && t[NUMBERS] as usize == s && t[COPY] as usize == c
}

// What is left of the first k records of owner o's row when those at their end that are idle and right are passed over:
// most are, and what a phase asks is not looked at.
fn past_idle(t: &[u8], n: usize, s: usize, o: usize, k: usize) -> usize
    requires { Names n s o k × (length t.now ≡ table_length n s) }
    ensures { result ≡ past_idle n s t.now o k }
{
    for left in (1..k + 1).rev() {
        if !record::idle_ok(part(t, n, s, o, left), n, s) {
            return left;
        }
    }
    0
}

fn record_sound(t: &[u8], n: usize, s: usize, c: usize, o: usize, j: usize) -> bool
    requires { Sizes n s c t.now × Names n s o j }
    ensures { result ≡ sound_part n s c o (part_at t.now (place_of s o j)) }
{
    record::sound_part(part(t, n, s, o, j), n, s, c, o)
}

// Every record of owner o's row is sound; the row is walked from its end.
fn sound_row(t: &[u8], n: usize, s: usize, c: usize, o: usize) -> bool
    requires { Row n s c o t.now }
    ensures { result ≡ sound_row n s c t.now o }
{
    let mut left = s;
    while 0 < left {
        left = past_idle(t, n, s, o, left);
        if left == 0 {
            return true;
        }
        if !record_sound(t, n, s, c, o, left) {
            return false;
        }
        left -= 1;
    }
    true
}

fn rows_sound(t: &[u8], n: usize, s: usize, c: usize) -> bool
    requires { Sizes n s c t.now }
    ensures { result ≡ all_below n (sound_row n s c t.now) }
{
    for o in (0..n).rev() {
        if !sound_row(t, n, s, c, o) {
            return false;
        }
    }
    true
}

// The table is sound; its setup and length were asked before.
#[tactic(auto, unfolding(crate::specs::Table::sound_table))]
pub fn sound_table(t: &[u8], n: usize, s: usize, c: usize) -> bool
    requires { Sizes n s c t.now }
    ensures { result ≡ sound_table n s c t.now }
{
    head_is(t, n, s, c) && rows_sound(t, n, s, c)
}

// Judges a table: 1, then 11.
#[tactic(auto, unfolding(crate::specs::Calls::judged), using(crate::proofs::Laws::sizes))]
pub fn judge_table(t: &[u8], n: usize, s: usize, c: usize) -> Result<(), Refusal>
    ensures { result ≡ judged n s c t.now }
{
    if !fits_setup(t, n, s, c) {
        return Err(Refusal::Setup);
    }
    if !sound_table(t, n, s, c) {
        return Err(Refusal::Unsound);
    }
    Ok(())
}

// The head and blank records.
fn put_blank(t: &mut [u8], n: usize, s: usize, c: usize)
    requires { Sizes n s c t.old }
    ensures { t.new ≡ blank_table n s c }
{
    t.fill(0);
    t[COPIES] = n as u8;
    t[NUMBERS] = s as u8;
    t[COPY] = c as u8;
}

// Writes a blank table.
#[tactic(auto, unfolding(crate::specs::Calls::blanked, crate::specs::Calls::blanked_table), using(crate::proofs::Laws::sizes))]
pub fn blank_table(t: &mut [u8], n: usize, s: usize, c: usize) -> Result<(), Refusal>
    ensures answers { result ≡ blanked n s c t.old }
    ensures table { t.new ≡ blanked_table n s c t.old }
{
    if !fits_setup(&*t, n, s, c) {
        return Err(Refusal::Setup);
    }
    put_blank(t, n, s, c);
    Ok(())
}

fn has_part(t: &[u8], n: usize, s: usize, c: usize, o: usize, j: usize) -> bool
    ensures { result ≡ (fits_setup n s c t.now && instance_ok n s o j) }
{
    fits_setup(t, n, s, c) && instance_ok(n, s, o, j)
}

// What a host saves of o.j: its record's bytes, none where setup or instance is bad.
#[tactic(auto, unfolding(crate::specs::Calls::part_of), using(crate::proofs::Laws::has))]
pub fn record_part(t: &[u8], n: usize, s: usize, c: usize, o: usize, j: usize) -> &[u8]
    ensures { result.now ≡ part_of n s c t.now o j }
{
    if !has_part(t, n, s, c, o, j) {
        return &t[..0];
    }
    part(t, n, s, o, j)
}

// Where that part starts; 0 where it is empty.
#[tactic(auto, unfolding(crate::specs::Calls::part_start), using(crate::proofs::Laws::has))]
pub fn part_start(t: &[u8], n: usize, s: usize, c: usize, o: usize, j: usize) -> usize
    ensures { result ≡ part_start n s c t.now o j }
{
    if !has_part(t, n, s, c, o, j) {
        return 0;
    }
    place_of(n, s, o, j)
}

// How long it is.
#[tactic(auto, unfolding(crate::specs::Calls::part_length))]
pub fn part_length(t: &[u8], n: usize, s: usize, c: usize, o: usize, j: usize) -> usize
    ensures { result ≡ part_length n s c t.now o j }
{
    if !has_part(t, n, s, c, o, j) {
        return 0;
    }
    LENGTH
}
