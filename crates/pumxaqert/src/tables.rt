// The calls on a whole table.
ghost use Rattle.std.specs.Prelude.{◌≡◌};
ghost use Rattle.table.specs.Calls.{blanked, blanked_table, judged, part_start, part_length, length_of, blanking_number, judging_number};

use nouns::refusal::number_of;
use table::{part_length, part_start};

#[unsafe(no_mangle)]
pub extern "C" fn pumxaqert_blank(table: &mut [u8], n: usize, s: usize, c: usize) -> u32
    ensures number { result ≡ blanking_number (blanked n s c table.old) }
    ensures table { table.new ≡ blanked_table n s c table.old }
{
    match table::blank_table(table, n, s, c) {
        Ok(()) => 0,
        Err(why) => number_of(why),
    }
}

#[unsafe(no_mangle)]
pub extern "C" fn pumxaqert_judge(table: &[u8], n: usize, s: usize, c: usize) -> u32
    ensures { result ≡ judging_number (judged n s c table.now) }
{
    match table::judge_table(table, n, s, c) {
        Ok(()) => 0,
        Err(why) => number_of(why),
    }
}

// The saved part as its start and its length.
#[unsafe(no_mangle)]
pub extern "C" fn pumxaqert_part(
    table: &[u8],
    n: usize,
    s: usize,
    c: usize,
    owner: usize,
    number: usize,
    length: &mut usize,
) -> usize
    ensures start { result ≡ part_start n s c table.now owner number }
    ensures length { length.new ≡ part_length n s c table.now owner number }
{
    *length = part_length(table, n, s, c, owner, number);
    part_start(table, n, s, c, owner, number)
}

// How long a table of the setup is; 0 of a bad one.
#[unsafe(no_mangle)]
pub extern "C" fn pumxaqert_table_length(n: usize, s: usize) -> usize
    ensures { result ≡ length_of n s }
{
    table::length_of(n, s)
}
