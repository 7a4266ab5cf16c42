// The hand-out, as a public call.
ghost use Rattle.std.specs.Prelude.{◌≡◌, ◌+◌, ◌<◌, length};
ghost use Rattle.numbers.specs.Num.{splice};
ghost use Rattle.table.specs.Table.{Judged};
ghost use Rattle.order.specs.States.{Marking, Listing};
ghost use Rattle.order.specs.Calls.{marked_in, handed_table, handed_codes, handed_open, handed};

use crate::codes::code_of;
use crate::states::settle_all;
use next::next_in;
use paper::Refusal;
use rows::slot_of;
use sweep::reach_all;
use table::judge_table;
use table::records::put_mark;

// The mark is one byte of the record: the rest of the table stays.
fn marked_in(t: &mut [u8], n: usize, s: usize, o: usize, j: usize)
    requires { Marking n s t.old o j }
    ensures { t.new ≡ marked_in s t.old o j }
{
    put_mark(t, n, s, o, j);
}

// One place of the list at a time, until it is full or none is left.
fn list_all(
    t: &mut [u8],
    n: usize,
    s: usize,
    h: &[u8],
    st: &mut [u8],
    know: &mut [u16],
    past: &mut [u8],
    list: &mut [u16],
) -> usize
    requires { Listing n s t.old h.now st.old know.old past.old }
    ensures count { result ≡ length (handed_codes (length list.old) n s t.old) }
    ensures table { t.new ≡ handed_table (length list.old) n s t.old }
    ensures list { list.new ≡ splice list.old 0 (handed_codes (length list.old) n s t.old) }
{
    for count in 0..list.len() {
        let found = next_in(n, s, h, &*st, &mut *know, &mut *past);
        let Some(next) = found else {
            return count;
        };
        let x = slot_of(next.owner, next.number);
        st[x] = 2;
        marked_in(&mut *t, n, s, next.owner, next.number);
        list[count] = code_of(next.owner, next.number);
    }
    list.len()
}

// Past 1 and 11.
fn hand_out_open(
    t: &mut [u8],
    n: usize,
    s: usize,
    c: usize,
    list: &mut [u16],
) -> Result<usize, Refusal>
    requires { Judged n s c t.old }
    ensures answers { result ≡ (handed_open n s t.old list.old).answer }
    ensures table { t.new ≡ (handed_open n s t.old list.old).table }
    ensures list { list.new ≡ (handed_open n s t.old list.old).list }
{
    let mut g = [0u8; 6272];
    let mut h = [0u8; 6272];
    reach_all(&*t, n, s, &mut g, &mut h);
    let mut st = [0u8; 448];
    settle_all(&*t, n, s, &h, &mut st);
    let mut know = [0u16; 448];
    let mut past = [0u8; 8];
    let count = list_all(t, n, s, &h, &mut st, &mut know, &mut past, list);
    Ok(count)
}

#[tactic(auto, unfolding(crate::specs::Calls::handed))]
pub fn hand_out(
    t: &mut [u8],
    n: usize,
    s: usize,
    c: usize,
    list: &mut [u16],
) -> Result<usize, Refusal>
    ensures answers { result ≡ (handed n s c t.old list.old).answer }
    ensures table { t.new ≡ (handed n s c t.old list.old).table }
    ensures list { list.new ≡ (handed n s c t.old list.old).list }
{
    judge_table(&*t, n, s, c)?;
    hand_out_open(t, n, s, c, list)
}
