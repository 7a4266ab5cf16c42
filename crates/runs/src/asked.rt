// The settled question and the hand-out.
use crate::event::put_no;
use crate::kept::keep_marks;
use crate::told::{Outcome, Told, said};
use nouns::command::op_number;
use nouns::setup::INSTANCES;
use order::Settling;
use paper::{Command, Refusal};
use text::put::{Text, bad_line, empty, put_bytes, put_form, put_number};

fn put_settled(k: Command) -> Text {
    let v = [
        op_number(k.op),
        k.key as usize,
        k.second as usize,
        k.edit as usize,
    ];
    put_form(empty(), b"= settled # # # #", v)
}

fn put_settling(answer: Result<Settling, Refusal>) -> Text {
    match answer {
        Ok(Settling::Settled(k)) => put_settled(k),
        Ok(Settling::Waits(first)) => put_form(
            empty(),
            b"= waits # #",
            [first.owner, first.number],
        ),
        Err(why) => put_no(why),
    }
}

// C settled OWNER NUMBER
pub fn settled(t: &[u8], w: Told, o: usize, j: usize) -> Text {
    put_settling(order::settled::settled(t, w.n, w.s, w.c, o, j))
}

// The first k codes of the list, all of it where k is more; a space after the word even where there are none.
fn put_codes(list: &[u16], k: usize) -> Text {
    let mut next = put_bytes(empty(), b"= codes");
    for &code in list.iter().take(k) {
        next = put_number(next, code as usize);
    }
    next
}

fn put_listed(list: &[u16], k: usize) -> Text {
    if k == 0 {
        return put_bytes(empty(), b"= codes ");
    }
    put_codes(list, k)
}

// The marks go into the journal.
fn handed(
    w: Told,
    answer: Result<usize, Refusal>,
    t: &[u8],
    d: &mut [u8],
    list: &[u16],
) -> Outcome {
    match answer {
        Ok(k) => said(put_listed(list, k), keep_marks(w, t, d, list, k)),
        Err(why) => said(put_no(why), w),
    }
}

fn hand_out_in(t: &mut [u8], w: Told, d: &mut [u8], list: &mut [u16]) -> Outcome {
    let answer = order::hand_out::hand_out(&mut *t, w.n, w.s, w.c, &mut *list);
    handed(w, answer, &*t, d, &*list)
}

// C handout ROOM
pub fn hand_out(t: &mut [u8], w: Told, d: &mut [u8], room: usize) -> Outcome {
    let mut list = [0u16; INSTANCES];
    if INSTANCES < room {
        return said(bad_line(), w);
    }
    hand_out_in(t, w, d, &mut list[..room])
}
