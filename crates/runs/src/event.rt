// The calls for events: request, message, recover and nudge.
use crate::kept::keep_record;
use crate::told::{Outcome, Told, said};
use gate::Event;
use paper::Refusal;
use text::forms::NUMBERS;
use text::put::{Text, bad_line, empty, put_bytes, put_form, put_hex, put_refused};

pub fn put_no(why: Refusal) -> Text {
    put_refused(put_bytes(empty(), b"="), why)
}

fn put_answer(answer: Result<Event, Refusal>, room: &[u8]) -> Text {
    match answer {
        Err(why) => put_no(why),
        Ok(event) => put_hex(
            put_form(empty(), b"= event # #", [event.owner, event.number]),
            room,
            event.written,
        ),
    }
}

// What happened goes into the journal.
fn kept(w: Told, answer: Result<Event, Refusal>, t: &[u8], d: &mut [u8]) -> Told {
    match answer {
        Err(_) => w,
        Ok(event) => keep_record(w, t, d, event.owner, event.number),
    }
}

// The answer of a call, and what has come of it.
fn told(w: Told, answer: Result<Event, Refusal>, t: &[u8], d: &mut [u8], room: &[u8]) -> Outcome {
    said(put_answer(answer, room), kept(w, answer, t, d))
}

// C request OP KEY SECOND EDIT
pub fn request(
    v: [usize; NUMBERS],
    w: Told,
    t: &mut [u8],
    d: &mut [u8],
    room: &mut [u8],
) -> Outcome {
    let (Ok(key), Ok(second)) = (u32::try_from(v[2]), u32::try_from(v[3])) else {
        return said(bad_line(), w);
    };
    let edit = v[4] as u64;
    let answer = request::ask::request(&mut *t, w.n, w.s, w.c, &mut *room, v[1], key, second, edit);
    told(w, answer, &*t, d, &*room)
}

// C message BYTES
pub fn message(b: &[u8], w: Told, t: &mut [u8], d: &mut [u8], room: &mut [u8]) -> Outcome {
    let answer = receive::message::message(&mut *t, w.n, w.s, w.c, &mut *room, b);
    told(w, answer, &*t, d, &*room)
}

// C recover OWNER NUMBER
pub fn recover(
    o: usize,
    j: usize,
    w: Told,
    t: &mut [u8],
    d: &mut [u8],
    room: &mut [u8],
) -> Outcome {
    let answer = recover::recover(&mut *t, w.n, w.s, w.c, &mut *room, o, j);
    told(w, answer, &*t, d, &*room)
}

// C nudge OWNER NUMBER
pub fn nudge(o: usize, j: usize, w: Told, t: &mut [u8], d: &mut [u8], room: &mut [u8]) -> Outcome {
    let answer = nudge::nudge(&mut *t, w.n, w.s, w.c, &mut *room, o, j);
    told(w, answer, &*t, d, &*room)
}
