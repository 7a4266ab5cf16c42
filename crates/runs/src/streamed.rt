// The lines of a stream: a reader with a new buffer, and the next bytes of it.
use crate::event::put_no;
use crate::told::{Told, opened};
use stream::place::{Halt, begin};
use stream::reader::read;
use stream::taking::{Taken, take};
use stream::yielding::next;
use text::put::{Text, empty, finish, put_bytes, put_form, put_hex};

// stream ROOM
pub fn stream_line(w: Told, buf: &[u8]) -> Told {
    match begin(buf) {
        Ok(p) => {
            finish(put_bytes(empty(), b"= opened"));
            opened(w, buf.len(), p)
        }
        Err(why) => {
            finish(put_no(why));
            w
        }
    }
}

fn put_took(answer: Result<Taken, Halt>) -> Text {
    match answer {
        Ok(taken) => put_form(empty(), b"= took # messages", [taken.count]),
        Err(Halt::Stopped(_)) => put_bytes(empty(), b"= took 0 messages"),
        Err(Halt::Refused(why)) => put_no(why),
    }
}

// Every whole message of what is held, one after another, and the stop behind them; a message has a byte at least.
fn put_messages(out: Text, buf: &[u8], w: Told) -> Told {
    let mut told = out;
    let mut place = w.place;
    for _ in 0..buf.len() {
        match next(buf, place) {
            Ok(Some(y)) => {
                told = put_hex(told, read(buf, place), y.length);
                place = y.place;
            }
            Err(Halt::Stopped(o)) => {
                told = put_form(told, b" stop #", [o]);
                break;
            }
            _ => break,
        }
    }
    finish(told);
    opened(w, w.buffer, place)
}

// take BYTES
pub fn take_line(bytes: &[u8], w: Told, buf: &mut [u8]) -> Told {
    let answer = take(&mut *buf, w.place, bytes);
    let place = answer.map_or(w.place, |taken| taken.place);
    put_messages(put_took(answer), &*buf, opened(w, w.buffer, place))
}
