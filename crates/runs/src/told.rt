// How the calls that follow are made.
use stream::place::Place;
use table::length_of;
use text::forms::NUMBERS;
use text::put::Text;

// The setup, the copy number that calls name if it is not their copy's, and the copy number of the call; the length that is
// lent of a table; the room; whether answers end with checksums. Beside that the stream: how long its buffer is, and the
// place in it. And the journals: where that of each copy ends, if it has one, the copy of the last call, where its journal
// ended before it, and how much of an entry the next cut leaves.
#[derive(Clone, Copy)]
pub struct Told {
    pub n: usize,
    pub s: usize,
    pub other: Option<usize>,
    pub c: usize,
    pub length: usize,
    pub room: usize,
    pub watch: bool,
    pub buffer: usize,
    pub place: Place,
    pub ends: [Option<usize>; 7],
    pub last: usize,
    pub before: usize,
    pub torn: usize,
}

// What a line says of how the calls that follow are made.
#[derive(Clone, Copy, Debug, PartialEq, Eq)]
pub enum Way {
    As,
    Length,
    Room,
    Watch,
}

// An answer, and how the calls after it are made.
#[derive(Clone, Copy)]
pub struct Outcome {
    pub text: Text,
    pub told: Told,
}

pub fn said(text: Text, told: Told) -> Outcome {
    Outcome { text, told }
}

// run N S. No copy has a journal yet.
pub fn begun(n: usize, s: usize) -> Told {
    Told {
        n,
        s,
        other: None,
        c: 0,
        length: length_of(n, s),
        room: 256,
        watch: false,
        buffer: 0,
        place: Place {
            at: 0,
            end: 0,
            offset: 0,
        },
        ends: [None; 7],
        last: 0,
        before: 0,
        torn: 0,
    }
}

// as N S C
fn named(old: Told, n: usize, s: usize, c: usize) -> Told {
    Told {
        n,
        s,
        other: Some(c),
        ..old
    }
}

fn lent(old: Told, length: usize) -> Told {
    Told { length, ..old }
}

fn roomy(old: Told, room: usize) -> Told {
    Told { room, ..old }
}

fn watched(old: Told) -> Told {
    Told { watch: true, ..old }
}

pub fn changed(old: Told, what: Way, v: [usize; NUMBERS]) -> Told {
    match what {
        Way::As => named(old, v[0], v[1], v[2]),
        Way::Length => lent(old, v[0]),
        Way::Room => roomy(old, v[0]),
        Way::Watch => watched(old),
    }
}

// The call is at its copy, or, after `as`, names another.
pub fn at_copy(old: Told, copy: usize) -> Told {
    let c = old.other.unwrap_or(copy);
    Told { c, ..old }
}

// A stream with a buffer of this length, at this place.
pub fn opened(old: Told, buffer: usize, place: Place) -> Told {
    Told {
        buffer,
        place,
        ..old
    }
}

// Where a copy's journal ends, if it has one.
pub fn end_of(w: Told, copy: usize) -> Option<usize> {
    if copy < 7 { w.ends[copy] } else { None }
}

pub fn ended(mut w: Told, copy: usize, end: Option<usize>) -> Told {
    if copy < 7 {
        w.ends[copy] = end;
    }
    w
}

// What a copy's table is now is not what its journal tells: the next call begins it anew.
pub fn poked(old: Told, copy: usize) -> Told {
    ended(old, copy, None)
}

// A call is made at this copy, whose journal ends here.
pub fn called(old: Told, copy: usize, end: usize) -> Told {
    Told {
        last: copy,
        before: end,
        ..old
    }
}

// The next cut falls elsewhere in its entry: these steps come by every byte of the longest.
pub fn torn(old: Told) -> Told {
    let torn = (old.torn % 1024 + 61) % 1024;
    Told { torn, ..old }
}
