// The messages on the way, oldest first, each in a place of its own: the length, the message's number, the copy that it
// left and the copy that it goes to, its bytes. Bytes may be damaged on the way; where the message goes does not change.
ghost use Rattle.std.specs.Prelude.{◌≤◌};

use crate::Scene;
use text::bytes::{byte_at, part, part_mut, write};
use text::held::Held;

// How many messages can be on the way.
const MOST: usize = 512;

// A place; no message is longer.
const PLACE: usize = 64;

const FRONT: usize = 5;

// All places.
pub const WAY: usize = MOST * PLACE;

// A message in its bytes, the number by which the run knows it, and the copy that it goes to.
#[derive(Clone, Copy)]
pub struct Parcel {
    pub number: usize,
    pub to: usize,
    pub bytes: Held<PLACE>,
}

fn place(i: usize) -> usize
    ensures { result ≤ 32768 }
{
    if i < MOST { PLACE * i } else { WAY }
}

// A message's bytes begin with its kind, the copy that it is from and the copy that it is for.
pub fn to_of(b: &[u8]) -> usize {
    byte_at(b, 2)
}

// The bytes of the message at a place of the way.
pub fn message_at(all: &[u8], i: usize) -> &[u8] {
    let at = place(i);
    part(all, at + FRONT, byte_at(all, at))
}

fn message_mut(all: &mut [u8], i: usize) -> &mut [u8] {
    let at = place(i);
    let length = byte_at(&*all, at);
    part_mut(all, at + FRONT, length)
}

pub fn number_at(all: &[u8], i: usize) -> usize {
    let at = place(i);
    byte_at(all, at + 1) + 256 * byte_at(all, at + 2)
}

pub fn from_at(all: &[u8], i: usize) -> usize {
    byte_at(all, place(i) + 3)
}

pub fn to_at(all: &[u8], i: usize) -> usize {
    byte_at(all, place(i) + 4)
}

// The message at a place, held outside the way.
pub fn parcel_at(all: &[u8], i: usize) -> Parcel {
    let mut room = [0; PLACE];
    let m = message_at(all, i);
    write(&mut room, 0, m);
    Parcel {
        number: number_at(all, i),
        to: to_at(all, i),
        bytes: Held::of(room, m.len()),
    }
}

fn is_between(all: &[u8], i: usize, from: usize, to: usize) -> bool {
    from_at(all, i) == from && to_at(all, i) == to
}

// The oldest message on the way from one copy to another.
pub fn find(all: &[u8], w: Scene, from: usize, to: usize) -> Option<usize> {
    (0..w.waiting).find(|&i| is_between(all, i, from, to))
}

pub fn is_full(w: Scene) -> bool {
    MOST <= w.waiting
}

fn one_more(x: usize) -> usize {
    if x < 65535 { x + 1 } else { x }
}

// One more message is on the way from one copy to another, if there is a place for it.
pub fn put_on(all: &mut [u8], w: Scene, from: usize, to: usize, b: &[u8]) -> Scene {
    if is_full(w) {
        return w;
    }
    let at = place(w.waiting);
    let number = w.sent;
    let head = [
        (b.len() & 0xff) as u8,
        (number & 0xff) as u8,
        (number / 256 & 0xff) as u8,
        (from & 0xff) as u8,
        (to & 0xff) as u8,
    ];
    write(&mut *all, at, &head);
    write(part_mut(all, at + FRONT, PLACE - FRONT), 0, b);
    let mut next = w;
    next.waiting = one_more(w.waiting);
    next.sent = one_more(w.sent);
    next
}

// The messages behind a place move to the place before.
fn close_up(all: &mut [u8], i: usize) {
    let to = place(i);
    let from = to + PLACE;
    if all.len() < WAY || WAY < from {
        return;
    }
    all.copy_within(from..WAY, to);
}

// The message at a place is not on the way any more.
pub fn take_off(all: &mut [u8], w: Scene, i: usize) -> Scene {
    close_up(all, i);
    let mut next = w;
    next.waiting = w.waiting.saturating_sub(1);
    next
}

// One byte of the message at a place is another from now on.
pub fn damage(all: &mut [u8], i: usize, at: usize, byte: u8) {
    write(message_mut(all, i), at, &[byte]);
}

// Only the first bytes of the message at a place are left.
pub fn shorten(all: &mut [u8], i: usize, length: usize) {
    let new = [(length & 0xff) as u8];
    write(all, place(i), &new);
}
