// Taking the next bytes of a stream into the lent buffer.
ghost use Rattle.std.specs.Prelude.{◌≡◌, length};
ghost use Rattle.numbers.specs.Num.{splice};
ghost use Rattle.stream.specs.Place.{Within, held};
ghost use Rattle.stream.specs.Stream.{room_for, filled, fill, taken};

use crate::place::{Halt, LONGEST, Place, gate_of, held};
use crate::yielding::is_stopped;

// How many bytes were taken, and the place after them.
#[derive(Clone, Copy, Debug, PartialEq, Eq)]
pub struct Taken {
    pub count: usize,
    pub place: Place,
}

// How many of `count` bytes are taken.
#[tactic(auto, unfolding(crate::specs::Stream::room_for))]
fn room_for(length: usize, p: Place, count: usize) -> usize
    requires { Within length p }
    ensures { result ≡ room_for length p count }
{
    let held = p.end - p.at;
    let room = (length - held).min(LONGEST - (p.offset + held));
    count.min(room)
}

// Moves what is held to the front.
fn shift(buf: &mut [u8], p: Place)
    requires { Within (length buf.old) p }
    ensures { buf.new ≡ splice buf.old 0 (held buf.old p) }
{
    if p.at != 0 {
        buf.copy_within(p.at..p.end, 0);
    }
}

// What is held to the front, and behind it as many of these bytes as there is room for.
fn fill(buf: &mut [u8], p: Place, bytes: &[u8]) -> Taken
    requires { Within (length buf.old) p }
    ensures taken { result ≡ filled buf.old p bytes.now }
    ensures buffer { buf.new ≡ (fill buf.old p bytes.now).buffer }
{
    let held = p.end - p.at;
    let count = room_for(buf.len(), p, bytes.len());
    shift(&mut *buf, p);
    numbers::put_bytes(&mut *buf, held, &bytes[..count]);
    Taken {
        count,
        place: Place {
            at: 0,
            end: held + count,
            offset: p.offset,
        },
    }
}

// Takes as many of the next bytes as there is room for.
#[tactic(auto, unfolding(crate::specs::Stream::taken, crate::specs::Stream::taken_open))]
pub fn take(buf: &mut [u8], p: Place, bytes: &[u8]) -> Result<Taken, Halt>
    ensures answers { result ≡ (taken buf.old p bytes.now).told }
    ensures buffer { buf.new ≡ (taken buf.old p bytes.now).buffer }
{
    gate_of(buf.len(), p)?;
    if is_stopped(held(&*buf, p)) {
        return Err(Halt::Stopped(p.offset));
    }
    Ok(fill(buf, p, bytes))
}
