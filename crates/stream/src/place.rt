// The place in a buffer, and whether a run of calls can leave it behind.
ghost use Rattle.std.specs.Prelude.{◌≡◌, length};
ghost use Rattle.stream.specs.Place.{least, is_sum, place_ok, Within, held, begun, gate_of};
ghost use Rattle.stream.specs.declared.place.Halt.TheVariants.{Refused};

use paper::Refusal;

// The fewest bytes of a buffer: the longest message fits, and there is room beside any part of one.
pub const LEAST: usize = 64;

// No stream is longer: its offsets fit.
pub const LONGEST: usize = 18446744073709551615;

// What is held stands from `at` to `end`; `offset` is where in the stream the byte at `at` stands.
#[derive(Clone, Copy, Debug, PartialEq, Eq)]
pub struct Place {
    pub at: usize,
    pub end: usize,
    pub offset: usize,
}

// Why a call takes and yields nothing: the stream stands still at this offset, or place or buffer is refused.
#[derive(Clone, Copy, Debug, PartialEq, Eq)]
pub enum Halt {
    Stopped(usize),
    Refused(Refusal),
}

impl From<Refusal> for Halt {
    ghost from_gives = { λ why halt. halt ≡ Refused why };

    fn from(why: Refusal) -> Halt {
        Halt::Refused(why)
    }
}

// The least of the numbers with this last digit that whole messages can have as bytes together. The shortest messages have
// ten bytes, so that every larger one with it is such a number too.
fn least(digit: usize) -> usize
    ensures { result ≡ least digit }
{
    match digit {
        0 => 0,
        1 => 41,
        2 => 42,
        3 => 83,
        4 => 14,
        5 => 55,
        6 => 46,
        7 => 37,
        8 => 28,
        _ => 69,
    }
}

// Whole messages, any number of them, can have this many bytes together.
fn is_sum(x: usize) -> bool
    ensures { result ≡ is_sum x }
{
    least(x % 10) <= x
}

// The numbers are in order, within the buffer and the stream, and at messages' ends.
#[tactic(auto, unfolding(crate::specs::Place::place_ok))]
pub fn place_ok(length: usize, p: Place) -> bool
    ensures { result ≡ place_ok length p }
{
    p.at <= p.end
        && p.end <= length
        && p.at <= p.offset
        && p.end - p.at <= LONGEST - p.offset
        && is_sum(p.at)
        && is_sum(p.offset - p.at)
}

// What is refused of a buffer of this length and a place in it.
#[tactic(auto, unfolding(crate::specs::Place::gate_of))]
pub fn gate_of(length: usize, p: Place) -> Result<(), Refusal>
    ensures { result ≡ gate_of length p }
{
    if !place_ok(length, p) {
        return Err(Refusal::Unsound);
    }
    if length < LEAST {
        return Err(Refusal::Room);
    }
    Ok(())
}

// The bytes that are taken and not yielded.
#[tactic(auto, unfolding(crate::specs::Place::held))]
pub(crate) fn held(buf: &[u8], p: Place) -> &[u8]
    requires { Within (length buf.now) p }
    ensures { result.now ≡ held buf.now p }
{
    &buf[p.at..p.end]
}

// A new stream, whose first byte will stand at the buffer's front.
#[tactic(auto, unfolding(crate::specs::Place::begun))]
pub fn begin(buf: &[u8]) -> Result<Place, Refusal>
    ensures { result ≡ begun (length buf.now) }
{
    if buf.len() < LEAST {
        return Err(Refusal::Room);
    }
    Ok(Place {
        at: 0,
        end: 0,
        offset: 0,
    })
}
