// Yielding the messages that stand whole in the buffer, one after another.
ghost use Rattle.std.specs.Prelude.{◌≡◌, ◌+◌, ◌≤◌, ◌<◌};
ghost use Rattle.stream.specs.Stream.{is_stopped, whole_length, behind, yielded, front, passed, message_in};

use crate::place::{Halt, Place, gate_of, held};
use nouns::message::row_of;
use wire::{kind_at, length_of};

// The length of a message, and the place behind it.
#[derive(Clone, Copy, Debug, PartialEq, Eq)]
pub struct Yielded {
    pub length: usize,
    pub place: Place,
}

// What is held begins with no known kind.
#[tactic(auto, unfolding(crate::specs::Stream::is_stopped))]
pub fn is_stopped(held: &[u8]) -> bool
    ensures { result ≡ is_stopped held.now }
{
    !held.is_empty() && !row_of(kind_at(held)).known
}

// The length of the message in front, if it is whole.
#[tactic(auto, unfolding(crate::specs::Stream::whole_length, crate::specs::Stream::is_whole))]
fn whole_length(held: &[u8]) -> Option<usize>
    ensures { result ≡ whole_length held.now }
{
    let k = kind_at(held);
    if !row_of(k).known {
        return None;
    }
    let n = length_of(k);
    if held.len() < n { None } else { Some(n) }
}

// The place behind n bytes more of what is held.
#[tactic(auto, unfolding(crate::specs::Stream::behind))]
fn behind(p: Place, n: usize) -> Place
    requires { (p.at + n ≤ p.end) × (p.offset + n < 18446744073709551616) }
    ensures { result ≡ behind p n }
{
    Place {
        at: p.at + n,
        end: p.end,
        offset: p.offset + n,
    }
}

// The message in front and the place behind it; or the stop; or nothing yet.
#[tactic(auto, unfolding(crate::specs::Stream::yielded, crate::specs::Stream::yielded_open))]
pub fn next(buf: &[u8], p: Place) -> Result<Option<Yielded>, Halt>
    ensures { result ≡ yielded buf.now p }
{
    gate_of(buf.len(), p)?;
    let held = held(buf, p);
    if let Some(length) = whole_length(held) {
        let place = behind(p, length);
        return Ok(Some(Yielded { length, place }));
    }
    if is_stopped(held) {
        return Err(Halt::Stopped(p.offset));
    }
    Ok(None)
}

// That message, where it stands in the buffer; empty where none is yielded.
#[tactic(auto, unfolding(crate::specs::Stream::message_in))]
pub fn message(buf: &[u8], p: Place) -> &[u8]
    ensures { result.now ≡ message_in buf.now p }
{
    match gate_of(buf.len(), p) {
        Err(_) => &buf[..0],
        Ok(()) => {
            let held = held(buf, p);
            &held[..whole_length(held).unwrap_or(0)]
        }
    }
}

// Its length, by itself.
pub fn front(buf: &[u8], p: Place) -> Result<Option<usize>, Halt>
    ensures { result ≡ front buf.now p }
{
    Ok(next(buf, p)?.map(|y| y.length))
}

// The place behind it, by itself; where there is none, the place as it was.
pub fn passed(buf: &[u8], p: Place) -> Place
    ensures { result ≡ passed buf.now p }
{
    match next(buf, p) {
        Ok(Some(y)) => y.place,
        _ => p,
    }
}
