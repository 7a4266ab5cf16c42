// What an event sends: its message to each copy of a set, by rising number.
ghost use Rattle.std.specs.Prelude.{◌≡◌, cond, ◌+◌, ◌≤◌, ◌<◌, length};
ghost use Rattle.numbers.specs.Num.{splice};
ghost use Rattle.paper.specs.Message.{kind_of};
ghost use Rattle.rules.specs.Events.{addressed, messages_from};
ghost use Rattle.paper.specs.Vote.{member};
ghost use Rattle.wire.specs.Wire.{length_of, message_bytes};
ghost use Rattle.gate.specs.Out.{all_bytes, Turn};

use nouns::message::kind_of;
use nouns::vote::member;
use paper::Message;
use wire::{length_of, message_bytes};

fn addressed(m: Message, q: usize) -> Message
    requires { q < 7 }
    ensures { result ≡ addressed m q }
{
    Message { to: q as u8, ..m }
}

fn size_of(m: Message) -> usize
    ensures { result ≡ length_of (kind_of m.body) }
{
    length_of(kind_of(m.body) as usize)
}

// Copy q's turn: its message at `at`, if it is in the set; where the next one starts.
fn send_one(out: &mut [u8], at: usize, q: usize, to: u8, m: Message) -> usize
    requires { Turn to m (length out.old) at q }
    ensures answers { result ≡ cond (member q to) (at + length_of (kind_of m.body)) at }
    ensures room { out.new ≡ cond (member q to) (splice out.old at (message_bytes (addressed m q))) out.old }
{
    if !member(q, to) {
        return at;
    }
    message_bytes(out, at, addressed(m, q));
    at + size_of(m)
}

// Writes the messages one after the other at the front of the room; how many bytes they are.
pub fn send_all(out: &mut [u8], to: u8, m: Message) -> usize
    requires { (256 ≤ length out.old) × (length (all_bytes (messages_from 7 0 to m)) ≤ 246) }
    ensures answers { result ≡ length (all_bytes (messages_from 7 0 to m)) }
    ensures room { out.new ≡ splice out.old 0 (all_bytes (messages_from 7 0 to m)) }
{
    let mut at = 0;
    for q in 0..7 {
        at = send_one(&mut *out, at, q, to, m);
    }
    at
}
