// Request, a received message, recover and nudge.
ghost use Rattle.std.specs.Prelude.{◌≡◌};
ghost use Rattle.gate.specs.Events.{requested, received, recovered, nudged, answer_number};
ghost use Rattle.pumxaqert.specs.Flat.{answer_values};

use gate::Event;
use nouns::refusal::{number_of, offset_in};
use paper::Refusal;

// The refusal's number with the offset of a bad field, or 0 with the instance and the bytes written.
fn give(a: Result<Event, Refusal>, values: &mut [usize; 4]) -> u32
    ensures number { result ≡ answer_number a }
    ensures values { values.new ≡ answer_values a }
{
    match a {
        Ok(event) => {
            *values = [event.owner, event.number, event.written, 0];
            0
        }
        Err(why) => {
            *values = [0, 0, 0, offset_in(why)];
            number_of(why)
        }
    }
}

#[unsafe(no_mangle)]
pub extern "C" fn pumxaqert_request(
    table: &mut [u8],
    n: usize,
    s: usize,
    c: usize,
    out: &mut [u8],
    op: usize,
    key: u32,
    second: u32,
    edit: u64,
    values: &mut [usize; 4],
) -> u32
    ensures number { result ≡ answer_number (requested n s c table.old out.old op key second edit).answer }
    ensures values { values.new ≡ answer_values (requested n s c table.old out.old op key second edit).answer }
    ensures table { table.new ≡ (requested n s c table.old out.old op key second edit).table }
    ensures room { out.new ≡ (requested n s c table.old out.old op key second edit).out }
{
    give(
        request::ask::request(table, n, s, c, out, op, key, second, edit),
        values,
    )
}

#[unsafe(no_mangle)]
pub extern "C" fn pumxaqert_message(
    table: &mut [u8],
    n: usize,
    s: usize,
    c: usize,
    out: &mut [u8],
    bytes: &[u8],
    values: &mut [usize; 4],
) -> u32
    ensures number { result ≡ answer_number (received n s c table.old out.old bytes.now).answer }
    ensures values { values.new ≡ answer_values (received n s c table.old out.old bytes.now).answer }
    ensures table { table.new ≡ (received n s c table.old out.old bytes.now).table }
    ensures room { out.new ≡ (received n s c table.old out.old bytes.now).out }
{
    give(
        receive::message::message(table, n, s, c, out, bytes),
        values,
    )
}

#[unsafe(no_mangle)]
pub extern "C" fn pumxaqert_recover(
    table: &mut [u8],
    n: usize,
    s: usize,
    c: usize,
    out: &mut [u8],
    owner: usize,
    number: usize,
    values: &mut [usize; 4],
) -> u32
    ensures number { result ≡ answer_number (recovered n s c table.old out.old owner number).answer }
    ensures values { values.new ≡ answer_values (recovered n s c table.old out.old owner number).answer }
    ensures table { table.new ≡ (recovered n s c table.old out.old owner number).table }
    ensures room { out.new ≡ (recovered n s c table.old out.old owner number).out }
{
    give(recover::recover(table, n, s, c, out, owner, number), values)
}

#[unsafe(no_mangle)]
pub extern "C" fn pumxaqert_nudge(
    table: &mut [u8],
    n: usize,
    s: usize,
    c: usize,
    out: &mut [u8],
    owner: usize,
    number: usize,
    values: &mut [usize; 4],
) -> u32
    ensures number { result ≡ answer_number (nudged n s c table.old out.old owner number).answer }
    ensures values { values.new ≡ answer_values (nudged n s c table.old out.old owner number).answer }
    ensures table { table.new ≡ (nudged n s c table.old out.old owner number).table }
    ensures room { out.new ≡ (nudged n s c table.old out.old owner number).out }
{
    give(nudge::nudge(table, n, s, c, out, owner, number), values)
}
