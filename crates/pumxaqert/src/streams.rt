// Messages off a stream.
ghost use Rattle.std.specs.Prelude.{◌≡◌, length};
ghost use Rattle.stream.specs.Place.{begun};
ghost use Rattle.stream.specs.Stream.{taken, place_after, yielded, passed, begun_number, took_number, took_values, found_number, found_values};
ghost use Rattle.pumxaqert.specs.Streams.{place_from, place_numbers, begun_place};

use nouns::refusal::number_of;
use stream::place::{Halt, Place};

fn place_from(f: &[usize; 3]) -> Place
    ensures { result ≡ place_from f.now }
{
    Place {
        at: f[0],
        end: f[1],
        offset: f[2],
    }
}

fn place_numbers(p: Place) -> [usize; 3]
    ensures { result ≡ place_numbers p }
{
    [p.at, p.end, p.offset]
}

#[unsafe(no_mangle)]
pub extern "C" fn pumxaqert_stream_begin(buf: &[u8], place: &mut [usize; 3]) -> u32
    ensures number { result ≡ begun_number (begun (length buf.now)) }
    ensures place { place.new ≡ begun_place (begun (length buf.now)) place.old }
{
    match stream::place::begin(buf) {
        Ok(p) => {
            *place = place_numbers(p);
            0
        }
        Err(why) => number_of(why),
    }
}

// The refusal's number, or 0 with how many bytes were taken, or the stop.
#[unsafe(no_mangle)]
pub extern "C" fn pumxaqert_stream_take(
    buf: &mut [u8],
    place: &mut [usize; 3],
    bytes: &[u8],
    values: &mut [usize; 3],
) -> u32
    ensures number { result ≡ took_number (taken buf.old (place_from place.old) bytes.now).told }
    ensures values { values.new ≡ took_values (taken buf.old (place_from place.old) bytes.now).told }
    ensures place { place.new ≡ place_numbers (place_after (place_from place.old) (taken buf.old (place_from place.old) bytes.now).told) }
    ensures buffer { buf.new ≡ (taken buf.old (place_from place.old) bytes.now).buffer }
{
    let p = place_from(&*place);
    match stream::taking::take(buf, p, bytes) {
        Ok(taken) => {
            *place = place_numbers(taken.place);
            *values = [taken.count, 0, 0];
            0
        }
        Err(Halt::Stopped(offset)) => {
            *values = [0, 1, offset];
            0
        }
        Err(Halt::Refused(why)) => {
            *values = [0, 0, 0];
            number_of(why)
        }
    }
}

// The refusal's number, or 0 with where a message stands in the buffer, or the stop.
#[unsafe(no_mangle)]
pub extern "C" fn pumxaqert_stream_next(
    buf: &[u8],
    place: &mut [usize; 3],
    values: &mut [usize; 3],
) -> u32
    ensures number { result ≡ found_number (yielded buf.now (place_from place.old)) }
    ensures values { values.new ≡ found_values (place_from place.old).at (yielded buf.now (place_from place.old)) }
    ensures place { place.new ≡ place_numbers (passed buf.now (place_from place.old)) }
{
    let p = place_from(&*place);
    match stream::yielding::next(buf, p) {
        Ok(Some(yielded)) => {
            *place = place_numbers(yielded.place);
            *values = [1, p.at, yielded.length];
            0
        }
        Ok(None) => {
            *values = [0, 0, 0];
            0
        }
        Err(Halt::Stopped(offset)) => {
            *values = [2, offset, 0];
            0
        }
        Err(Halt::Refused(why)) => {
            *values = [0, 0, 0];
            number_of(why)
        }
    }
}
