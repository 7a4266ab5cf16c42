// The reader and the writer.
ghost use Rattle.std.specs.Prelude.{◌≡◌};
ghost use Rattle.wire.specs.Calls.{read_message, reading_number, reading_offset, writing_number, writing_count, writing_offset};
ghost use Rattle.pumxaqert.specs.Fields.{read_values, wrote_fields};

use crate::fields::{fields_of, message_from, misfit, same_fields};
use nouns::refusal::{number_of, offset_in};
use nouns::setup::setup_ok;
use paper::Refusal;

#[unsafe(no_mangle)]
pub extern "C" fn pumxaqert_read_message(
    n: usize,
    s: usize,
    c: usize,
    bytes: &[u8],
    fields: &mut [u64; 19],
    offset: &mut usize,
) -> u32
    ensures number { result ≡ reading_number (read_message n s c bytes.now) }
    ensures fields { fields.new ≡ read_values (read_message n s c bytes.now) }
    ensures offset { offset.new ≡ reading_offset (read_message n s c bytes.now) }
{
    match wire::read_message(n, s, c, bytes) {
        Ok(m) => {
            *fields = fields_of(m);
            *offset = 0;
            0
        }
        Err(why) => {
            *fields = [0; 19];
            *offset = offset_in(why);
            number_of(why)
        }
    }
}

// Writes what these numbers say.
fn write_fields(
    n: usize,
    s: usize,
    c: usize,
    out: &mut [u8],
    f: &[u64; 19],
) -> Result<usize, Refusal>
    ensures answers { result ≡ (wrote_fields n s c out.old f.now).answer }
    ensures room { out.new ≡ (wrote_fields n s c out.old f.now).out }
{
    let m = message_from(f);
    let g = fields_of(m);
    if same_fields(f, &g) {
        return wire::write_message(n, s, c, out, m);
    }
    if !setup_ok(n, s, c) {
        return Err(Refusal::Setup);
    }
    if out.len() < 256 {
        return Err(Refusal::Room);
    }
    Err(misfit(f))
}

#[unsafe(no_mangle)]
pub extern "C" fn pumxaqert_write_message(
    n: usize,
    s: usize,
    c: usize,
    out: &mut [u8],
    fields: &[u64; 19],
    written: &mut usize,
    offset: &mut usize,
) -> u32
    ensures number { result ≡ writing_number (wrote_fields n s c out.old fields.now).answer }
    ensures count { written.new ≡ writing_count (wrote_fields n s c out.old fields.now).answer }
    ensures offset { offset.new ≡ writing_offset (wrote_fields n s c out.old fields.now).answer }
    ensures room { out.new ≡ (wrote_fields n s c out.old fields.now).out }
{
    match write_fields(n, s, c, out, fields) {
        Ok(k) => {
            *written = k;
            *offset = 0;
            0
        }
        Err(why) => {
            *written = 0;
            *offset = offset_in(why);
            number_of(why)
        }
    }
}
