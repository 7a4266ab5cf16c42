// The settled question and the hand-out.
ghost use Rattle.std.specs.Prelude.{◌≡◌, Ok};
ghost use Rattle.order.specs.Calls.{settled, handed, settling_number, handing_number};
ghost use Rattle.order.specs.Calls.{settling_values, handing_count};

use nouns::command::op_number;
use nouns::refusal::number_of;
use order::Settling;

fn settling_values(answer: Settling) -> [u64; 5]
    ensures { result ≡ settling_values (Ok answer) }
{
    match answer {
        Settling::Settled(k) => [
            1,
            op_number(k.op) as u64,
            u64::from(k.key),
            u64::from(k.second),
            k.edit,
        ],
        Settling::Waits(first) => [0, first.owner as u64, first.number as u64, 0, 0],
    }
}

#[unsafe(no_mangle)]
pub extern "C" fn pumxaqert_settled(
    table: &[u8],
    n: usize,
    s: usize,
    c: usize,
    owner: usize,
    number: usize,
    values: &mut [u64; 5],
) -> u32
    ensures number { result ≡ settling_number (settled n s c table.now owner number) }
    ensures values { values.new ≡ settling_values (settled n s c table.now owner number) }
{
    let x = order::settled::settled(table, n, s, c, owner, number);
    match x {
        Ok(answer) => {
            *values = settling_values(answer);
            0
        }
        Err(why) => {
            *values = [0, 0, 0, 0, 0];
            number_of(why)
        }
    }
}

#[unsafe(no_mangle)]
pub extern "C" fn pumxaqert_hand_out(
    table: &mut [u8],
    n: usize,
    s: usize,
    c: usize,
    list: &mut [u16],
    codes: &mut usize,
) -> u32
    ensures number { result ≡ handing_number (handed n s c table.old list.old).answer }
    ensures codes { codes.new ≡ handing_count (handed n s c table.old list.old).answer }
    ensures table { table.new ≡ (handed n s c table.old list.old).table }
    ensures list { list.new ≡ (handed n s c table.old list.old).list }
{
    let x = order::hand_out::hand_out(table, n, s, c, list);
    match x {
        Ok(k) => {
            *codes = k;
            0
        }
        Err(why) => {
            *codes = 0;
            number_of(why)
        }
    }
}
