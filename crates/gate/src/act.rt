// What every event does last: its record is put, its messages are written.
ghost use Rattle.std.specs.Prelude.{◌≡◌, ◌≤◌, length};
ghost use Rattle.numbers.specs.Num.{splice};
ghost use Rattle.table.specs.Sizes.{Has};
ghost use Rattle.table.specs.Table.{put_record};
ghost use Rattle.gate.specs.Events.{event_of};
ghost use Rattle.gate.specs.Out.{out_bytes};

use crate::Event;
use crate::send::send_all;
use paper::Refusal;
use rules::Step;
use table::records::store;

pub fn act(
    t: &mut [u8],
    out: &mut [u8],
    n: usize,
    s: usize,
    o: usize,
    j: usize,
    x: Step,
) -> Result<Event, Refusal>
    requires { Has n s o j t.old × (256 ≤ length out.old) × (length (out_bytes x) ≤ 246) }
    ensures answers { result ≡ event_of o j (length (out_bytes x)) }
    ensures table { t.new ≡ put_record s t.old o j x.entry }
    ensures room { out.new ≡ splice out.old 0 (out_bytes x) }
{
    store(t, n, s, o, j, x.entry);
    let written = send_all(out, x.to, x.message);
    Ok(Event {
        owner: o,
        number: j,
        written,
    })
}
