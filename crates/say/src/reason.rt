// Why a script's line is not played.
use script::Reason;
use text::put::{Text, put_bytes};

// First the words that a line of some kind may have.
fn words(why: Reason) -> &'static [u8] {
    match why {
        Reason::Word => {
            b"a line begins with copies, copy, deliver, drop, repeat, damage, shorten, cut, stop, restart, show or #"
        }
        Reason::Copies => b"say: copies 3, numbers 4",
        Reason::Copy => {
            b"say: copy 0 requests write key 7 edit 100, requests read key 7, requests rewire key 7 to key 9 edit 100, \
            recovers 0.1, nudges 0.1, is asked about 0.1, hands out, hands out up to 2, or begins its journal anew"
        }
        Reason::Way => {
            b"say: deliver 0 to 1, deliver 0 to 1 at 2, deliver all, drop 0 to 1, or repeat 0 to 1"
        }
        Reason::Damage => b"say: damage 0 to 1 byte 15 as 9, or shorten 0 to 1 to 6 bytes",
        Reason::Cut => {
            b"say: cut copy 0 before saving, before sending, after 1 mark, at byte 100 of its entry, or at byte 2 of mark 1"
        }
        Reason::Restart => b"say: stop copy 0, or restart copy 0",
        Reason::Show => b"say: show, or show copy 0",
        Reason::NoRun => b"there are no copies yet: begin with copies 3, numbers 4",
        Reason::Setup => b"there are 3, 5 or 7 copies, and 1 to 64 numbers",
        Reason::NoCopy => b"there is no such copy",
        Reason::IsDown => b"the copy is down: restart it first",
        Reason::IsUp => b"the copy is up",
        Reason::NoMessage => b"no message is on the way between the two",
        Reason::NoByte => b"the message has fewer bytes",
        Reason::ByteValue => b"a byte is 0 to 255",
        Reason::NoEntryByte => b"the entry has fewer bytes",
        Reason::WayFull => b"more than 512 messages are on the way",
        Reason::Restless => b"the copies do not come to rest",
    }
}

pub fn put_reason(out: Text, why: Reason) -> Text {
    put_bytes(out, words(why))
}
