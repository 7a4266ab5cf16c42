// A copy that was cut off starts again, and a journal begins anew.
use crate::turn::Turn;
use entries::Unreplayed;
use say::restart::{say_bad, say_replayed, say_unreplayed};
use say::value::say;
use scene::Scene;
use scene::copies::{end_of, is_down, restarted};
use scene::disks::{begin_anew, journal_of, restore, saved};
use script::Reason;
use storage::is_full;

// The entries up to an offset are in the table; what stands there is cut off before more is written.
fn go_on(all: &mut [u8], w: Scene, c: usize, table: &[u8], at: usize) -> Turn {
    say_replayed(c, journal_of(&*all, w, c), at);
    say(b"  copy # goes on with what it saved", [c]);
    Ok(restarted(restore(all, w, c, table, at), c))
}

// The copy starts again by what its disk has, whatever it worked on before; it stays down if that is refused.
pub fn restart(all: &mut [u8], w: Scene, c: usize) -> Turn {
    if !is_down(w, c) {
        return Err(Reason::IsUp);
    }
    let disk = saved(&*all, w, c);
    let table = disk.table;
    let answer = disk.answer;
    match answer {
        Ok(at) => go_on(all, w, c, &table, at),
        Err(Unreplayed::Bad(bad)) => {
            say_bad(c, bad);
            Ok(w)
        }
        Err(Unreplayed::Refused(why)) => {
            say_unreplayed(c, why);
            Ok(w)
        }
    }
}

fn anew(all: &mut [u8], w: Scene, c: usize) -> Scene {
    say(
        b"  copy # saves its table, and begins its journal anew",
        [c],
    );
    begin_anew(all, w, c)
}

pub fn begin_journal(all: &mut [u8], w: Scene, c: usize) -> Turn {
    Ok(anew(all, w, c))
}

// Before a step: its entries have to have room.
pub fn with_room(all: &mut [u8], w: Scene, c: usize) -> Scene {
    if !is_full(end_of(w, c)) {
        return w;
    }
    anew(all, w, c)
}
