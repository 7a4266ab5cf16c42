// Which copies are up, the cut that awaits each, and where its journal ends.
use crate::{Known, Scene};
use script::Moment;

// A run of n blank copies: all are up, no cut awaits one, and nothing is on the way.
pub fn begun(n: usize, s: usize) -> Scene {
    Scene {
        n,
        s,
        waiting: 0,
        sent: 0,
        copies: [Known::default(); 7],
    }
}

fn known(w: Scene, c: usize) -> Known {
    w.copies.get(c).copied().unwrap_or_default()
}

fn with_known(mut w: Scene, c: usize, what: Known) -> Scene {
    if let Some(copy) = w.copies.get_mut(c) {
        *copy = what;
    }
    w
}

pub fn is_down(w: Scene, c: usize) -> bool {
    known(w, c).down
}

// The copy is cut off: it is down, and no cut awaits it any more.
pub fn stopped(w: Scene, c: usize) -> Scene {
    let end = end_of(w, c);
    with_known(
        w,
        c,
        Known {
            down: true,
            cut: None,
            end,
        },
    )
}

pub fn restarted(w: Scene, c: usize) -> Scene {
    let down = false;
    with_known(
        w,
        c,
        Known {
            down,
            ..known(w, c)
        },
    )
}

// The copy's next step will be cut; one that is cut inside an entry of some kind is the next that has one.
pub fn awaiting(w: Scene, c: usize, when: Moment) -> Scene {
    let cut = Some(when);
    with_known(w, c, Known { cut, ..known(w, c) })
}

// An event is cut off before its entry is whole; it may have none.
pub fn cut_before_saving(w: Scene, c: usize, has_entry: bool) -> bool {
    match known(w, c).cut {
        Some(Moment::Saving) => true,
        Some(Moment::Entry(_)) => has_entry,
        _ => false,
    }
}

pub fn cut_before_sending(w: Scene, c: usize) -> bool {
    matches!(known(w, c).cut, Some(Moment::Sending))
}

// How many bytes of the entry that the cut falls into are saved.
pub fn bytes_saved(w: Scene, c: usize) -> usize {
    match known(w, c).cut {
        Some(Moment::Entry(bytes)) => bytes,
        Some(Moment::Marks { whole: _, bytes }) => bytes,
        _ => 0,
    }
}

// How many marks a hand-out saves, and, where the copy is cut off behind them, how many bytes of the next.
#[derive(Clone, Copy)]
pub struct Marks {
    pub count: usize,
    pub cut: Option<usize>,
}

pub fn marks_saved(w: Scene, c: usize, listed: usize) -> Marks {
    let (count, cut) = match known(w, c).cut {
        Some(Moment::Saving) => (0, Some(0)),
        Some(Moment::Sending) => (listed, Some(0)),
        Some(Moment::Marks { whole, bytes }) if whole < listed => (whole, Some(bytes)),
        Some(Moment::Marks { .. }) => (listed, Some(0)),
        _ => (listed, None),
    };
    Marks { count, cut }
}

pub fn end_of(w: Scene, c: usize) -> usize {
    known(w, c).end
}

pub fn with_end(w: Scene, c: usize, end: usize) -> Scene {
    with_known(w, c, Known { end, ..known(w, c) })
}
