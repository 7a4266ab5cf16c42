// One line of the script.
use course::ask::{ask, hand_out};
use course::deliver::{between, deliver_all};
use course::restart::{begin_journal, restart};
use course::turn::Turn;
use course::work::event;
use entries::Kind;
use journal::entry::kind_length;
use nouns::setup::setup_ok;
use say::show::{show_all, show_copy};
use say::value::say;
use scene::Scene;
use scene::copies::{awaiting, begun, is_down, stopped};
use scene::disks::blank_all;
use script::line::step_of;
use script::{Act, Moment, Reason, Step};
use text::put::{empty, finish, put_bytes};

fn copies(all: &mut [u8], w: Scene, n: usize, s: usize) -> Turn {
    if !setup_ok(n, s, 0) {
        return Err(Reason::Setup);
    }
    let next = begun(n, s);
    blank_all(all, next);
    Ok(next)
}

// What a copy is told to do; no message is handed in with it.
fn act(all: &mut [u8], w: Scene, c: usize, what: Act) -> Turn {
    if is_down(w, c) {
        return Err(Reason::IsDown);
    }
    match what {
        Act::Event(what) => event(all, w, c, what, &[]),
        Act::Ask { o, j } => ask(&*all, w, c, o, j),
        Act::HandOut(room) => hand_out(all, w, c, room),
        Act::Anew => begin_journal(all, w, c),
    }
}

// An entry has the byte that the cut falls at.
fn has_byte(when: Moment) -> bool {
    match when {
        Moment::Entry(bytes) => bytes < kind_length(Kind::Record),
        Moment::Marks { whole: _, bytes } => bytes < kind_length(Kind::Mark),
        Moment::Saving | Moment::Sending => true,
    }
}

fn cut(w: Scene, c: usize, when: Moment) -> Turn {
    if is_down(w, c) {
        return Err(Reason::IsDown);
    }
    if !has_byte(when) {
        return Err(Reason::NoEntryByte);
    }
    Ok(awaiting(w, c, when))
}

fn stop(w: Scene, c: usize) -> Turn {
    if is_down(w, c) {
        return Err(Reason::IsDown);
    }
    say(b"  copy # stops", [c]);
    Ok(stopped(w, c))
}

// The copy that a step names.
fn named(step: Step) -> usize {
    match step {
        Step::At(c, _) => c,
        Step::Cut(c, _) => c,
        Step::Stop(c) => c,
        Step::Restart(c) => c,
        Step::ShowCopy(c) => c,
        _ => 0,
    }
}

// A step at one copy.
fn play_copy(all: &mut [u8], w: Scene, step: Step) -> Turn {
    if w.n <= named(step) {
        return Err(Reason::NoCopy);
    }
    match step {
        Step::At(c, what) => act(all, w, c, what),
        Step::Cut(c, when) => cut(w, c, when),
        Step::Stop(c) => stop(w, c),
        Step::Restart(c) => restart(all, w, c),
        Step::ShowCopy(c) => {
            show_copy(&*all, w, c);
            Ok(w)
        }
        _ => Ok(w),
    }
}

// A step of a run that has begun.
fn play_step(all: &mut [u8], w: Scene, step: Step) -> Turn {
    if w.n == 0 {
        return Err(Reason::NoRun);
    }
    match step {
        Step::Way { from, to, fate } => between(all, w, from, to, fate),
        Step::All => deliver_all(all, w),
        Step::Show => {
            show_all(&*all, w);
            Ok(w)
        }
        _ => play_copy(all, w, step),
    }
}

// The line stands in what is written, above what came of it.
pub fn play_line(line: &[u8], w: Scene, all: &mut [u8]) -> Turn {
    finish(put_bytes(empty(), line));
    let step = step_of(line)?;
    match step {
        Step::Text => Ok(w),
        Step::Copies { n, s } => copies(all, w, n, s),
        _ => play_step(all, w, step),
    }
}
