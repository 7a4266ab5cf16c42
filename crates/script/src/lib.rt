// The words of a script. A line is one step:
//     copies 3, numbers 4                       begins a run of three blank copies with four numbers each
//     copy 0 requests write key 7 edit 100      or: requests read key 7, requests rewire key 7 to key 9 edit 100
//     deliver 0 to 1 · drop 0 to 1 · repeat 0 to 1      the oldest message on the way from 0 to 1
//     deliver 0 to 1 at 2                       it goes astray: it arrives at copy 2
//     damage 0 to 1 byte 15 as 9                it stays on the way; its byte 15, counted from 0, is 9 from now on
//     shorten 0 to 1 to 6 bytes                 it stays on the way; only its first 6 bytes are left
//     deliver all                               until nothing is on the way
//     cut copy 0 before saving                  its next step, that is; or: before sending, after 1 mark
//     cut copy 0 at byte 100 of its entry       100 bytes of the next event's entry reach the disk
//     cut copy 0 at byte 2 of mark 3            of the next hand-out's third mark, 2 bytes
//     stop copy 0 · restart copy 0
//     copy 2 recovers 0.1 · copy 0 nudges 0.1
//     copy 1 is asked about 0.1 · copy 1 hands out · copy 1 hands out up to 2
//     copy 1 begins its journal anew            with the table that it has now
//     show · show copy 1
// A line that begins with # is the story's text.
#![tactic(auto)]

pub mod line;

use paper::Op;

// An event at a copy; a message's bytes stand beside it.
#[derive(Clone, Copy)]
pub enum Event {
    Request {
        op: Op,
        key: u32,
        second: u32,
        edit: u64,
    },
    Message,
    Recover {
        o: usize,
        j: usize,
    },
    Nudge {
        o: usize,
        j: usize,
    },
}

// What a copy is told to do.
#[derive(Clone, Copy)]
pub enum Act {
    Event(Event),
    Ask { o: usize, j: usize },
    HandOut(usize),
    Anew,
}

// What becomes of a message.
#[derive(Clone, Copy)]
pub enum Fate {
    Deliver,
    Stray(usize),
    Drop,
    Repeat,
    Damage { at: usize, byte: u8 },
    Shorten(usize),
}

// When a copy is cut off in its next step. `Entry`: so many bytes of an event's entry are saved; `Marks`: so many
// marks of a hand-out, and bytes of the next one.
#[derive(Clone, Copy)]
pub enum Moment {
    Saving,
    Sending,
    Entry(usize),
    Marks { whole: usize, bytes: usize },
}

// Why a step is not taken.
#[derive(Clone, Copy)]
pub enum Reason {
    Word,
    Copies,
    Copy,
    Way,
    Damage,
    Cut,
    Restart,
    Show,
    NoRun,
    Setup,
    NoCopy,
    IsDown,
    IsUp,
    NoMessage,
    NoByte,
    ByteValue,
    NoEntryByte,
    WayFull,
    Restless,
}

// What a line says.
#[derive(Clone, Copy)]
pub enum Step {
    Text,
    Copies { n: usize, s: usize },
    At(usize, Act),
    Way { from: usize, to: usize, fate: Fate },
    All,
    Cut(usize, Moment),
    Stop(usize),
    Restart(usize),
    Show,
    ShowCopy(usize),
}
