// A record: who holds what, with which status and ballots.
use crate::value::put_proposal;
use nouns::vote::member;
use paper::{Record, Vote};
use record::places::LENGTH;
use text::put::{Text, put_bytes, put_form, put_number, put_text};

// The texts of a status, a phase and a mark, in the order of the paper's numbers.
const STATUSES: [&[u8]; 5] = [
    b"no vote",
    b"pre-accepted with dependencies added here",
    b"pre-accepted as received",
    b"accepted",
    b"committed",
];

const PHASES: [&[u8]; 4] = [b"", b", preparing", b", pre-accepting", b", accepting"];

const MARKS: [&[u8]; 2] = [b"", b", handed out"];

// The copies that have replied.
fn put_members(mut out: Text, set: u8) -> Text {
    for q in 0..7 {
        if member(q, set) {
            out = put_number(out, q);
        }
    }
    out
}

fn put_replies(out: Text, set: u8) -> Text {
    if set == 0 {
        return out;
    }
    put_members(put_bytes(out, b", replies from"), set)
}

// A vote, with these bytes before what was voted for.
pub fn put_vote(out: Text, n: usize, vote: Vote, between: &[u8]) -> Text {
    let told = put_text(out, &STATUSES, vote.status as usize);
    if vote.status == 0 {
        return told;
    }
    put_proposal(put_bytes(told, between), n, vote.command, vote.deps)
}

// What a copy does with its record: what it leads, who has replied, whether the instance is handed out.
fn put_state(out: Text, phase: u8, set: u8, mark: u8) -> Text {
    let leads = put_text(out, &PHASES, phase as usize);
    put_text(put_replies(leads, set), &MARKS, mark as usize)
}

fn put_record(out: Text, n: usize, r: Record) -> Text {
    let vote = r.vote;
    let told = put_vote(out, n, vote, b" ");
    let v = [r.joined as usize, vote.voted as usize];
    let ballots = put_form(told, b", joined #, voted #", v);
    put_state(ballots, r.phase, r.set, r.mark)
}

// The record in the part of the table that holds it.
pub fn put_part(out: Text, n: usize, part: &[u8]) -> Text {
    if part.len() < LENGTH {
        return out;
    }
    put_record(out, n, record::read_record(part))
}

// Nothing has happened to the record yet.
pub fn is_blank(part: &[u8]) -> bool {
    part.iter().all(|&b| b == 0)
}
