// A message by its name and fields.
use crate::held::put_vote;
use crate::value::{put_deps, put_proposal};
use nouns::message::kind_of;
use paper::{Body, Command, Message, Vote};
use text::put::{Text, put_bytes, put_form, put_hex, put_text};

fn put_carried(out: Text, n: usize, k: Command, deps: [u16; 7]) -> Text {
    put_proposal(put_bytes(out, b": "), n, k, deps)
}

fn put_told(out: Text, n: usize, vote: Vote) -> Text {
    let told = put_form(out, b": voted #, ", [vote.voted as usize]);
    put_vote(told, n, vote, b", ")
}

// What only some kinds carry.
fn put_body(out: Text, n: usize, body: Body, deps: [u16; 7]) -> Text {
    match body {
        Body::PreAccept(k) => put_carried(out, n, k, deps),
        Body::PreAcceptOk => put_deps(put_bytes(out, b": "), n, deps),
        Body::Accept(k) => put_carried(out, n, k, deps),
        Body::Commit(k) => put_carried(out, n, k, deps),
        Body::PrepareOk {
            voted,
            status,
            command,
        } => {
            let vote = Vote {
                voted,
                status,
                command,
                deps,
            };
            put_told(out, n, vote)
        }
        Body::Nack(joined) => put_form(out, b": joined #", [joined as usize]),
        _ => out,
    }
}

// The kinds' names, in the order of the paper's numbers; those of a rewire are named as the others.
const KINDS: [&[u8]; 13] = [
    b"",
    b"PreAccept",
    b"PreAcceptOK",
    b"Accept",
    b"AcceptOK",
    b"Commit",
    b"Prepare",
    b"PrepareOK",
    b"Nack",
    b"PreAccept",
    b"Accept",
    b"Commit",
    b"PrepareOK",
];

pub fn put_kind(out: Text, k: usize) -> Text {
    put_text(out, &KINDS, k)
}

fn put_fields(out: Text, n: usize, m: Message) -> Text {
    let name = put_kind(out, kind_of(m.body) as usize);
    let v = [m.owner as usize, m.number as usize, m.ballot as usize];
    put_body(put_form(name, b" #.# ballot #", v), n, m.body, m.deps)
}

// The message in these bytes, as copy c reads it; the bytes where it cannot.
pub fn put_message(out: Text, n: usize, s: usize, c: usize, b: &[u8]) -> Text {
    match wire::read_message(n, s, c, b) {
        Ok(m) => put_fields(out, n, m),
        Err(_) => put_hex(put_bytes(out, b"invalid bytes"), b, b.len()),
    }
}
