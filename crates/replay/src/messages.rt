// The calls on messages: read and write, and every field of a message in the order of the line.
use crate::play::{Line, Setup};
use codec::op_of;
use nouns::command::op_number;
use nouns::message::{body_of, command_in, joined_in, kind_of, status_in, voted_in};
use paper::{Body, Carried, Command, Message, Op, Refusal};
use text::bytes::front_mut;
use text::forms::{BYTES, NUMBERS, Read};
use text::put::{Text, bad_line, empty, put_bytes, put_form, put_hex, put_number, put_refused};

fn put_names(out: Text, m: Message) -> Text {
    let body = m.body;
    let copies = [kind_of(body), m.from, m.to, m.owner].map(usize::from);
    let named = put_form(out, b" # # # #", copies);
    put_form(named, b" # #", [m.number as usize, m.ballot as usize])
}

// What only some kinds carry, 0 where this one does not.
fn put_body(out: Text, body: Body) -> Text {
    let k = command_in(body);
    let told = [
        voted_in(body) as usize,
        status_in(body) as usize,
        joined_in(body) as usize,
    ];
    let v = [
        op_number(k.op),
        k.key as usize,
        k.second as usize,
        k.edit as usize,
    ];
    put_form(put_form(out, b" # # #", told), b" # # # #", v)
}

fn put_deps(mut out: Text, deps: [u16; 7]) -> Text {
    for j in deps {
        out = put_number(out, j as usize);
    }
    out
}

// Every field of a message, in the order of the line.
fn put_message(out: Text, m: Message) -> Text {
    put_deps(put_body(put_names(out, m), m.body), m.deps)
}

// The message written again, into a room of 256 bytes.
fn put_again(out: Text, w: Setup, m: Message) -> Text {
    let mut room = [0u8; 256];
    match wire::write_message(w.n, w.s, w.c, &mut room, m) {
        Ok(k) => put_hex(out, &room, k),
        Err(why) => put_refused(out, why),
    }
}

fn put_read(m: Message, w: Setup) -> Text {
    let told = put_bytes(empty(), b"= message");
    put_again(put_message(told, m), w, m)
}

fn read_bytes(b: &[u8], w: Setup) -> Text {
    match wire::read_message(w.n, w.s, w.c, b) {
        Ok(m) => put_read(m, w),
        Err(why) => put_refused(put_bytes(empty(), b"="), why),
    }
}

// C read BYTES
pub fn read(got: &Read<Line>, w: Setup) -> Text {
    read_bytes(got.bytes.as_slice(), w)
}

// The op of a number, if there is one.
fn op_named(x: usize) -> Option<Op> {
    let op = op_of(u8::try_from(x).ok()?);
    if op_number(op) == x { Some(op) } else { None }
}

fn command_of(v: [usize; NUMBERS]) -> Option<Command> {
    Some(Command {
        op: op_named(v[11])?,
        key: u32::try_from(v[12]).ok()?,
        second: u32::try_from(v[13]).ok()?,
        edit: v[14] as u64,
    })
}

// What the line gives for every part; the body takes what its kind carries.
fn carried_of(v: [usize; NUMBERS]) -> Option<Carried> {
    Some(Carried {
        voted: u32::try_from(v[8]).ok()?,
        status: u8::try_from(v[9]).ok()?,
        command: command_of(v)?,
        joined: u32::try_from(v[10]).ok()?,
    })
}

// The kind of the line is the one that its body has with its command.
fn body_in(v: [usize; NUMBERS]) -> Option<Body> {
    let body = body_of(v[2], carried_of(v)?);
    if kind_of(body) as usize == v[2] {
        Some(body)
    } else {
        None
    }
}

fn deps_of(v: [usize; NUMBERS]) -> Option<[u16; 7]> {
    let mut deps = [0u16; 7];
    for (d, &j) in deps.iter_mut().zip(&v[15..]) {
        *d = u16::try_from(j).ok()?;
    }
    Some(deps)
}

// The message of the line, if every number fits its field.
fn message_of(v: [usize; NUMBERS]) -> Option<Message> {
    Some(Message {
        from: u8::try_from(v[3]).ok()?,
        to: u8::try_from(v[4]).ok()?,
        owner: u8::try_from(v[5]).ok()?,
        number: u16::try_from(v[6]).ok()?,
        ballot: u32::try_from(v[7]).ok()?,
        body: body_in(v)?,
        deps: deps_of(v)?,
    })
}

fn put_writing(answer: Result<usize, Refusal>) -> Text {
    match answer {
        Ok(k) => put_number(put_bytes(empty(), b"= written"), k),
        Err(why) => put_refused(put_bytes(empty(), b"="), why),
    }
}

// The answer, and the whole room after the call.
fn write_to(room: &mut [u8], w: Setup, m: Message) -> Text {
    let answer = wire::write_message(w.n, w.s, w.c, &mut *room, m);
    put_hex(put_writing(answer), &*room, room.len())
}

// C write ROOM KIND FROM TO OWNER NUMBER BALLOT VOTED STATUS JOINED OP KEY SECOND EDIT D0 .. D6
pub fn write(got: &Read<Line>, w: Setup) -> Text {
    let mut room = [0xEEu8; BYTES];
    let length = got.v[1];
    match message_of(got.v) {
        Some(m) if length <= BYTES => write_to(front_mut(&mut room, length), w, m),
        _ => bad_line(),
    }
}
