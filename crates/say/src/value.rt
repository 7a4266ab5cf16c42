// Commands, dependencies, refusals, and lines with numbers.
use paper::{Command, Op, Refusal};
use text::put::{Text, empty, finish, put_byte, put_bytes, put_form, put_refused};

// The beginning of a line by its form.
pub fn begin<const K: usize>(form: &[u8], v: [usize; K]) -> Text {
    put_form(empty(), form, v)
}

// A whole line by its form.
pub fn say<const K: usize>(form: &[u8], v: [usize; K]) {
    finish(begin(form, v));
}

pub fn put_command(out: Text, k: Command) -> Text {
    let key = k.key as usize;
    let second = k.second as usize;
    let edit = k.edit as usize;
    match k.op {
        Op::Noop => put_bytes(out, b"no-op"),
        Op::Read => put_form(out, b"read key #", [key]),
        Op::Write => put_form(out, b"write key # edit #", [key, edit]),
        Op::Rewire => put_form(out, b"rewire key # to key # edit #", [key, second, edit]),
    }
}

// The entries of copies 0 to N-1, in brackets.
pub fn put_deps(mut out: Text, n: usize, deps: [u16; 7]) -> Text {
    for (q, &j) in deps.iter().take(n).enumerate() {
        let form = if q == 0 { b"(#" } else { b",#" };
        out = put_form(out, form, [j as usize]);
    }
    put_byte(out, b')')
}

// A command and its dependencies.
pub fn put_proposal(out: Text, n: usize, k: Command, deps: [u16; 7]) -> Text {
    put_deps(put_bytes(put_command(out, k), b" after "), n, deps)
}

// What a refusal means; of a message's bytes `wrong` has more to tell.
fn meaning(why: Refusal) -> &'static [u8] {
    match why {
        Refusal::Setup => b": the setup is not the table's",
        Refusal::Room => b": there is no room for messages",
        Refusal::Op => b": only reads, writes and rewires to a higher key are requested",
        Refusal::NoBlank => b": all numbers of this copy are used",
        Refusal::Instance => b": there is no such instance",
        Refusal::BallotsUsedUp => b": its ballots are used up",
        Refusal::RecoverCommitted => b": it is committed",
        Refusal::NudgeIdle => b": this copy is not leading it",
        Refusal::OtherCommit => b": another command or order is committed",
        Refusal::Unsound => b": the table is not sound",
        _ => b"",
    }
}

pub fn put_meaning(out: Text, why: Refusal) -> Text {
    put_bytes(out, meaning(why))
}

// A space, `refused`, the number and what it means.
pub fn put_refusal(out: Text, why: Refusal) -> Text {
    put_meaning(put_refused(out, why), why)
}
