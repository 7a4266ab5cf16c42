// Plays test calls from standard input and writes an answer line for each. `run N S` sets N and S for what follows; then a
// line is a call at copy C:
//     C read BYTES
//     C write ROOM KIND FROM TO OWNER NUMBER BALLOT VOTED STATUS JOINED OP KEY SECOND EDIT D0 .. D6
//     C judge LEN O J AT BYTES       a table of LEN bytes, blank but for these, from a place of O.J's record on; or, for
//                                    O = 9, from a place of the table on
//     C blank LEN
//     C part LEN O J
// Empty lines and lines that begin with '=' are passed over.
#![tactic(auto)]

mod messages;
mod play;
mod tables;

fn main() {
    play::play_input();
}
