// Plays recorded runs of several copies from standard input and writes an answer line for each call.
// `run N S` blanks copies 0 to N-1. Then a line is a call at copy C:
//     C request OP KEY SECOND EDIT      C message BYTES      C recover OWNER NUMBER      C nudge OWNER NUMBER
//     C settled OWNER NUMBER     C handout ROOM     C cut KEEP
// Each copy keeps a journal. A cut, right after a call at C, falls inside the entry behind the first KEEP of those that the call
// added: the copy starts again from the table that its journal was begun with and what is left of the journal.
// Streams belong to no copy: `stream ROOM` is a new reader with a buffer of so many bytes, and `take BYTES` its next bytes; the answer has
// how many were taken, every whole message, and the stop if there is one.
// Further lines, with no answer, say how the calls that follow are made, until the next `run`:
//     as N S C       with this setup and copy number, whatever the table's own are
//     length L       with the first L bytes of the copy's table
//     room R         with R bytes of room for what goes out, 256 unless said
//     watch          each answer ends with a checksum of the table and one of the room, after the call
//     C poke AT BYTES     sets bytes of copy C's table
// Empty lines and lines that begin with '=' are passed over.
#![tactic(auto)]

mod asked;
mod event;
mod kept;
mod play;
mod streamed;
mod told;

fn main() {
    play::play_input();
}
