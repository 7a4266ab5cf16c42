// The reader: a buffer that is lent to it, with the place up to which messages were handed back. Each method takes the struct apart
// and leaves the work to the call on a slice and a place.
//
// The buffer is held shared: what was handed back stays readable until the next bytes are taken, which asks for the buffer back.
ghost use Rattle.std.specs.Prelude.{◌≡◌};
ghost use Rattle.stream.specs.Stream.{front, passed, message_in};

use crate::place::{Halt, Place};
use crate::yielding;

#[derive(Clone, Copy)]
pub struct Reader<'a> {
    pub buf: &'a [u8],
    pub place: Place,
}

impl<'a> Reader<'a> {
    // The reader of a buffer, at a place in it.
    pub fn over(buf: &'a [u8], place: Place) -> Reader<'a>
        ensures { (result.buf ≡ buf.entry) × (result.place ≡ place) }
    {
        Reader { buf, place }
    }

    // Its place, to go on from when bytes were taken.
    pub fn place(self) -> Place
        ensures { result ≡ self.entry.place }
    {
        self.place
    }

    // What stands in front: a message of this length, nothing yet, or the stop.
    pub fn next(self) -> Result<Option<usize>, Halt>
        ensures { result ≡ front self.entry.buf.now self.entry.place }
    {
        yielding::front(self.buf, self.place)
    }

    // That message: a part of the buffer, empty where there is none.
    pub fn message(self) -> &'a [u8]
        ensures { result.now ≡ message_in self.entry.buf.now self.entry.place }
    {
        yielding::message(self.buf, self.place)
    }

    // The reader behind that message, or where it was.
    pub fn passed(self) -> Reader<'a>
        ensures { (result.buf ≡ self.entry.buf) × (result.place ≡ passed self.entry.buf.now self.entry.place) }
    {
        Reader::over(self.buf, yielding::passed(self.buf, self.place))
    }
}

// The message at a place in a buffer, for whoever has no reader at hand.
pub fn read<'a>(buf: &'a [u8], place: Place) -> &'a [u8]
    ensures { result.now ≡ message_in buf.now place }
{
    Reader::over(buf, place).message()
}
