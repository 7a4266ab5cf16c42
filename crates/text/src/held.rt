// Bytes held by value in a room of a fixed size. No memory is asked for, and a copy of what is held holds the same; the
// library's ArrayVec is no Copy.
ghost use Rattle.std.specs.Prelude.{◌≡◌, ◌≤◌, ◌<◌, ◌+◌, None, Some, min, take, slice_set};

#[derive(Clone, Copy)]
pub struct Held<const N: usize> {
    length: usize,
    room: [u8; N],
    ghost inside: { length ≤ N },
}

impl<const N: usize> Held<N> {
    pub fn new() -> Self
        ensures { result.length ≡ 0 }
    {
        Held {
            length: 0,
            room: [0; N],
        }
    }

    // The first bytes of a room, all of it where that is shorter.
    pub fn of(room: [u8; N], length: usize) -> Self
        ensures held { result.length ≡ min length N }
        ensures bytes { result.room ≡ room.entry }
    {
        Held {
            length: length.min(N),
            room,
        }
    }

    // One more byte, where there is a place for it.
    pub fn push(&mut self, b: u8) -> Option<()>
        ensures full { N ≤ self.old.length → (result ≡ None) × (self.new ≡ self.old) }
        ensures put { self.old.length < N → (result ≡ Some tt) × (self.new.length ≡ self.old.length + 1) × (self.new.room ≡ slice_set self.old.room self.old.length b) }
    {
        if self.length == N {
            return None;
        }
        self.room[self.length] = b;
        self.length += 1;
        Some(())
    }

    pub fn as_slice(&self) -> &[u8]
        ensures { result.now ≡ take self.now.length self.now.room }
    {
        &self.room[..self.length]
    }
}
