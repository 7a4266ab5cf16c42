// Reads standard input a part at a time and finds its lines. A line is at most as long as the part.
ghost use Rattle.std.specs.Prelude.{◌<◌, ◌≤◌, IfSome, length};

// What is held of the input, in a lent room: where the next line begins, where what is held ends, and whether that is the
// input's last part.
#[derive(Drop)]
pub struct Lines<'a> {
    room: &'a mut [u8],
    next: usize,
    held: usize,
    last: bool,
    ghost inside: { (next ≤ held) × (held ≤ length room.now) },
}

impl<'a> Lines<'a> {
    // Nothing is held before the first line.
    pub fn new(room: &'a mut [u8]) -> Self {
        Lines {
            room,
            next: 0,
            held: 0,
            last: false,
        }
    }

    // Where the next line ends in what is held, if it ends there.
    fn end(&self) -> Option<usize>
        ensures { IfSome result (λ e. (self.now.next ≤ e) × (e < self.now.held)) }
    {
        let left = &self.room[self.next..self.held];
        let k = left.iter().position(|&b| b == b'\n')?;
        Some(self.next + k)
    }

    // Reads on behind what is left, moved to the front. A part that is not full is the last.
    fn read_on(&mut self) {
        let left = self.held - self.next;
        self.room.copy_within(self.next..self.held, 0);
        self.held = left + io::read_full(0, &mut self.room[left..]);
        self.next = 0;
        self.last = self.held < self.room.len();
    }

    // The next line, if there is one. The input's last line may lack its end.
    pub fn next_line(&mut self) -> Option<&[u8]> {
        let mut found = self.end();
        if found.is_none() && !self.last {
            self.read_on();
            found = self.end();
        }
        let from = self.next;
        if from == self.held {
            return None;
        }
        let end = found.unwrap_or(self.held);
        self.next = self.held.min(end + 1);
        Some(&self.room[from..end])
    }
}

// The programs that play calls pass over an empty line, and one that is an answer.
pub fn is_passed_over(line: &[u8]) -> bool {
    matches!(line, [] | [b'=', ..])
}
