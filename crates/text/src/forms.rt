// Lines read by forms. A form is a text with marks: '#' stands for a number, '@' for bytes in hex or '-' for none, and '*'
// for the end of a word and all that follows it. Each form stands in a table beside what it is called.
ghost use Rattle.std.specs.Prelude.{◌≤◌, IfSome};

use crate::held::Held;

// How many numbers, and how many bytes, a line may have.
pub const NUMBERS: usize = 24;

pub const BYTES: usize = 300;

// Which of the forms a line is; what it has for the marks, 0 for a number that the form does not ask for; and what follows
// the space that a '*' begins with.
#[derive(Clone, Copy)]
pub struct Read<'a, K> {
    pub form: K,
    pub v: [usize; NUMBERS],
    pub bytes: Held<BYTES>,
    pub rest: &'a [u8],
    count: usize,
    left: &'a [u8],
}

// The digits that a line begins with, as a number; none where it does not fit. A digit's low four bits are its value.
fn leading_number(line: &[u8]) -> Option<(usize, &[u8])> {
    let mut value = 0usize;
    for (k, &b) in line.iter().enumerate() {
        if !b.is_ascii_digit() {
            return if k == 0 {
                None
            } else {
                Some((value, line.get(k..)?))
            };
        }
        value = value.checked_mul(10)?.checked_add(usize::from(b & 15))?;
    }
    if line.is_empty() {
        None
    } else {
        Some((value, &[]))
    }
}

fn hex_digit(b: u8) -> Option<u8>
    ensures { IfSome result (λ d. d ≤ 15) }
{
    match b {
        b'0'..=b'9' => Some(b - b'0'),
        b'a'..=b'f' => Some(b - b'a' + 10),
        _ => None,
    }
}

fn byte_of(pair: &[u8]) -> Option<u8> {
    let &[high, low] = pair else {
        return None;
    };
    Some(hex_digit(high)? * 16 + hex_digit(low)?)
}

impl<'a, K: Copy> Read<'a, K> {
    fn of(line: &'a [u8], form: K) -> Self {
        Read {
            form,
            v: [0; NUMBERS],
            bytes: Held::new(),
            rest: &[],
            count: 0,
            left: line,
        }
    }

    fn number(&mut self) -> Option<()> {
        let (value, left) = leading_number(self.left)?;
        if NUMBERS <= self.count {
            return None;
        }
        self.v[self.count] = value;
        self.count += 1;
        self.left = left;
        Some(())
    }

    // The rest of the line is pairs of hex digits.
    fn pairs(&mut self) -> Option<()> {
        for pair in self.left.chunks(2) {
            self.bytes.push(byte_of(pair)?)?;
        }
        self.left = &[];
        Some(())
    }

    fn bytes(&mut self) -> Option<()> {
        match self.left.first()? {
            b' ' => None,
            b'-' => self.literal(b'-'),
            _ => self.pairs(),
        }
    }

    fn rest(&mut self) -> Option<()> {
        if let Some((b, behind)) = self.left.split_first() {
            if *b != b' ' {
                return None;
            }
            self.rest = behind;
            self.left = &[];
        }
        Some(())
    }

    // The byte itself stands in the line.
    fn literal(&mut self, b: u8) -> Option<()> {
        self.left = self.left.strip_prefix(&[b])?;
        Some(())
    }

    // The line is read on for one more byte of the form.
    fn read_on(&mut self, b: u8) -> Option<()> {
        match b {
            b'#' => self.number(),
            b'@' => self.bytes(),
            b'*' => self.rest(),
            _ => self.literal(b),
        }
    }
}

fn read_by<'a, K: Copy>(line: &'a [u8], form: K, text: &[u8]) -> Option<Read<'a, K>> {
    let mut r = Read::of(line, form);
    for &b in text {
        r.read_on(b)?;
    }
    if r.left.is_empty() { Some(r) } else { None }
}

// Which of these forms the line is, the first where it is several.
pub fn which_form<'a, K: Copy>(line: &'a [u8], forms: &[(K, &[u8])]) -> Option<Read<'a, K>> {
    forms
        .iter()
        .find_map(|&(form, text)| read_by(line, form, text))
}
