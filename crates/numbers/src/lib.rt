// Little-endian numbers, and bytes as they are, in lent bytes at an offset. A number is read from its bytes at once: the compiler makes one load of it.
#![tactic(auto)]

ghost use Rattle.std.specs.Prelude.{ℕ, ◌≡◌, ◌+◌, ◌≤◌, length};
ghost use Rattle.numbers.specs.Num.{num_at, bytes_of, splice};

// A number that takes `width` bytes.
pub trait Number: Copy {
    ghost width: { ℕ };

    ghost value: { Self → ℕ };

    fn read(s: &[u8], at: usize) -> Self
        requires { at + width ≤ length s.now }
        ensures { value result ≡ num_at width s.now at };

    fn write(self, s: &mut [u8], at: usize)
        requires { at + width ≤ length s.old }
        ensures { s.new ≡ splice s.old at (bytes_of width (value self)) };
}

impl Number for u8 {
    ghost width = { 1 };

    ghost value = { λ x. x };

    fn read(s: &[u8], at: usize) -> u8 {
        s[at]
    }

    fn write(self, s: &mut [u8], at: usize) {
        put_bytes(s, at, &self.to_le_bytes());
    }
}

impl Number for u16 {
    ghost width = { 2 };

    ghost value = { λ x. x };

    fn read(s: &[u8], at: usize) -> u16 {
        u16::from_le_bytes([s[at], s[at + 1]])
    }

    fn write(self, s: &mut [u8], at: usize) {
        put_bytes(s, at, &self.to_le_bytes());
    }
}

impl Number for u32 {
    ghost width = { 4 };

    ghost value = { λ x. x };

    fn read(s: &[u8], at: usize) -> u32 {
        u32::from_le_bytes([s[at], s[at + 1], s[at + 2], s[at + 3]])
    }

    fn write(self, s: &mut [u8], at: usize) {
        put_bytes(s, at, &self.to_le_bytes());
    }
}

impl Number for u64 {
    ghost width = { 8 };

    ghost value = { λ x. x };

    fn read(s: &[u8], at: usize) -> u64 {
        u64::from_le_bytes([
            s[at],
            s[at + 1],
            s[at + 2],
            s[at + 3],
            s[at + 4],
            s[at + 5],
            s[at + 6],
            s[at + 7],
        ])
    }

    fn write(self, s: &mut [u8], at: usize) {
        put_bytes(s, at, &self.to_le_bytes());
    }
}

pub fn get<T: Number>(s: &[u8], at: usize) -> T
    requires { at + T.width ≤ length s.now }
    ensures { T.value result ≡ num_at T.width s.now at }
{
    T::read(s, at)
}

pub fn put<T: Number>(s: &mut [u8], at: usize, x: T)
    requires { at + T.width ≤ length s.old }
    ensures { s.new ≡ splice s.old at (bytes_of T.width (T.value x)) }
{
    x.write(s, at);
}

// Puts these bytes in the place of others, from `at` on.
pub fn put_bytes(s: &mut [u8], at: usize, bytes: &[u8])
    requires { at + length bytes.now ≤ length s.old }
    ensures { s.new ≡ splice s.old at bytes.now }
{
    for i in 0..bytes.len() {
        s[at + i] = bytes[i];
    }
}
