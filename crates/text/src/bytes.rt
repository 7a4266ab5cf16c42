// Lent bytes: written to, summed up in one number, and their first ones.
ghost use Rattle.std.specs.Prelude.{◌≤◌};

// The byte at a place, 0 past the end.
pub fn byte_at(b: &[u8], i: usize) -> usize
    ensures { result ≤ 255 }
{
    b.get(i).map_or(0, |&x| x as usize)
}

// Writes bytes from a place on, as many as there is room for.
pub fn write(into: &mut [u8], at: usize, bytes: &[u8]) {
    for (to, &b) in behind(into, at).iter_mut().zip(bytes) {
        *to = b;
    }
}

// h * 31 + b modulo 2^64.
fn with_byte(h: u64, b: u8) -> u64 {
    h.wrapping_mul(31).wrapping_add(u64::from(b))
}

pub fn checksum(t: &[u8]) -> usize {
    t.iter().fold(0, |h, &b| with_byte(h, b)) as usize
}

// The bytes from a place on; none where that is past the end.
pub fn behind(room: &mut [u8], at: usize) -> &mut [u8] {
    let from = room.len().min(at);
    &mut room[from..]
}

// The first k bytes of a room, all of it where k is more.
pub fn front(room: &[u8], k: usize) -> &[u8] {
    let n = room.len().min(k);
    &room[..n]
}

pub fn front_mut(room: &mut [u8], k: usize) -> &mut [u8] {
    let n = room.len().min(k);
    &mut room[..n]
}

// As many bytes from a place on; none where there are not as many.
pub fn part(all: &[u8], start: usize, count: usize) -> &[u8] {
    let end = start.saturating_add(count);
    all.get(start..end).unwrap_or(&[])
}

pub fn part_mut(all: &mut [u8], start: usize, count: usize) -> &mut [u8] {
    let end = start.saturating_add(count);
    all.get_mut(start..end).unwrap_or(&mut [])
}
