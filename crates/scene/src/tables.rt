// The tables that the copies work on.
use crate::Scene;
use crate::way::WAY;
use table::{LONGEST, length_of};
use text::bytes::{part, part_mut};

// Where the tables end.
pub const TABLES: usize = WAY + 7 * LONGEST;

// Where a copy's table starts; one past the seventh has no bytes of its own.
pub fn start_of(c: usize) -> usize {
    if 6 < c { TABLES } else { WAY + c * LONGEST }
}

pub fn table_in(all: &[u8], w: Scene, c: usize) -> &[u8] {
    part(all, start_of(c), length_of(w.n, w.s))
}

pub fn table_mut(all: &mut [u8], w: Scene, c: usize) -> &mut [u8] {
    part_mut(all, start_of(c), length_of(w.n, w.s))
}
