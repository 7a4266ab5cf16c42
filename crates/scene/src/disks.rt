// The copies' disks: each has the table that the journal was begun with, and the journal. A copy that was cut off goes on with
// what a replay makes of them.
use crate::Scene;
use crate::copies::{end_of, with_end};
use crate::tables::{TABLES, start_of, table_in, table_mut};
use entries::Unreplayed;
use storage::{DISK, Entry, add_part, journal_in, mark_of, record_of, replay_onto};
use table::{LONGEST, length_of, record_part};
use text::bytes::{front_mut, part, part_mut, write};

// All lent bytes.
pub const ALL: usize = TABLES + 7 * DISK;

// Where a copy's disk starts; one past the seventh has no bytes.
fn disk_start(c: usize) -> usize {
    if 6 < c { ALL } else { TABLES + c * DISK }
}

fn disk_in(all: &[u8], c: usize) -> &[u8] {
    part(all, disk_start(c), DISK)
}

// Each copy has a blank table, and begins its journal with it.
pub fn blank_all(all: &mut [u8], w: Scene) {
    for c in 0..7 {
        let _ = table::blank_table(table_mut(&mut *all, w, c), w.n, w.s, c);
        begin_with_table(&mut *all, w, c);
    }
}

// The table goes to the front of the copy's disk.
fn begin_with_table(all: &mut [u8], w: Scene, c: usize) {
    let from = start_of(c);
    let to = disk_start(c);
    let count = length_of(w.n, w.s);
    if to < from || all.len() < to || all.len() - to < count {
        return;
    }
    all.copy_within(from..from + count, to);
}

// The journal is begun anew with the table that the copy has now.
pub fn begin_anew(all: &mut [u8], w: Scene, c: usize) -> Scene {
    begin_with_table(all, w, c);
    with_end(w, c, 0)
}

pub fn journal_of(all: &[u8], w: Scene, c: usize) -> &[u8] {
    journal_in(disk_in(all, c), end_of(w, c))
}

// The entry of o.j as it stands in the copy's table, or of the mark of a code.
pub fn record_entry(all: &[u8], w: Scene, c: usize, o: usize, j: usize) -> Entry {
    record_of(table_in(all, w, c), w.n, w.s, c, o, j)
}

pub fn mark_entry(all: &[u8], w: Scene, c: usize, code: u16) -> Entry {
    mark_of(table_in(all, w, c), w.n, w.s, c, code)
}

// So many bytes of an entry reach the disk.
pub fn save_part(all: &mut [u8], w: Scene, c: usize, entry: &Entry, reach: usize) -> Scene {
    let d = part_mut(all, disk_start(c), DISK);
    with_end(w, c, add_part(d, end_of(w, c), entry, reach))
}

pub fn save(all: &mut [u8], w: Scene, c: usize, entry: &Entry) -> Scene {
    save_part(all, w, c, entry, entry.as_slice().len())
}

// The table that a replay of a copy's disk makes, and what the replay answers.
#[derive(Clone, Copy)]
pub struct Replayed {
    pub table: [u8; LONGEST],
    pub answer: Result<usize, Unreplayed>,
}

pub fn saved(all: &[u8], w: Scene, c: usize) -> Replayed {
    let mut table = [0u8; LONGEST];
    let t = front_mut(&mut table, length_of(w.n, w.s));
    let answer = replay_onto(t, w.n, w.s, c, disk_in(all, c), end_of(w, c));
    Replayed { table, answer }
}

// The record of o.j in a copy's table is not the saved one.
pub fn is_changed(all: &[u8], w: Scene, c: usize, o: usize, j: usize) -> bool {
    let kept = saved(all, w, c);
    let t = table_in(all, w, c);
    let before = part(&kept.table, 0, t.len());
    let was = record_part(before, w.n, w.s, c, o, j);
    !was.starts_with(record_part(t, w.n, w.s, c, o, j))
}

// The copy goes on with this table, and its journal is cut off at an offset.
pub fn restore(all: &mut [u8], w: Scene, c: usize, table: &[u8], end: usize) -> Scene {
    write(table_mut(all, w, c), 0, table);
    with_end(w, c, end)
}
