// The store of the cases, and a word of it overwritten, by the number that names it. The numbers are those of
// model/src/bin/edges.rs.
ghost use Rattle.std.specs.Prelude.{◌<◌, MatchOption};

use lent::Table;
use rules::limits::{DEPS_MAX, PARTITIONS_MAX, WRITERS_MAX};
use rules::{Entry, Partition, Partitions, State};

// The last place of a transaction.
const LAST_PLACE: usize = WRITERS_MAX - 1;

// The last place of a dep of the first transaction.
const LAST_DEP: usize = DEPS_MAX - 1;

// The books and the entries; the rows are lent beside them.
#[derive(Clone, Copy)]
pub(crate) struct Store {
    pub state: State,
    pub table: Table,
}

impl Store {
    // Before the first making new: all partitions in one area, which is unsound.
    pub(crate) fn blank() -> Store {
        let mut state = store::new_books(1);
        state.partitions = Partitions {
            at: [Partition {
                area: 0,
                rows: 0,
                entries: 0,
            }; PARTITIONS_MAX],
            spare: 0,
        };
        Store {
            state,
            table: lent::to_table(lent::blank()),
        }
    }

    // A word of the books or of the entries; `row` overwrites the rows.
    pub(crate) fn poke(&mut self, field: u64, value: u64) {
        let s = &mut self.state;
        match field {
            0 => s.clock.ec = value,
            1 => s.clock.lce = value,
            2 => s.clock.lse = value,
            3 => s.readers.next = value,
            4 => s.writers.count = value as usize,
            5 => s.readers.count = value as usize,
            6 => s.partitions.spare = value as usize,
            10..=39 => partition(&mut s.partitions.at, field, value),
            41 => s.writers.at[0].waiting = value,
            42 => s.writers.at[0].deps = value as usize,
            43 => s.deps[0] = value,
            44 => s.writers.at[LAST_PLACE].epoch = value,
            45 => s.deps[LAST_DEP] = value,
            7..=9 | 40..=49 => s.writers.at[0].epoch = value,
            50 => s.readers.at[0].ticket = value,
            51 => s.readers.at[0].epoch = value,
            52..=59 => s.readers.at[LAST_PLACE].ticket = value,
            60..=69 => entry(&mut self.table.at, field, value),
            70..=79 => total(&mut s.totals, field, value),
            _ => {}
        }
    }
}

// The place that the last digit names, where there is such a one.
fn place_of(field: u64, count: usize) -> Option<usize>
    ensures { MatchOption result (Unit {0}) (λ i. i < count) }
{
    let place = (field % 10) as usize;
    if place < count { Some(place) } else { None }
}

// A word of lot `place`: its area (10), rows (20) or entries (30).
fn partition(at: &mut [Partition], field: u64, value: u64) {
    let Some(place) = place_of(field, at.len()) else {
        return;
    };
    let q = &mut at[place];
    match field {
        0..=19 => q.area = value as usize,
        20..=29 => q.rows = value as usize,
        _ => q.entries = value as usize,
    }
}

// A word of the first or the second entry of the first area.
fn entry(at: &mut [Entry], field: u64, value: u64) {
    let word = field % 10;
    let place = if word < 3 { 0 } else { 1 };
    if at.len() <= place {
        return;
    }
    let e = &mut at[place];
    match word % 3 {
        0 => e.epoch = value,
        1 => e.end = value as usize,
        _ => e.mark = value,
    }
}

// The total of lot `place` (70).
fn total(totals: &mut [u64], field: u64, value: u64) {
    if let Some(place) = place_of(field, totals.len()) {
        totals[place] = value;
    }
}

// One of the first ten rows of the first area (80).
pub(crate) fn row(rows: &mut [u64], field: u64, value: u64) {
    if field < 80 {
        return;
    }
    if let Some(place) = place_of(field, rows.len()) {
        rows[place] = value;
    }
}
