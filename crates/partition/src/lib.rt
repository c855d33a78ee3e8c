// Partitions (01: lots) over tables kept by value: append and clear. 01 "Lots"; 004 III-C 1, 2.
// What a call writes into the lent areas is one entry and a batch of rows; a plan says which and where.
#![tactic(auto)]

ghost use Rattle.std.specs.Prelude.{◌≡◌};
ghost use Rattle.partition.specs.Append.{refusal_of};

use rules::{Entry, Refusal};

pub mod append;
pub mod areas;
pub mod rows;

// What there is no room for: the rows (01: 8), an entry that is needed (01: 9), or both.
#[derive(Clone, Copy)]
pub struct Full {
    pub rows: bool,
    pub entries: bool,
}

// Where there is room for neither, the rows say it (01: 8 before 9).
impl From<Full> for Refusal {
    ghost from_gives = { λ full why. why ≡ refusal_of full };

    fn from(full: Full) -> Refusal {
        if full.rows {
            Refusal::RowsFull
        } else {
            Refusal::EntriesFull
        }
    }
}

// What an append or a clear writes. Where an append adds nothing, the entry and the row stand past the last, so that
// nothing is written, and the counts stay.
#[derive(Clone, Copy)]
pub struct Plan {
    // the entry to put, and its index among the entries of all areas
    pub index: usize,
    pub entry: Entry,
    // the index of the batch's first row among the rows of all areas
    pub row: usize,
    // the partition's counts then
    pub rows: usize,
    pub entries: usize,
}
