// Entries as they are lent: a slice of small structs. This is the one file that knows how entries lie in memory.
// 01 "Where to use each form": entries are a lent slice of small structs, with thin functions that append and read.
#![tactic(auto)]

ghost use Rattle.std.specs.Prelude.{◌≡◌, length, set, get_or};
ghost use Rattle.lent.specs.Entries.{none, moved_end, filled0};

use rules::Entry;
use rules::limits::ENTRIES_LENT;

// All nine areas of entries by value.
#[derive(Clone, Copy)]
pub struct Table {
    pub at: [Entry; ENTRIES_LENT],
}

// Reads the entry at i; past the end it is the blank one.
pub fn read_entry(entries: &[Entry], i: usize) -> Entry
    ensures { result ≡ get_or entries.now i none }
{
    if i < entries.len() {
        return entries[i];
    }
    // written out: by the derived default loading a partition took 350 instructions more
    Entry {
        epoch: 0,
        end: 0,
        mark: 0,
    }
}

#[tactic(auto, unfolding(crate::specs::Entries::filled0))]
pub fn blank() -> [Entry; ENTRIES_LENT]
    ensures { result ≡ filled0 }
{
    [Entry::default(); ENTRIES_LENT]
}

pub fn to_table(a: [Entry; ENTRIES_LENT]) -> Table
    ensures { result ≡ record { at = a } }
{
    Table { at: a }
}

// Appends an entry at the place behind those that stand, or nowhere past the end. A rewrite appends a whole area so.
pub fn append_entry(entries: &mut [Entry], place: usize, e: Entry)
    ensures { entries.new ≡ set entries.old place e }
{
    if place < entries.len() {
        entries[place] = e;
    }
}

// Moves the end of the entry at i; past the end there is none.
pub fn move_end(entries: &mut [Entry], i: usize, end: usize)
    ensures { entries.new ≡ moved_end entries.old i end }
{
    if i < entries.len() {
        entries[i].end = end;
    }
}
