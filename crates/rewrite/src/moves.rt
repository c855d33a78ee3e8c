// What a rewrite of one partition moves, decided before any of it is written. 01 "Lots", Roll back, Purge.
ghost use Rattle.std.specs.Prelude.{◌≡◌};
ghost use Rattle.rewrite.specs.Move.{move_to_spare, entries_moved, rows_moved};

use crate::copying::copy_kept;
use area::{Area, entry_base, row_base};
use lent::append_entry;
use rewrite_plan::Plan;
use rules::Entry;

// The entries in use of `new` go to index `entry` on, and the rows that the plan keeps of `old`, which lie from row
// `from` on, to row `to` on.
#[derive(Clone, Copy)]
pub struct Move {
    pub old: Area,
    pub plan: Plan,
    pub new: Area,
    pub entry: usize,
    pub from: usize,
    pub to: usize,
}

impl Move {
    // What the plan keeps of `old`, whose area is `area`: its entries are `new`, and it goes to the spare area.
    pub fn to_spare(old: Area, plan: Plan, new: Area, area: usize, spare: usize) -> Move
        ensures { result ≡ move_to_spare old plan new area spare }
    {
        Move {
            old,
            plan,
            new,
            entry: entry_base(spare),
            from: row_base(area),
            to: row_base(spare),
        }
    }

    // An index above the greatest number is past the end all the same.
    pub fn put(&self, entries: &mut [Entry])
        ensures { entries.new ≡ entries_moved self.now entries.old }
    {
        for (i, e) in self.new.entries().iter().enumerate() {
            append_entry(entries, self.entry.saturating_add(i), *e);
        }
    }

    pub fn copy(&self, rows: &mut [u64])
        ensures { rows.new ≡ rows_moved self.now rows.old }
    {
        copy_kept(rows, &self.old, &self.plan, self.from, self.to);
    }
}
