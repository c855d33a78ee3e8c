// Recovery (02 (v)) decided by value: what is refused, or what the last whole checkpoint (02: round) of a file puts
// into the books and the areas.
ghost use Rattle.std.specs.Prelude.{◌≡◌};
ghost use Rattle.rules.specs.Limits.{partitions_max};
ghost use Rattle.recovery.specs.Restore.{bodies_for, weights_for, restored_from, restored_by, entries_restored};
ghost use Rattle.recovery.specs.Restore.{rows_restored, partitions_for, books_restored, Fits};

use crate::Restored;
use checkpoint::Header;
use checkpoint::read::{copy_rows, find, weigh};
use lent::append_entry;
use partition_sound::lengths_ok;
use rules::limits::{ENTRIES_MAX, LAST_EPOCH, PARTITIONS_MAX, ROWS_MAX};
use rules::{Entry, Partition, Partitions, Refusal, State};
use store::new_books;

// The bodies lie one behind the other.
fn bodies_of(h: Header) -> [usize; PARTITIONS_MAX]
    requires { Fits h }
    ensures { result ≡ bodies_for h }
{
    let mut bodies = [0; PARTITIONS_MAX];
    let mut at = h.body;
    for p in 0..PARTITIONS_MAX {
        bodies[p] = at;
        at += 8 * h.counts[p];
    }
    bodies
}

fn weights_of(
    file: &[u8],
    counts: [usize; PARTITIONS_MAX],
    bodies: [usize; PARTITIONS_MAX],
) -> [u64; PARTITIONS_MAX]
    ensures { result ≡ weights_for file.now counts bodies }
{
    let mut totals = [0; PARTITIONS_MAX];
    for p in 0..PARTITIONS_MAX {
        totals[p] = weigh(file, bodies[p], counts[p]);
    }
    totals
}

fn restore_from(file: &[u8], h: Header) -> Restored
    requires { Fits h }
    ensures { result ≡ restored_from file.now h }
{
    let counts = h.counts;
    let bodies = bodies_of(h);
    let totals = weights_of(file, counts, bodies);
    Restored {
        epoch: h.epoch,
        next: h.epoch + 1,
        counts,
        bodies,
        totals,
    }
}

// n entries and m rows are lent. No state is read.
pub fn recover_core(file: &[u8], n: usize, m: usize) -> Result<Restored, Refusal>
    ensures { result ≡ restored_by file.now n m }
{
    if !lengths_ok(n, m) {
        return Err(Refusal::Unsound);
    }
    let h = find(file, LAST_EPOCH)?;
    Ok(restore_from(file, h))
}

// Partition p has area p, with one entry where it has rows.
pub fn put_entries(entries: &mut [Entry], w: Restored)
    ensures { entries.new ≡ entries_restored w partitions_max entries.old }
{
    for p in 0..PARTITIONS_MAX {
        if 0 < w.counts[p] {
            let e = Entry {
                epoch: w.epoch,
                end: w.counts[p],
                mark: 0,
            };
            append_entry(entries, ENTRIES_MAX * p, e);
        }
    }
}

pub fn write_rows(rows: &mut [u64], file: &[u8], w: Restored)
    ensures { rows.new ≡ rows_restored file.now w partitions_max rows.old }
{
    for p in 0..PARTITIONS_MAX {
        copy_rows(rows, ROWS_MAX * p, file, w.bodies[p], w.counts[p]);
    }
}

// Partition p in area p, with one entry where it has rows.
fn partitions_of(counts: [usize; PARTITIONS_MAX]) -> Partitions
    ensures { result ≡ partitions_for counts }
{
    let mut at = [Partition::default(); PARTITIONS_MAX];
    for p in 0..PARTITIONS_MAX {
        at[p] = Partition {
            area: p,
            rows: counts[p],
            entries: usize::from(counts[p] != 0),
        };
    }
    Partitions {
        at,
        spare: PARTITIONS_MAX,
    }
}

// The books made new, with the partitions and their totals.
pub fn books_of(w: Restored) -> State
    ensures { result ≡ books_restored w }
{
    let totals = w.totals;
    let mut books = new_books(w.next);
    books.partitions = partitions_of(w.counts);
    books.totals = totals;
    books
}
