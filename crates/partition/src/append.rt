// What append and clear write: one entry, and a batch of rows behind the partition's last. 01 "Lots", Append, Clear.
ghost use Rattle.std.specs.Prelude.{◌≡◌, ◌≤◌, ◌<◌};
ghost use Rattle.rules.specs.Limits.{areas_max, rows_max, entries_max};
ghost use Rattle.partition.specs.Append.{in_range, grows, full_if, stays, placed, append_at, append_plan, clear_plan};

use crate::{Full, Plan};
use rules::limits::{AREAS_MAX, ENTRIES_LENT, ENTRIES_MAX, ROWS_LENT, ROWS_MAX};
use rules::{Entry, Partition};

// An area of the nine, at most 512 rows and 64 entries.
#[tactic(auto, unfolding(crate::specs::Append::in_range))]
fn in_range(q: Partition) -> bool
    ensures { result ≡ in_range q }
{
    if AREAS_MAX <= q.area {
        return false;
    }
    if ROWS_MAX < q.rows {
        return false;
    }
    q.entries <= ENTRIES_MAX
}

// There is no room for the rows or for an entry.
fn full(rows: bool, entries: bool) -> Full
    ensures { result ≡ full_if rows entries }
{
    Full { rows, entries }
}

// There is nothing to write.
fn stay(q: Partition) -> Plan
    ensures { result ≡ stays q }
{
    Plan {
        index: ENTRIES_LENT,
        entry: Entry {
            epoch: 0,
            end: 0,
            mark: 0,
        },
        row: ROWS_LENT,
        rows: q.rows,
        entries: q.entries,
    }
}

// The entry goes behind the partition's first n, which stay as they are, and the batch to `row`; the partition then has
// as many rows as the entry's end says.
fn place(n: usize, q: Partition, row: usize, entry: Entry) -> Plan
    requires { (q.area < areas_max) × (n < entries_max) }
    ensures { result ≡ placed n q row entry }
{
    let area = q.area;
    Plan {
        index: ENTRIES_MAX * area + n,
        entry,
        row,
        rows: entry.end,
        entries: n + 1,
    }
}

// The end of a rows entry of the same transaction moves.
fn does_grow(last: Entry, i: u64) -> bool
    ensures { result ≡ grows i last }
{
    if last.mark == 1 {
        return false;
    }
    last.epoch == i
}

// k rows of transaction i; the partition's first n entries stay as they are.
#[tactic(auto, unfolding(crate::specs::Append::append_at))]
fn append_at(n: usize, q: Partition, i: u64, k: usize) -> Result<Plan, Full>
    requires { (q.area < areas_max) × (q.rows ≤ rows_max) × (n ≤ entries_max) }
    ensures { result ≡ append_at n q i k }
{
    if ROWS_MAX - q.rows < k {
        return Err(full(true, ENTRIES_MAX <= n));
    }
    if ENTRIES_MAX <= n {
        return Err(full(false, true));
    }
    let entry = Entry {
        epoch: i,
        end: q.rows + k,
        mark: 0,
    };
    Ok(place(n, q, ROWS_MAX * q.area + q.rows, entry))
}

// What an append of k rows by transaction i writes, where `last` is the partition's last entry, if it has one. Words
// out of range are taken for a full partition.
#[tactic(auto, unfolding(crate::specs::Append::append_plan, crate::specs::Append::in_range))]
pub fn append_plan(last: Entry, q: Partition, i: u64, k: usize) -> Result<Plan, Full>
    ensures { result ≡ append_plan last q i k }
{
    if !in_range(q) {
        return Err(full(true, true));
    }
    if k == 0 {
        return Ok(stay(q));
    }
    let n = q.entries;
    if n == 0 {
        return append_at(0, q, i, k);
    }
    if does_grow(last, i) {
        return append_at(n - 1, q, i, k);
    }
    append_at(n, q, i, k)
}

// What a clearing by transaction i writes: always one entry.
#[tactic(auto, unfolding(crate::specs::Append::clear_plan, crate::specs::Append::in_range))]
pub fn clear_plan(q: Partition, i: u64) -> Result<Plan, Full>
    ensures { result ≡ clear_plan q i }
{
    if !in_range(q) {
        return Err(full(true, true));
    }
    if ENTRIES_MAX <= q.entries {
        return Err(full(false, true));
    }
    let entry = Entry {
        epoch: i,
        end: q.rows,
        mark: 1,
    };
    Ok(place(q.entries, q, ROWS_LENT, entry))
}
