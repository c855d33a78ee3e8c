// The rows in force after a purge, as a part of the lent rows. 01 "Lots", Purge. A function that is lent the rows by
// `&mut` and returns a part of them cannot state their words at exit, so the part is a second function, over the books
// as they were before the purge.
ghost use Rattle.std.specs.Prelude.{◌≡◌, ◌*◌};
ghost use Rattle.lists.specs.Lists.{part};
ghost use Rattle.rules.specs.Limits.{rows_max};
ghost use Rattle.store.specs.Part.{area_of, part_of};

use rules::limits::{PARTITIONS_MAX, ROWS_MAX};
use rules::{Answer, Partitions, State};

// The area of partition p (01: lot), and that of rules' no_partition above 7.
pub fn area_of(partitions: Partitions, p: u64) -> usize
    ensures { result ≡ area_of partitions p }
{
    if PARTITIONS_MAX as u64 <= p {
        return 0;
    }
    partitions.at[p as usize].area
}

// The words of an area, as many as are lent of it.
fn area_rows(rows: &[u64], area: usize) -> &[u64]
    ensures { result.now ≡ part (rows_max * area) rows_max rows.now }
{
    let n = rows.len();
    if n / ROWS_MAX < area {
        return &rows[n..n];
    }
    let from = ROWS_MAX * area;
    if n - from < ROWS_MAX {
        return &rows[from..n];
    }
    let end = from + ROWS_MAX;
    &rows[from..end]
}

// The part that a purge of partition p answers with. `before` are the books that the purge was given, `rows` the lent
// rows as it left them, and `answer` is what it answered.
pub fn live_rows(before: State, rows: &[u64], p: u64, answer: Answer) -> &[u64]
    ensures { result.now ≡ part_of before rows.now p answer }
{
    let old = area_of(before.partitions, p);
    let spare = before.partitions.spare;
    live_part::in_force(area_rows(rows, old), area_rows(rows, spare), answer)
}
