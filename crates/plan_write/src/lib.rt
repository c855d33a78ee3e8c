// Append and clear (01 "Lots"), decided by value: what is refused, and the entry and the rows that a call writes.
#![tactic(auto)]

ghost use Rattle.std.specs.Prelude.{◌≡◌};
ghost use Rattle.partition.specs.Rows.{put_rows};
ghost use Rattle.plan_write.specs.Write.{planned_write, append_at, append_write, clear_at, clear_write};
ghost use Rattle.plan_write.specs.Write.{entries_written};

use admit::admit;
use partition::Plan;
use rules::{Entry, Partition, Refusal, State};
use txn::parts_sound;
use txn_find::find_writer;

// What becomes of the entries: one is put at an index, or the end of the one there moves.
#[derive(Clone, Copy)]
pub enum Change {
    Put { at: usize, entry: Entry },
    Grow { at: usize, end: usize },
}

// What a call writes: the partition at its place, a change to the entries, and a batch at a row.
#[derive(Clone, Copy)]
pub struct Write {
    pub place: usize,
    pub partition: Partition,
    pub change: Change,
    pub row: usize,
}

// The plan for partition p, which is q: where the count of entries stays, the last one's end moves.
fn planned(p: usize, q: Partition, plan: Plan) -> Write
    ensures { result ≡ planned_write p q plan }
{
    let change = if plan.entries == q.entries {
        Change::Grow {
            at: plan.index,
            end: plan.entry.end,
        }
    } else {
        Change::Put {
            at: plan.index,
            entry: plan.entry,
        }
    };
    Write {
        place: p,
        partition: Partition {
            rows: plan.rows,
            entries: plan.entries,
            ..q
        },
        change,
        row: plan.row,
    }
}

// k rows by transaction i to partition p, which is q, on a sound store; last is its last entry.
fn append_at(last: Entry, k: usize, i: u64, p: usize, q: Partition) -> Result<Write, Refusal>
    ensures { result ≡ append_at last k i p q }
{
    let plan = partition::append::append_plan(last, q, i, k)?;
    Ok(planned(p, q, plan))
}

// k rows by transaction i to partition p, whose last entry is `last`; rest says whether the rest of the store is
// sound. Refusals, in this order: 5, 1, 2, 8, 9.
pub fn append_core(
    state: State,
    rest: bool,
    last: Entry,
    k: usize,
    i: u64,
    p: u64,
) -> Result<Write, Refusal>
    ensures { result ≡ append_write state rest last k i p }
{
    let sound = parts_sound(rest, state.clock, state.writers, &state.deps, state.readers);
    let q = admit(sound, state.partitions, p)?;
    let Some(_) = find_writer(state.writers, i) else {
        return Err(Refusal::NotOpen);
    };
    append_at(last, k, i, p as usize, q)
}

// A clearing by transaction i of partition p, which is q, on a sound store.
fn clear_at(i: u64, p: usize, q: Partition) -> Result<Write, Refusal>
    ensures { result ≡ clear_at i p q }
{
    let Ok(plan) = partition::append::clear_plan(q, i) else {
        return Err(Refusal::EntriesFull);
    };
    Ok(planned(p, q, plan))
}

// A clearing by transaction i of partition p. Refusals, in this order: 5, 1, 2, 9.
pub fn clear_core(state: State, rest: bool, i: u64, p: u64) -> Result<Write, Refusal>
    ensures { result ≡ clear_write state rest i p }
{
    let sound = parts_sound(rest, state.clock, state.writers, &state.deps, state.readers);
    let q = admit(sound, state.partitions, p)?;
    let Some(_) = find_writer(state.writers, i) else {
        return Err(Refusal::NotOpen);
    };
    clear_at(i, p as usize, q)
}

pub fn put_write(entries: &mut [Entry], w: Write)
    ensures { entries.new ≡ entries_written entries.old w }
{
    match w.change {
        Change::Put { at, entry } => lent::append_entry(entries, at, entry),
        Change::Grow { at, end } => lent::move_end(entries, at, end),
    }
}

pub fn write_rows(rows: &mut [u64], batch: &[u64], w: Write)
    ensures { rows.new ≡ put_rows w.row batch.now rows.old }
{
    partition::rows::put_rows(rows, w.row, batch);
}
