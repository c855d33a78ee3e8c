// Saving a checkpoint (02: round), decided by value: what is refused, and the rows that are written. 02 (v).
#![tactic(auto)]

ghost use Rattle.std.specs.Prelude.{◌≡◌, ◌*◌, ◌≤◌, length};
ghost use Rattle.rules.specs.Limits.{partitions_max};
ghost use Rattle.rules.specs.Calls.{within};
ghost use Rattle.plan_save.specs.Runs.{runs_max, words_max, size_of, runs_in};
ghost use Rattle.plan_save.specs.Save.{bases_of, sizes_of, save_plan, put_to};
ghost use Rattle.plan_save.specs.Save.{runs_put, lots_put, save_written};

use area::{partition_at, row_base};
use checkpoint::HEADER_SIZE;
use checkpoint::write::{put_header, put_rows};
use partition_sound::Verdict;
use rules::limits::{ENTRIES_MAX, PARTITIONS_MAX, ROWS_LENT};
use rules::{Clock, Partitions, Refusal, State};
use runs::{Runs, from_in, width_in};
use txn::parts_sound;

pub mod runs;

// Between two runs of a partition stands an entry that is not shown, so 64 entries have 32 runs at most; behind them
// stands one without rows.
pub const RUNS_MAX: usize = ENTRIES_MAX / 2 + 1;

// Of all partitions.
pub const WORDS_MAX: usize = PARTITIONS_MAX * RUNS_MAX;

// What a save writes: the header of this epoch and these counts, then the rows of the runs, of which partition p's
// stand from row bases[p] on. size is how many bytes they are.
#[derive(Clone, Copy)]
pub struct Save {
    pub epoch: u64,
    pub counts: [usize; PARTITIONS_MAX],
    pub bases: [usize; PARTITIONS_MAX],
    pub at: [u32; WORDS_MAX],
    pub size: usize,
}

// How many rows each partition has, and all.
#[derive(Clone, Copy)]
struct Sizes {
    counts: [usize; PARTITIONS_MAX],
    rows: usize,
}

// LSE ≤ e ≤ LCE; here 0 is epoch 0.
fn in_range(c: Clock, e: u64) -> bool
    ensures { result ≡ within c.lse c.lce e }
{
    c.lse <= e && e <= c.lce
}

// How many rows the runs of a partition have.
fn size_of(ws: &[u32]) -> usize
    requires { length ws.now ≤ runs_max }
    ensures { (result ≡ size_of (runs_in ws.now)) × (result ≤ 65535 * runs_max) }
{
    let mut n: usize = 0;
    for w in ws {
        let k = width_in(*w);
        if k == 0 {
            break;
        }
        n += k;
    }
    n
}

fn sizes_of(ws: &[u32]) -> Sizes
    requires { length ws.now ≡ words_max }
    ensures { (result ≡ sizes_of ws.now) × (result.rows ≤ 65535 * runs_max * partitions_max) }
{
    let mut counts = [0usize; PARTITIONS_MAX];
    let mut rows: usize = 0;
    for p in 0..PARTITIONS_MAX {
        let from = RUNS_MAX * p;
        let n = size_of(&ws[from..from + RUNS_MAX]);
        counts[p] = n;
        rows += n;
    }
    Sizes { counts, rows }
}

// The rows that the partitions' areas begin at.
fn bases_of(ps: Partitions) -> [usize; PARTITIONS_MAX]
    ensures { result ≡ bases_of ps }
{
    let mut bases = [0usize; PARTITIONS_MAX];
    for p in 0..PARTITIONS_MAX {
        bases[p] = row_base(partition_at(ps, p as u64).area);
    }
    bases
}

// A save at e, of these runs and with k bytes of output, by what the test of the lots found. Refusals, in this order:
// 5, 4, 3.
pub fn save_core(state: State, found: Verdict, t: Runs, k: usize, e: u64) -> Result<Save, Refusal>
    ensures { result ≡ save_plan state found.ok t.at k e }
{
    if !parts_sound(
        found.ok,
        state.clock,
        state.writers,
        &state.deps,
        state.readers,
    ) {
        return Err(Refusal::Unsound);
    }
    if !in_range(state.clock, e) {
        return Err(Refusal::OutOfRange);
    }
    let sizes = sizes_of(&t.at);
    let size = HEADER_SIZE + 8 * sizes.rows;
    if k < size {
        return Err(Refusal::ShortOutput);
    }
    let counts = sizes.counts;
    let bases = bases_of(state.partitions);
    let at = t.at;
    Ok(Save {
        epoch: e,
        counts,
        bases,
        at,
        size,
    })
}

// The rows of a partition's runs to out[start..], where its rows stand from row `base` on, and where they end; nothing
// is written where that is no row of an area.
fn put_runs(out: &mut [u8], start: usize, rows: &[u64], base: usize, ws: &[u32]) -> usize
    ensures end { result ≡ (runs_put base rows.now ws.now (put_to start out.old)).at }
    ensures bytes { out.new
        ≡ (runs_put base rows.now ws.now (put_to start out.old)).out }
{
    if ROWS_LENT < base {
        return start;
    }
    let mut at = start;
    for w in ws {
        let k = width_in(*w);
        if k == 0 {
            break;
        }
        at = put_rows(out, at, rows, base + from_in(*w), k);
    }
    at
}

// Those of all partitions.
fn put_lots(out: &mut [u8], start: usize, rows: &[u64], bases: [usize; PARTITIONS_MAX], ws: &[u32])
    requires { length ws.now ≡ words_max }
    ensures { out.new
        ≡ (lots_put bases ws.now rows.now (put_to start out.old) partitions_max).out }
{
    let mut at = start;
    for p in 0..PARTITIONS_MAX {
        let from = RUNS_MAX * p;
        at = put_runs(out, at, rows, bases[p], &ws[from..from + RUNS_MAX]);
    }
}

// The bytes of the plan to the front of the output, which is as long as the plan asks; of a plan of no bytes nothing.
#[tactic(auto, unfolding(crate::specs::Save::save_written))]
pub fn write_checkpoint(out: &mut [u8], rows: &[u64], w: Save)
    ensures { out.new ≡ save_written w rows.now out.old }
{
    if w.size == 0 {
        return;
    }
    put_header(out, w.epoch, w.counts);
    put_lots(out, HEADER_SIZE, rows, w.bases, &w.at);
}
