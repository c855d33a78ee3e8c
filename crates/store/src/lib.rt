// The store: one public function for each call of 01, and one for any call on the manager. The books are kept by value,
// the areas of rows and of entries are lent. Each call asks whether the lots are sound, loads what it needs of one lot,
// decides by value, then writes; what it answers and leaves is rules' step.
// What hands the books on by value is inlined: out of line, each step would keep a copy of them on the stack.
#![tactic(auto)]

ghost use Rattle.std.specs.Prelude.{◌≡◌};
ghost use Rattle.rules.specs.Store.{created_state};
ghost use Rattle.rules.specs.Step.{step, manage, append, clear, rollback, create, scan, purge};
ghost use Rattle.rules.specs.Step.{begin, commit, begin_ro, end_ro, advance_lse};
ghost use Rattle.rules.specs.declared.Reader.TheVariants.{Rw, Ro};
ghost use Rattle.store.specs.Kept.{store_of, Left, Showed};

use partition::areas;
use plan_purge::Purge;
use rules::limits::{DEPS_ALL, PARTITIONS_MAX, READERS_MAX, WRITERS_MAX};
use rules::{Answer, Clock, Entry, Kept, ManagerCall, Reader, RoTxn, RoTxns, RwTxn, RwTxns, State};

mod books;
mod done;
pub mod part;

// The books that making new at s leaves, whatever s is, for a caller that has none yet.
pub fn new_books(s: u64) -> State
    ensures { result ≡ created_state s }
{
    let base = s.saturating_sub(1);
    let ts = [RwTxn::default(); WRITERS_MAX];
    let ps = [RoTxn::default(); READERS_MAX];
    let partitions = books::fresh();
    State {
        clock: Clock {
            ec: s,
            lce: base,
            lse: base,
        },
        writers: RwTxns { at: ts, count: 0 },
        deps: [0; DEPS_ALL],
        readers: RoTxns {
            at: ps,
            count: 0,
            next: 1,
        },
        partitions: partitions,
        totals: [0; PARTITIONS_MAX],
    }
}

// Making new at epoch a. It reads no state and writes no lent word. Refusals, in this order: 5 (the lengths), 4.
#[inline(always)]
pub fn create(state: State, entries: &[Entry], rows: &[u64], a: u64) -> Kept
    ensures { Left (step (create a) (store_of state rows.now entries.now))
        result rows.now entries.now }
{
    let n = entries.len();
    let m = rows.len();
    books::create_core(state, n, m, a)
}

// Any call that changes nothing but the manager, for a caller that has it as a value: the five that follow.
#[inline(always)]
pub fn manage(state: State, entries: &[Entry], rows: &[u64], call: ManagerCall) -> Kept
    ensures { Left (step (manage call) (store_of state rows.now entries.now))
        result rows.now entries.now }
{
    let a = books::ask_call(
        state.clock,
        state.writers,
        state.partitions,
        state.totals,
        call,
    );
    let r = partition_sound::rest_of(entries, rows, a);
    books::call_core(state, r, call)
}

// A transaction (01: load) begins. Refusals, in this order: 5, 6, 7.
#[inline(always)]
pub fn begin(state: State, entries: &[Entry], rows: &[u64]) -> Kept
    ensures { Left (step begin (store_of state rows.now entries.now))
        result rows.now entries.now }
{
    let a = partition_sound::ask(state.clock, state.writers, state.partitions, state.totals);
    let rest = partition_sound::rest_ok(entries, rows, a);
    txn_start::begin(state, rest)
}

// Transaction txn commits. Refusals, in this order: 5, 2.
#[inline(always)]
pub fn commit(state: State, entries: &[Entry], rows: &[u64], txn: u64) -> Kept
    ensures { Left (step (commit txn) (store_of state rows.now entries.now))
        result rows.now entries.now }
{
    let a = books::ask_commit(
        state.clock,
        state.writers,
        state.partitions,
        state.totals,
        txn,
    );
    let r = partition_sound::rest_of(entries, rows, a);
    books::commit_core(state, r, txn)
}

// A read-only transaction (01: page) begins at an epoch; 0 means LCE. Refusals, in this order: 5, 4, 6, 7.
#[inline(always)]
pub fn begin_ro(state: State, entries: &[Entry], rows: &[u64], epoch: u64) -> Kept
    ensures { Left (step (begin_ro epoch) (store_of state rows.now entries.now))
        result rows.now entries.now }
{
    let a = partition_sound::ask(state.clock, state.writers, state.partitions, state.totals);
    let rest = partition_sound::rest_ok(entries, rows, a);
    txn_read::begin_ro(state, rest, epoch)
}

// The read-only transaction of a ticket ends. Refusals, in this order: 5, 2.
#[inline(always)]
pub fn end_ro(state: State, entries: &[Entry], rows: &[u64], ticket: u64) -> Kept
    ensures { Left (step (end_ro ticket) (store_of state rows.now entries.now))
        result rows.now entries.now }
{
    let a = partition_sound::ask(state.clock, state.writers, state.partitions, state.totals);
    let rest = partition_sound::rest_ok(entries, rows, a);
    txn_read::end_ro(state, rest, ticket)
}

// LSE moves to a target; 0 means as far as it may go. Refusals, in this order: 5, 4, 10.
#[inline(always)]
pub fn advance_lse(state: State, entries: &[Entry], rows: &[u64], target: u64) -> Kept
    ensures { Left (step (advance_lse target) (store_of state rows.now entries.now))
        result rows.now entries.now }
{
    let a = partition_sound::ask(state.clock, state.writers, state.partitions, state.totals);
    let rest = partition_sound::rest_ok(entries, rows, a);
    txn_safe::advance_lse(state, rest, target)
}

// The rows of batch to partition p (01: lot), by transaction txn (01: load). Refusals, in this order: 5, 1, 2, 8, 9.
#[inline(always)]
pub fn append(
    state: State,
    entries: &mut [Entry],
    rows: &mut [u64],
    batch: &[u64],
    txn: u64,
    p: u64,
) -> Kept
    ensures { Left (step (append txn p batch.now) (store_of state rows.old
        entries.old)) result rows.new entries.new }
{
    let a = partition_sound::ask(state.clock, state.writers, state.partitions, state.totals);
    let rest = partition_sound::rest_ok(entries, rows, a);
    let last = area::last_entry(entries, state.partitions, p);
    let (partitions, answer) = match plan_write::append_core(
        state,
        rest,
        last,
        batch.len(),
        txn,
        p,
    ) {
        Ok(w) => {
            plan_write::put_write(entries, w);
            plan_write::write_rows(rows, batch, w);
            let next = areas::with_partition(state.partitions, w.place, w.partition);
            let answer = Answer::Appended {
                rows: w.partition.rows,
            };
            (next, answer)
        }
        Err(why) => (state.partitions, Answer::Refused(why)),
    };
    done::rewrite_done(state, partitions, answer)
}

// A clearing of partition p by transaction txn. Refusals, in this order: 5, 1, 2, 9.
#[inline(always)]
pub fn clear(state: State, entries: &mut [Entry], rows: &mut [u64], txn: u64, p: u64) -> Kept
    ensures { Left (step (clear txn p) (store_of state rows.old entries.old))
        result rows.new entries.new }
{
    let a = partition_sound::ask(state.clock, state.writers, state.partitions, state.totals);
    let rest = partition_sound::rest_ok(entries, rows, a);
    let (partitions, answer) = match plan_write::clear_core(state, rest, txn, p) {
        Ok(w) => {
            plan_write::put_write(entries, w);
            let next = areas::with_partition(state.partitions, w.place, w.partition);
            let answer = Answer::Cleared {
                entries: w.partition.entries,
            };
            (next, answer)
        }
        Err(why) => (state.partitions, Answer::Refused(why)),
    };
    done::rewrite_done(state, partitions, answer)
}

// Rolling back transaction a in all partitions. Refusals, in this order: 5, 2.
#[inline(always)]
pub fn roll_back(state: State, entries: &mut [Entry], rows: &mut [u64], a: u64) -> Kept
    ensures { Left (step (rollback a) (store_of state rows.old entries.old))
        result rows.new entries.new }
{
    let asked = books::ask_roll_back(
        state.clock,
        state.writers,
        state.partitions,
        state.totals,
        a,
    );
    let r = partition_sound::rest_of(entries, rows, asked);
    let next = books::roll_back_core(state, r, a);
    let go = books::goes_on(next);
    let partitions = undo::lots::roll_lots(entries, rows, state.partitions, a, go);
    done::rewrite_done(next.state, partitions, next.answer)
}

// A reader scans partition p: a bit a row in bitmap. Refusals, in this order: 5, 1, 2, 3.
#[inline(always)]
fn scan(
    state: State,
    entries: &[Entry],
    rows: &[u64],
    bitmap: &mut [u8],
    reader: Reader,
    p: u64,
) -> Answer
    ensures { Showed (step (scan reader p bitmap.old) (store_of state rows.now
        entries.now)) result bitmap.new (store_of state rows.now
        entries.now) }
{
    let a = partition_sound::ask(state.clock, state.writers, state.partitions, state.totals);
    let rest = partition_sound::rest_ok(entries, rows, a);
    let lot = area::load(entries, state.partitions, p);
    match plan_scan::scan_core(state, rest, lot, bitmap.len(), reader, p) {
        Ok(w) => {
            plan_scan::write_bits(bitmap, w);
            Answer::Scanned {
                rows: w.rows,
                ones: w.ones,
            }
        }
        Err(why) => Answer::Refused(why),
    }
}

// Transaction i scans partition p: a bit a row in bitmap. Refusals, in this order: 5, 1, 2, 3.
pub fn scan_rw(
    state: State,
    entries: &[Entry],
    rows: &[u64],
    bitmap: &mut [u8],
    i: u64,
    p: u64,
) -> Answer
    ensures { Showed (step (scan (Rw i) p bitmap.old) (store_of state rows.now
        entries.now)) result bitmap.new (store_of state rows.now
        entries.now) }
{
    scan(state, entries, rows, bitmap, Reader::Rw(i), p)
}

// The read-only transaction of ticket t scans partition p. Refusals, in this order: 5, 1, 2, 3.
pub fn scan_ro(
    state: State,
    entries: &[Entry],
    rows: &[u64],
    bitmap: &mut [u8],
    t: u64,
    p: u64,
) -> Answer
    ensures { Showed (step (scan (Ro t) p bitmap.old) (store_of state rows.now
        entries.now)) result bitmap.new (store_of state rows.now
        entries.now) }
{
    scan(state, entries, rows, bitmap, Reader::Ro(t), p)
}

// Purging partition p at LSE. Refusals, in this order: 5, 1. part::live_rows returns the part in force.
#[inline(always)]
pub fn purge(state: State, entries: &mut [Entry], rows: &mut [u64], p: u64) -> Kept
    ensures { Left (step (purge p) (store_of state rows.old entries.old))
        result rows.new entries.new }
{
    let a = partition_sound::ask(state.clock, state.writers, state.partitions, state.totals);
    let rest = partition_sound::rest_ok(entries, rows, a);
    let lot = area::load(entries, state.partitions, p);
    let (partitions, answer) = match plan_purge::purge_core(state, rest, lot, p) {
        Err(reason) => (state.partitions, Answer::Refused(reason)),
        Ok(Purge::Skip { kept }) => (state.partitions, Answer::Skipped { rows: kept }),
        Ok(Purge::Rewrite { place, kept, moved }) => {
            moved.put(entries);
            moved.copy(rows);
            let next = areas::moved(state.partitions, place, kept, moved.new.count);
            (next, Answer::Rewritten { rows: kept })
        }
    };
    done::rewrite_done(state, partitions, answer)
}
