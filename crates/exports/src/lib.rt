// The store for callers in C and Rust: one function for each call, over what that call is lent and no more. Each is the
// call of crate store or recovery by that name, and then its answer in words (D43).
#![tactic(auto)]

ghost use Rattle.std.specs.Prelude.{◌≡◌};
ghost use Rattle.rules.specs.Step.{step, append, clear, rollback, create, scan, purge, save, recover};
ghost use Rattle.rules.specs.Step.{begin, commit, begin_ro, end_ro, advance_lse};
ghost use Rattle.rules.specs.declared.Reader.TheVariants.{Rw, Ro};
ghost use Rattle.store.specs.Kept.{store_of};
ghost use Rattle.exports.specs.Words.{Replies, Purges, Shows};

mod words;

use rules::{Entry, State};
use words::{Replied, Seen, reply_to, reply_to_purge, reply_to_read};

// Making new at an epoch. It reads no state and writes no lent word. Refusals, in this order: 5 (the lengths), 4.
#[unsafe(no_mangle)]
pub extern "C" fn nizgulk_create(
    state: State,
    entries: &[Entry],
    rows: &[u64],
    start: u64,
) -> Replied
    ensures { Replies (step (create start) (store_of state rows.now entries.now))
        result rows.now entries.now }
{
    let k = store::create(state, entries, rows, start);
    reply_to(k)
}

// A transaction (01: load) begins. Refusals, in this order: 5, 6, 7.
#[unsafe(no_mangle)]
pub extern "C" fn nizgulk_begin(state: State, entries: &[Entry], rows: &[u64]) -> Replied
    ensures { Replies (step begin (store_of state rows.now entries.now))
        result rows.now entries.now }
{
    let k = store::begin(state, entries, rows);
    reply_to(k)
}

// The rows of batch to partition p (01: lot), by transaction txn (01: load). Refusals, in this order: 5, 1, 2, 8, 9.
#[unsafe(no_mangle)]
pub extern "C" fn nizgulk_append(
    state: State,
    entries: &mut [Entry],
    rows: &mut [u64],
    batch: &[u64],
    txn: u64,
    p: u64,
) -> Replied
    ensures { Replies (step (append txn p batch.now) (store_of state rows.old
        entries.old)) result rows.new entries.new }
{
    let k = store::append(state, entries, rows, batch, txn, p);
    reply_to(k)
}

// A clearing of partition p by transaction txn. Refusals, in this order: 5, 1, 2, 9.
#[unsafe(no_mangle)]
pub extern "C" fn nizgulk_clear(
    state: State,
    entries: &mut [Entry],
    rows: &mut [u64],
    txn: u64,
    p: u64,
) -> Replied
    ensures { Replies (step (clear txn p) (store_of state rows.old entries.old))
        result rows.new entries.new }
{
    let k = store::clear(state, entries, rows, txn, p);
    reply_to(k)
}

// Transaction txn commits. Refusals, in this order: 5, 2.
#[unsafe(no_mangle)]
pub extern "C" fn nizgulk_commit(state: State, entries: &[Entry], rows: &[u64], txn: u64) -> Replied
    ensures { Replies (step (commit txn) (store_of state rows.now entries.now))
        result rows.now entries.now }
{
    let k = store::commit(state, entries, rows, txn);
    reply_to(k)
}

// Rolling back transaction txn in all partitions. Refusals, in this order: 5, 2.
#[unsafe(no_mangle)]
pub extern "C" fn nizgulk_roll_back(
    state: State,
    entries: &mut [Entry],
    rows: &mut [u64],
    txn: u64,
) -> Replied
    ensures { Replies (step (rollback txn) (store_of state rows.old entries.old))
        result rows.new entries.new }
{
    let k = store::roll_back(state, entries, rows, txn);
    reply_to(k)
}

// A read-only transaction (01: page) begins at an epoch; 0 means LCE. Refusals, in this order: 5, 4, 6, 7.
#[unsafe(no_mangle)]
pub extern "C" fn nizgulk_begin_ro(
    state: State,
    entries: &[Entry],
    rows: &[u64],
    epoch: u64,
) -> Replied
    ensures { Replies (step (begin_ro epoch) (store_of state rows.now entries.now))
        result rows.now entries.now }
{
    let k = store::begin_ro(state, entries, rows, epoch);
    reply_to(k)
}

// The read-only transaction of a ticket ends. Refusals, in this order: 5, 2.
#[unsafe(no_mangle)]
pub extern "C" fn nizgulk_end_ro(
    state: State,
    entries: &[Entry],
    rows: &[u64],
    ticket: u64,
) -> Replied
    ensures { Replies (step (end_ro ticket) (store_of state rows.now entries.now))
        result rows.now entries.now }
{
    let k = store::end_ro(state, entries, rows, ticket);
    reply_to(k)
}

// Transaction txn scans partition p: a bit a row in bitmap. Refusals, in this order: 5, 1, 2, 3.
#[unsafe(no_mangle)]
pub extern "C" fn nizgulk_scan_rw(
    state: State,
    entries: &[Entry],
    rows: &[u64],
    bitmap: &mut [u8],
    txn: u64,
    p: u64,
) -> Seen
    ensures { Shows (step (scan (Rw txn) p bitmap.old) (store_of state rows.now
        entries.now)) result bitmap.new (store_of state rows.now
        entries.now) }
{
    let a = store::scan_rw(state, entries, rows, bitmap, txn, p);
    reply_to_read(a)
}

// The read-only transaction of a ticket scans partition p. Refusals, in this order: 5, 1, 2, 3.
#[unsafe(no_mangle)]
pub extern "C" fn nizgulk_scan_ro(
    state: State,
    entries: &[Entry],
    rows: &[u64],
    bitmap: &mut [u8],
    ticket: u64,
    p: u64,
) -> Seen
    ensures { Shows (step (scan (Ro ticket) p bitmap.old) (store_of state rows.now
        entries.now)) result bitmap.new (store_of state rows.now
        entries.now) }
{
    let a = store::scan_ro(state, entries, rows, bitmap, ticket, p);
    reply_to_read(a)
}

// LSE moves to a target; 0 means as far as it may go. Refusals, in this order: 5, 4, 10.
#[unsafe(no_mangle)]
pub extern "C" fn nizgulk_advance_lse(
    state: State,
    entries: &[Entry],
    rows: &[u64],
    target: u64,
) -> Replied
    ensures { Replies (step (advance_lse target) (store_of state rows.now entries.now))
        result rows.now entries.now }
{
    let k = store::advance_lse(state, entries, rows, target);
    reply_to(k)
}

// Purging partition p at LSE. Refusals, in this order: 5, 1. The reply has the part in force as rows of those lent.
#[unsafe(no_mangle)]
pub extern "C" fn nizgulk_purge(
    state: State,
    entries: &mut [Entry],
    rows: &mut [u64],
    p: u64,
) -> Replied
    ensures { Purges (step (purge p) (store_of state rows.old entries.old))
        result rows.new entries.new }
{
    let k = store::purge(state, entries, rows, p);
    reply_to_purge(k, p)
}

// A checkpoint (02: round) of the store as of an epoch, to the front of out; later bytes stay. Refusals, in this order:
// 5, 4, 3.
#[unsafe(no_mangle)]
pub extern "C" fn nizgulk_save(
    state: State,
    entries: &[Entry],
    rows: &[u64],
    out: &mut [u8],
    epoch: u64,
) -> Seen
    ensures { Shows (step (save epoch out.old) (store_of state rows.now
        entries.now)) result out.new (store_of state rows.now entries.now) }
{
    let a = recovery::save(state, entries, rows, out, epoch);
    reply_to_read(a)
}

// The store of the last whole checkpoint in file, made new one epoch above it; at 1 where the file has none. It reads
// no state. Refusals, in this order: 5 (the lengths), 11.
#[unsafe(no_mangle)]
pub extern "C" fn nizgulk_recover(
    state: State,
    entries: &mut [Entry],
    rows: &mut [u64],
    file: &[u8],
) -> Replied
    ensures { Replies (step (recover file.now) (store_of state rows.old
        entries.old)) result rows.new entries.new }
{
    let k = recovery::recover(state, entries, rows, file);
    reply_to(k)
}
