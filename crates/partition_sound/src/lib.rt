// The part of 01's *sound* that is about lots. 01 "Refusals that come from the state", last paragraph.
#![tactic(auto)]

ghost use Rattle.std.specs.Prelude.{◌≡◌, ◌&&◌, leb};
ghost use Rattle.rules.specs.Limits.{rows_max, entries_max};
ghost use Rattle.partition_sound.specs.Sound.{epochs_of, epochs_with};
ghost use Rattle.partition_sound.specs.Asked.{raised, asked_of, asked_for, lengths_are, rest_asked};
ghost use Rattle.partition_sound.specs.Rest.{rest_found};

use numbers::fill;
use rules::limits::{ENTRIES_LENT, ENTRIES_MAX, PARTITIONS_MAX, ROWS_LENT, ROWS_MAX, WRITERS_MAX};
use rules::{Clock, Entry, Partition, Partitions, RwTxns};
use totals::{Reach, clearing, shown};

mod areas;
mod numbers;
mod pass;
mod rest;

// Where a partition stands after an entry: its epoch, 0 where it is a delete (01: clearing), its end, whether all are
// well so far, whether one was a delete, and whether one has an epoch above `low` (Held).
#[derive(Clone, Copy)]
pub struct Last {
    pub epoch: u64,
    pub end: usize,
    pub ok: bool,
    pub cleared: bool,
    pub above: bool,
}

// What an entry's epoch is held against: it lies below EC, up to LCE it needs no record, and so many of the epochs that
// are lent beside are those of records. Up to `low` it needs no test.
#[derive(Clone, Copy)]
pub struct Held {
    pub ec: u64,
    pub lce: u64,
    pub count: usize,
    pub low: u64,
}

// What the test of the lots asks of the books: the clock, with LCE raised to EC where each epoch between has a record;
// LCE; the epochs of the records; the partitions and their totals; and the epochs above LCE that land by the call, of
// which there are none but at a commit or a roll back.
#[derive(Clone, Copy)]
pub struct Asked {
    pub clock: Clock,
    pub lce: u64,
    pub epochs: [u64; WRITERS_MAX],
    pub count: usize,
    pub partitions: Partitions,
    pub totals: [u64; PARTITIONS_MAX],
    pub lands: Reach,
}

// What is found of the partitions so far: the totals once these epochs have landed, and which are whole: they have no
// delete, and no epoch above `low`, so that a page at `low` or later is shown all their rows.
#[derive(Clone, Copy)]
pub struct Landed {
    pub totals: [u64; PARTITIONS_MAX],
    pub whole: [bool; PARTITIONS_MAX],
    pub low: u64,
}

// What the test finds: the same of all partitions, and whether all is well.
#[derive(Clone, Copy)]
pub struct Verdict {
    pub totals: [u64; PARTITIONS_MAX],
    pub whole: [bool; PARTITIONS_MAX],
    pub low: u64,
    pub ok: bool,
}

// The epochs of the read-write transactions (01: loads) that have a record.
#[derive(Clone, Copy)]
struct Epochs {
    at: [u64; WRITERS_MAX],
    count: usize,
}

// The epochs of the records in use.
fn epochs_of(ts: RwTxns) -> Epochs
    ensures { result ≡ epochs_with (epochs_of ts) }
{
    let count = ts.count.min(WRITERS_MAX);
    let mut at = [0u64; WRITERS_MAX];
    for i in 0..count {
        at[i] = ts.at[i].epoch;
    }
    Epochs { at, count }
}

// An epoch above LCE is then looked up only where one between LCE and EC has no record.
#[tactic(auto, unfolding(crate::specs::Asked::raised))]
fn raise(c: Clock, epochs: &[u64]) -> Clock
    ensures { result ≡ raised c epochs.now }
{
    if !fill(epochs, c.lce, c.ec) {
        return c;
    }
    Clock { lce: c.ec, ..c }
}

// At most 512 rows and 64 entries.
fn counts_ok(q: Partition) -> bool
    ensures { result ≡ leb q.rows rows_max && leb q.entries entries_max }
{
    if q.rows <= ROWS_MAX {
        q.entries <= ENTRIES_MAX
    } else {
        false
    }
}

// What is asked of books with this clock, these records, these partitions and totals, where nothing lands. By parts:
// the books lent whole were tried, and cost a copy of them a call (an append copied 76,832 bytes and not 32,800).
pub fn ask(clock: Clock, ts: RwTxns, ps: Partitions, totals: [u64; PARTITIONS_MAX]) -> Asked
    ensures { result ≡ asked_of clock ts ps totals }
{
    ask_landing(clock, ts, ps, totals, clock.lce, 0)
}

// The same where the epochs above LCE up to `high` land, but for `gone`.
pub fn ask_landing(
    clock: Clock,
    ts: RwTxns,
    ps: Partitions,
    totals: [u64; PARTITIONS_MAX],
    high: u64,
    gone: u64,
) -> Asked
    ensures { result ≡ asked_for clock ts ps totals high gone }
{
    let es = epochs_of(ts);
    let epochs = es.at;
    let count = es.count;
    let clock_raised = raise(clock, &epochs[..count]);
    Asked {
        clock: clock_raised,
        lce: clock.lce,
        epochs,
        count,
        partitions: ps,
        totals,
        lands: Reach {
            over: clock.lce,
            high,
            gone,
        },
    }
}

// n entries and m rows are lent.
#[tactic(auto, unfolding(crate::specs::Asked::lengths_are))]
pub fn lengths_ok(n: usize, m: usize) -> bool
    ensures { result ≡ lengths_are n m }
{
    if m != ROWS_LENT {
        return false;
    }
    n == ENTRIES_LENT
}

// *sound* but for the manager.
pub fn rest_ok(entries: &[Entry], rows: &[u64], a: Asked) -> bool
    ensures { result ≡ rest_asked entries.now rows.now a }
{
    rest_of(entries, rows, a).ok
}

// *sound* but for the manager, the totals once what is asked for has landed, and which partitions are whole. One pass
// over the entries in use of each partition, to which the records' epochs are lent; then, where the partition is well,
// one over its entries and rows, which weighs it, and what lands (02 (iii)): of a whole partition over the last entry.
#[tactic(auto, unfolding(crate::proofs::Laws::Rest::ok_up_to, crate::specs::Rest::landed_below))]
pub fn rest_of(entries: &[Entry], rows: &[u64], a: Asked) -> Verdict
    ensures { result ≡ rest_found entries.now rows.now a }
{
    let held = rest::held_of(a);
    let places = a.partitions;
    let kept = a.totals;
    let epochs = a.epochs;
    let lands = a.lands;
    let reach = rest::reach_of(a);
    let start = rest::start();
    let none = clearing::no_top();
    let empty = shown::no_tally();
    let mut ok = rest::begin(entries.len(), rows.len(), places);
    let mut after = rest::before(a);
    for p in 0..PARTITIONS_MAX {
        let q = area::each_place(places, p);
        let from = totals::from_of(q);
        let to = totals::to_of(q);
        let last = pass::pass(entries, &epochs, held, start, from, to);
        let end = rest::weighed_to(q, last, from, to);
        let stop = rest::cleared_to(last, from, end);
        let top = clearing::find(entries, reach, none, from, stop);
        let below = rest::landing_to(lands, from, stop);
        let newest = clearing::find(entries, lands, none, from, below);
        let cuts = totals::cuts_of(q, reach, top, lands, newest);
        let first = rest::weighed_from(last, from, end);
        let t = shown::tally(entries, rows, cuts, empty, first, end);
        ok = rest::judged(rows, ok, kept, p, q, last, cuts, t);
        after = rest::landed_at(after, p, last, newest, t);
    }
    rest::found(ok, after)
}
