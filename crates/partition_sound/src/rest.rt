// The parts of the pass over all partitions (01: lots) that know no lent entry. 01 "Refusals that come from the state",
// *sound*.
ghost use Rattle.std.specs.Prelude.{◌≡◌, set};
ghost use Rattle.partition_sound.specs.Rest.{low_of, held_of, reach_of, start_of, before_of, begins, weighed_to};
ghost use Rattle.partition_sound.specs.Rest.{is_whole, weighed_from, cleared_to, landing_to, judged_of};
ghost use Rattle.partition_sound.specs.Rest.{landed_total, landed_at, found_of};

use crate::areas::areas_ok;
use crate::{Asked, Held, Landed, Last, Verdict, counts_ok, lengths_ok};
use rules::limits::PARTITIONS_MAX;
use rules::{Partition, Partitions};
use totals::shown::closed;
use totals::weigh::add;
use totals::{Cuts, Reach, Tally, Top};

// LCE, where it lies below EC and up to it no epoch needs a record; else no epoch at all.
#[tactic(auto, unfolding(crate::specs::Rest::low_of))]
fn low_of(a: Asked) -> u64
    ensures { result ≡ low_of a }
{
    if a.clock.ec <= a.lce {
        return 0;
    }
    if a.clock.lce < a.lce {
        return 0;
    }
    a.lce
}

pub fn held_of(a: Asked) -> Held
    ensures { result ≡ held_of a }
{
    Held {
        ec: a.clock.ec,
        lce: a.clock.lce,
        count: a.count,
        low: low_of(a),
    }
}

// The epochs that a page at LCE sees.
pub fn reach_of(a: Asked) -> Reach
    ensures { result ≡ reach_of a }
{
    Reach {
        over: 0,
        high: a.lce,
        gone: 0,
    }
}

// No partition yet.
pub fn before(a: Asked) -> Landed
    ensures { result ≡ before_of a }
{
    let totals = a.totals;
    Landed {
        totals,
        whole: [false; PARTITIONS_MAX],
        low: low_of(a),
    }
}

// No entry yet.
pub fn start() -> Last
    ensures { result ≡ start_of }
{
    Last {
        epoch: 0,
        end: 0,
        ok: true,
        cleared: false,
        above: false,
    }
}

// n entries and m rows are lent, and the areas are shared out once.
pub fn begin(n: usize, m: usize, ps: Partitions) -> bool
    ensures { result ≡ begins n m ps }
{
    if !lengths_ok(n, m) {
        return false;
    }
    areas_ok(ps)
}

// Up to where a partition is weighed: to the end, and nowhere where it is not well.
#[tactic(auto, unfolding(crate::specs::Rest::weighed_to))]
pub fn weighed_to(q: Partition, last: Last, from: usize, to: usize) -> usize
    ensures { result ≡ weighed_to q last from to }
{
    if !counts_ok(q) {
        return from;
    }
    if last.end != q.rows {
        return from;
    }
    if !last.ok {
        return from;
    }
    to
}

// All rows of the partition are shown to a page at `low` or later.
fn is_whole(last: Last) -> bool
    ensures { result ≡ is_whole last }
{
    if last.above {
        return false;
    }
    !last.cleared
}

// From where it is weighed: of a whole partition the last entry alone tells which rows are shown.
#[tactic(auto, unfolding(crate::specs::Rest::weighed_from))]
pub fn weighed_from(last: Last, from: usize, end: usize) -> usize
    ensures { result ≡ weighed_from last from end }
{
    if !is_whole(last) {
        return from;
    }
    if end <= from {
        return from;
    }
    end - 1
}

// Up to where the greatest clearing is sought: nowhere where there is none.
#[tactic(auto, unfolding(crate::specs::Rest::cleared_to))]
pub fn cleared_to(last: Last, from: usize, end: usize) -> usize
    ensures { result ≡ cleared_to last from end }
{
    if last.cleared {
        return end;
    }
    from
}

// Up to where the newest clearing is sought among what lands: nowhere where nothing does.
#[tactic(auto, unfolding(crate::specs::Rest::landing_to))]
pub fn landing_to(r: Reach, from: usize, stop: usize) -> usize
    ensures { result ≡ landing_to r from stop }
{
    if r.high == r.over {
        return from;
    }
    stop
}

// Partition q is well, after those before it, and weighs its total.
#[tactic(auto, unfolding(crate::specs::Rest::judged_of))]
pub fn judged(
    rows: &[u64],
    ok: bool,
    totals: [u64; PARTITIONS_MAX],
    p: usize,
    q: Partition,
    last: Last,
    c: Cuts,
    t: Tally,
) -> bool
    ensures { result ≡ judged_of rows.now ok totals p q last c t }
{
    if !ok {
        return false;
    }
    if !counts_ok(q) {
        return false;
    }
    if last.end != q.rows {
        return false;
    }
    if !last.ok {
        return false;
    }
    if PARTITIONS_MAX <= p {
        return false;
    }
    totals[p] == closed(rows, c.shown.base, t)
}

// The total of partition p: a clearing that lands takes out what was there, and what lands comes on top.
fn total_at(totals: [u64; PARTITIONS_MAX], p: usize, newest: Top, t: Tally) -> [u64; PARTITIONS_MAX]
    ensures { result ≡ landed_total totals p newest t }
{
    let mut next = totals;
    if p < PARTITIONS_MAX {
        let mut before = 0;
        if newest.epoch == 0 {
            before = next[p];
        }
        next[p] = add(before, t.more);
    }
    next
}

fn whole_at(whole: [bool; PARTITIONS_MAX], p: usize, last: Last) -> [bool; PARTITIONS_MAX]
    ensures { result ≡ set whole p (is_whole last) }
{
    let mut next = whole;
    if p < PARTITIONS_MAX {
        next[p] = is_whole(last);
    }
    next
}

// Partition p too.
#[tactic(auto, unfolding(crate::specs::Rest::landed_at))]
pub fn landed_at(after: Landed, p: usize, last: Last, newest: Top, t: Tally) -> Landed
    ensures { result ≡ landed_at after p last newest t }
{
    Landed {
        totals: total_at(after.totals, p, newest, t),
        whole: whole_at(after.whole, p, last),
        low: after.low,
    }
}

pub fn found(ok: bool, after: Landed) -> Verdict
    ensures { result ≡ found_of ok after }
{
    let totals = after.totals;
    let whole = after.whole;
    Verdict {
        totals,
        whole,
        low: after.low,
        ok,
    }
}
