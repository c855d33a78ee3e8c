// What a roll back and a purge do with each entry of a partition, and whether they have anything to do. 01 "Lots",
// Roll back, Purge; 004 III-C 4, 5.
#![tactic(auto)]

ghost use Rattle.std.specs.Prelude.{◌≡◌, not, ◌&&◌, leb, eqb};
ghost use Rattle.rules.specs.Rewrite.{has_epoch, skips as skipping};
ghost use Rattle.rules.specs.Top.{covers};
ghost use Rattle.rules.specs.Bare.{bare_span};
ghost use Rattle.visible.specs.Passes.{as_top};
ghost use Rattle.rewrite_plan.specs.Plan.{spans_in, plan_of, roll_epoch, roll_epochs, purge_epoch, purge_epochs};

use area::Area;
use rules::Entry;
use rules::limits::ENTRIES_MAX;
use visible::View;
use visible::delete::{Top, find_top, hides};

// For the entry at each index: 0 where it goes, else its new epoch.
// Numbers and no Option: the definitions plan_of and kept hold them so.
#[repr(C)]
#[derive(Clone, Copy)]
pub struct Plan {
    pub at: [u64; ENTRIES_MAX],
}

// ---- whether there is anything to do

// Whether the transaction of epoch i (01: load) has an entry.
pub fn has_epoch(a: Area, i: u64) -> bool
    ensures { result ≡ has_epoch i (spans_in a) }
{
    a.entries().iter().any(|e| e.epoch == i)
}

// Whether a purge at l leaves the entry as it is.
fn stays(e: Entry, l: u64) -> bool
    ensures { result ≡ (leb l e.epoch && not (eqb e.mark 1 && leb e.epoch l)) }
{
    l <= e.epoch && (e.mark != 1 || l < e.epoch)
}

// Whether a purge at l is skipped: no entry is below l and no delete (01: clearing) at or below it.
pub fn skips(a: Area, l: u64) -> bool
    ensures { result ≡ skipping l (spans_in a) }
{
    a.entries().iter().all(|e| stays(*e, l))
}

// ---- what becomes of each entry

fn roll_epoch(e: Entry, i: u64) -> u64
    ensures { result ≡ roll_epoch i (bare_span 0 e) }
{
    if e.epoch == i { 0 } else { e.epoch }
}

// The transaction of epoch i (01: load) is rolled back: its entries go.
pub fn roll_plan(a: Area, i: u64) -> Plan
    ensures { result ≡ plan_of (roll_epochs i (spans_in a)) }
{
    let es = a.entries();
    let mut at = [0; ENTRIES_MAX];
    for (k, e) in es.iter().enumerate() {
        at[k] = roll_epoch(*e, i);
    }
    Plan { at }
}

// The entry at index k, after the greatest delete is known.
fn purge_epoch(top: Top, e: Entry, l: u64, k: usize) -> u64
    ensures { result ≡ purge_epoch l (covers (as_top top) k e.epoch) (bare_span 0 e) }
{
    if e.mark == 1 {
        if e.epoch <= l { 0 } else { e.epoch }
    } else if hides(top, k, e.epoch) {
        0
    } else {
        e.epoch.max(l)
    }
}

// Purge at l: deletes (01: clearings) of at most l go, with the rows that they hide; other rows of at most l
// get epoch l.
pub fn purge_plan(a: Area, l: u64) -> Plan
    ensures { result ≡ plan_of (purge_epochs l (spans_in a) (spans_in a)) }
{
    let es = a.entries();
    let top = find_top(View::Ro(l), &[], es);
    let mut at = [0; ENTRIES_MAX];
    for (k, e) in es.iter().enumerate() {
        at[k] = purge_epoch(top, *e, l, k);
    }
    Plan { at }
}
