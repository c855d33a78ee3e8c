// The entries that a plan keeps, one after the other. 01 "Lots", Roll back, Purge.
ghost use Rattle.std.specs.Prelude.{◌≡◌, true, ◌+◌, ◌-◌, ◌≤◌, ◌<◌, length};
ghost use Rattle.rules.specs.Limits.{rows_max, entries_max};
ghost use Rattle.rewrite.specs.Kept.{ends_fit, kept_of, rewritten_of};
ghost use Rattle.rewrite.specs.Passes.{joins_last, pushed, stepped};

use crate::Rewritten;
use crate::ends::ends_fit;
use area::Area;
use rewrite_plan::Plan;
use rules::Entry;
use rules::limits::ENTRIES_MAX;

const ROWS: u64 = 0;

const DELETE: u64 = 1;

// The last entry kept so far, its index, how many are kept and how many rows they have.
#[derive(Clone, Copy)]
pub(crate) struct Last {
    pub place: usize,
    pub count: usize,
    pub rows: usize,
    pub entry: Entry,
}

// Whether an entry of new epoch p is rows that join the last one.
fn joins(x: Entry, p: u64, e: Entry) -> bool
    ensures { result ≡ joins_last x p e }
{
    x.mark != 1 && e.mark != 1 && p == x.epoch
}

fn push(last: Last, p: u64, e: Entry, rows: usize) -> Last
    requires { last.count < entries_max }
    ensures { result ≡ pushed last p e rows }
{
    let mark = if e.mark == 1 { DELETE } else { ROWS };
    Last {
        place: last.count,
        count: last.count + 1,
        rows,
        entry: Entry {
            epoch: p,
            end: rows,
            mark,
        },
    }
}

// The entry e, whose rows begin at row `from`, with the epoch p that the plan has for it.
#[tactic(auto, unfolding(crate::specs::Passes::stepped))]
fn step(last: Last, p: u64, e: Entry, from: usize) -> Last
    requires { (last.count < entries_max) × (from ≤ e.end) × (last.rows + (e.end - from) ≤ rows_max) }
    ensures { result ≡ stepped last p e from }
{
    if p == 0 {
        return last;
    }
    let rows = last.rows + (e.end - from);
    if joins(last.entry, p, e) {
        let entry = Entry {
            epoch: p,
            end: rows,
            mark: ROWS,
        };
        return Last {
            rows,
            entry,
            ..last
        };
    }
    push(last, p, e, rows)
}

// Of these entries.
fn keep(es: &[Entry], plan: Plan) -> Rewritten
    requires { (length es.now ≤ entries_max) × (ends_fit 0 es.now ≡ true) }
    ensures { result ≡ kept_of plan.at es.now }
{
    let none = Entry {
        epoch: 0,
        end: 0,
        mark: ROWS,
    };
    let mut at = [none; ENTRIES_MAX];
    let mut last = Last {
        place: 0,
        count: 0,
        rows: 0,
        entry: none,
    };
    let mut from = 0;
    for (k, e) in es.iter().enumerate() {
        last = step(last, plan.at[k], *e, from);
        at[last.place] = last.entry;
        from = e.end;
    }
    Rewritten {
        area: Area {
            at,
            count: last.count,
        },
        rows: last.rows,
    }
}

// The entries that the plan keeps, with the epochs that it has for them: ends lowered, neighbouring rows of
// one epoch joined. Where ends fall or lie above the rows of an area, none.
#[tactic(auto, unfolding(crate::specs::Kept::rewritten_of, crate::specs::Kept::ends_fit))]
pub fn rewritten(a: Area, p: Plan) -> Rewritten
    ensures { result ≡ rewritten_of a p }
{
    let es = a.entries();
    if !ends_fit(es) {
        return keep(&[], p);
    }
    keep(es, p)
}
