// The rows that are shown, weighed, and beside them those that land: one pass over the lent entries of a partition (01:
// lot), and over its rows. Shown rows that stand together are weighed together.
ghost use Rattle.std.specs.Prelude.{◌≡◌, ◌-◌};
ghost use Rattle.lent.specs.Shapes.{turned};
ghost use Rattle.totals.specs.Reach.{shows};
ghost use Rattle.totals.specs.Weighed.{no_tally, closed_of, landed_of, tally_turn};

use crate::weigh::{add, weigh};
use crate::{Cut, Cuts, Tally};
use lent::read_entry;
use rules::Entry;

pub fn no_tally() -> Tally
    ensures { result ≡ no_tally }
{
    Tally {
        from: 0,
        end: 0,
        sum: 0,
        more: 0,
    }
}

// The rows of epoch j that begin at row n.
#[tactic(auto, unfolding(crate::specs::Reach::shows))]
pub fn is_shown(c: Cut, n: usize, j: u64) -> bool
    ensures { result ≡ shows c n j }
{
    if c.high < j {
        return false;
    }
    if j == c.gone {
        return false;
    }
    if n < c.edge {
        return c.low < j;
    }
    c.low <= j
}

// What was weighed before, and the rows that are not yet, of those that stand from row `base` on.
#[tactic(auto, unfolding(crate::specs::Weighed::closed_of))]
pub fn closed(rows: &[u64], base: usize, t: Tally) -> u64
    ensures { result ≡ closed_of rows.now base t }
{
    if t.end <= t.from {
        return t.sum;
    }
    let w = weigh(rows, base, t.from, t.end);
    add(t.sum, w)
}

// What lands up to row `end`, where the rows of epoch j begin at row t.end.
#[tactic(auto, unfolding(crate::specs::Weighed::landed_of))]
fn landed(rows: &[u64], c: Cut, t: Tally, end: usize, j: u64) -> u64
    ensures { result ≡ landed_of rows.now c t end j }
{
    if is_shown(c, t.end, j) {
        let w = weigh(rows, c.base, t.end, end);
        return add(t.more, w);
    }
    t.more
}

// One entry more.
fn step(rows: &[u64], c: Cuts, t: Tally, e: Entry) -> Tally
    ensures { result ≡ tally_turn rows.now c t e }
{
    let end = e.end;
    if is_shown(c.shown, t.end, e.epoch) {
        return Tally {
            from: t.from,
            end: end,
            sum: t.sum,
            more: t.more,
        };
    }
    let sum = closed(rows, c.shown.base, t);
    let more = landed(rows, c.lands, t, end, e.epoch);
    Tally {
        from: end,
        end: end,
        sum: sum,
        more: more,
    }
}

// The entries from one index up to another, each a step.
pub fn tally(
    entries: &[Entry],
    rows: &[u64],
    c: Cuts,
    start: Tally,
    from: usize,
    to: usize,
) -> Tally
    ensures { result ≡ turned (tally_turn rows.now c) start entries.now from (to - from) }
{
    (from..to).fold(start, |last, i| step(rows, c, last, read_entry(entries, i)))
}
