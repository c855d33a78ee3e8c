// The greatest clearing among some epochs, by one pass over the lent entries of a partition (01: lot).
ghost use Rattle.std.specs.Prelude.{◌≡◌, ◌-◌};
ghost use Rattle.lent.specs.Shapes.{turned};
ghost use Rattle.totals.specs.Reach.{no_top, top_turn};

use crate::{Reach, Top};
use lent::read_entry;
use rules::Entry;

pub fn no_top() -> Top
    ensures { result ≡ no_top }
{
    Top { epoch: 0, edge: 0 }
}

// One entry more.
#[tactic(auto, unfolding(crate::specs::Reach::in_reach))]
fn step(r: Reach, t: Top, e: Entry) -> Top
    ensures { result ≡ top_turn r t e }
{
    if e.mark != 1 {
        return t;
    }
    let j = e.epoch;
    if j <= r.over {
        return t;
    }
    if r.high < j {
        return t;
    }
    if j == r.gone {
        return t;
    }
    if j < t.epoch {
        return t;
    }
    Top {
        epoch: j,
        edge: e.end,
    }
}

// The entries from one index up to another, each a step.
pub fn find(entries: &[Entry], r: Reach, start: Top, from: usize, to: usize) -> Top
    ensures { result ≡ turned (top_turn r) start entries.now from (to - from) }
{
    (from..to).fold(start, |last, i| step(r, last, read_entry(entries, i)))
}
