// What the rows of a partition (01: lot) weigh, of some epochs, and beside them of some later ones, which land (02
// (iii)): the greatest clearing among either is found first, then the rows that are shown by it are weighed, each once.
#![tactic(auto)]

ghost use Rattle.std.specs.Prelude.{◌≡◌};
ghost use Rattle.totals.specs.Reach.{cut_of, cuts_of};
ghost use Rattle.totals.specs.Places.{from_of, to_of};

use rules::Partition;
use rules::limits::{AREAS_MAX, ENTRIES_MAX};

pub mod clearing;
pub mod shown;
pub mod weigh;

// The epochs above `over` and up to `high`, but for `gone`.
#[derive(Clone, Copy)]
pub struct Reach {
    pub over: u64,
    pub high: u64,
    pub gone: u64,
}

// The greatest clearing of a partition among such epochs: its epoch, and the row that the last one of it stands at;
// both 0 with none.
#[derive(Clone, Copy)]
pub struct Top {
    pub epoch: u64,
    pub edge: usize,
}

// Which rows are shown by it: those of epochs up to `high`, but for `gone`, and above `low`, or of `low` from row
// `edge` on. The rows of the partition stand from row `base` on.
#[derive(Clone, Copy)]
pub struct Cut {
    pub low: u64,
    pub edge: usize,
    pub high: u64,
    pub gone: u64,
    pub base: usize,
}

// Of the epochs that are asked for, and of the later ones that land.
#[derive(Clone, Copy)]
pub struct Cuts {
    pub shown: Cut,
    pub lands: Cut,
}

// Where the weighing stands: the rows from `from` up to `end` are shown and not yet weighed, `sum` is what was weighed
// before them; `more` is what the rows that land weigh.
#[derive(Clone, Copy)]
pub struct Tally {
    pub from: usize,
    pub end: usize,
    pub sum: u64,
    pub more: u64,
}

// With no clearing all rows above `over` are shown: none stands past the edge.
pub fn cut_of(r: Reach, t: Top, base: usize) -> Cut
    ensures { result ≡ cut_of r t base }
{
    if t.epoch == 0 {
        return Cut {
            low: r.over,
            edge: usize::MAX,
            high: r.high,
            gone: r.gone,
            base: base,
        };
    }
    Cut {
        low: t.epoch,
        edge: t.edge,
        high: r.high,
        gone: r.gone,
        base: base,
    }
}

// The rows of partition q: by the clearing t of the epochs r, and by the newest of those that land.
pub fn cuts_of(q: Partition, r: Reach, t: Top, lands: Reach, newest: Top) -> Cuts
    ensures { result ≡ cuts_of q r t lands newest }
{
    let base = area::row_base(q.area);
    let c = cut_of(r, t, base);
    let d = cut_of(lands, newest, base);
    Cuts { shown: c, lands: d }
}

// Where the entries of a partition begin and end, nowhere where its numbers are out of range.
#[tactic(auto, unfolding(crate::specs::Places::from_of))]
pub fn from_of(q: Partition) -> usize
    ensures { result ≡ from_of q }
{
    if AREAS_MAX <= q.area {
        return 0;
    }
    if ENTRIES_MAX < q.entries {
        return 0;
    }
    ENTRIES_MAX * q.area
}

#[tactic(auto, unfolding(crate::specs::Places::to_of))]
pub fn to_of(q: Partition) -> usize
    ensures { result ≡ to_of q }
{
    if AREAS_MAX <= q.area {
        return 0;
    }
    if ENTRIES_MAX < q.entries {
        return 0;
    }
    ENTRIES_MAX * q.area + q.entries
}
