// Roll back lot by lot over the lent areas. 01 "Lots", Roll back: a partition (01: lot) with an entry of the
// transaction (01: load) is rewritten into the spare area, and its old area is the spare of the next one.
// Both functions are inlined, as store's are: out of line, the partitions are copied once more.
ghost use Rattle.std.specs.Prelude.{◌≡◌};
ghost use Rattle.undo.specs.Lots.{lot_of, rolling_of, rolled_lots};

use crate::Lot;
use area::{Area, load};
use rewrite::moves::Move;
use rules::limits::PARTITIONS_MAX;
use rules::{Entry, Partitions};

// What the roll back of transaction i does to partition p, whose entries are a: nothing where it has none of i's.
#[tactic(auto, unfolding(crate::specs::Lots::lot_of))]
#[inline(always)]
fn decide(go: bool, a: Area, ps: Partitions, p: u64, i: u64) -> Option<Lot>
    ensures { result ≡ lot_of go a ps p i }
{
    if !go || !rewrite_plan::has_epoch(a, i) {
        return None;
    }
    let q = area::partition_at(ps, p);
    let plan = rewrite_plan::roll_plan(a, i);
    let done = rewrite::keep::rewritten(a, plan);
    let next = partition::areas::moved(ps, p as usize, done.rows, done.area.count);
    Some(Lot {
        moved: Move::to_spare(a, plan, done.area, q.area, ps.spare),
        partitions: next,
    })
}

// Transaction i rolled back in every partition, where go says so; else nothing is written.
#[inline(always)]
pub fn roll_lots(
    entries: &mut [Entry],
    rows: &mut [u64],
    ps: Partitions,
    i: u64,
    go: bool,
) -> Partitions
    ensures { rolling_of entries.new rows.new result
        ≡ rolled_lots go i (rolling_of entries.old rows.old ps) }
{
    let mut places = ps;
    for p in 0..PARTITIONS_MAX as u64 {
        let a = load(entries, places, p);
        if let Some(w) = decide(go, a, places, p, i) {
            w.moved.copy(rows);
            w.moved.put(entries);
            places = w.partitions;
        }
    }
    places
}
