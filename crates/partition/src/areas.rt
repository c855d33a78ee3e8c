// A partition put in its place, or into the spare area. 01 "Lots".
ghost use Rattle.std.specs.Prelude.{◌≡◌};
ghost use Rattle.partition.specs.Areas.{with_partition, moved_to};

use rules::limits::PARTITIONS_MAX;
use rules::{Partition, Partitions};

// The partitions with q in place p; a place that there is not changes nothing.
pub fn with_partition(ps: Partitions, p: usize, q: Partition) -> Partitions
    ensures { result ≡ with_partition p q ps }
{
    let mut next = ps;
    if p < PARTITIONS_MAX {
        next.at[p] = q;
    }
    next
}

// Partition p lies in the area that was spare, with so many rows and entries, and its old area is the spare: 01 "Lots",
// Roll back, Purge. A place that there is not changes nothing.
#[tactic(auto, unfolding(crate::specs::Areas::moved_to))]
pub fn moved(ps: Partitions, p: usize, rows: usize, entries: usize) -> Partitions
    ensures { result ≡ moved_to p rows entries ps }
{
    if PARTITIONS_MAX <= p {
        return ps;
    }
    let q = ps.at[p];
    let mut next = ps;
    next.at[p] = Partition {
        area: ps.spare,
        rows,
        entries,
    };
    next.spare = q.area;
    next
}
