// Where a transaction stands in the manager. 01 "Refusals that come from the input", 2.
#![tactic(auto)]

ghost use Rattle.std.specs.Prelude.{◌≡◌};
ghost use Rattle.txn_find.specs.Find.{writer_at, reader_at, row_at};

use rules::limits::{DEPS_MAX, READERS_MAX, WRITERS_MAX};
use rules::{RoTxns, RwTxns};

// The place of the open transaction of epoch i.
pub fn find_writer(ts: RwTxns, i: u64) -> Option<usize>
    ensures { result ≡ writer_at i ts }
{
    let n = ts.count.min(WRITERS_MAX);
    ts.at[..n]
        .iter()
        .position(|t| t.waiting == 0 && t.epoch == i)
}

// The place of the read-only transaction of ticket t.
pub fn find_reader(ps: RoTxns, t: u64) -> Option<usize>
    ensures { result ≡ reader_at t ps }
{
    let n = ps.count.min(READERS_MAX);
    ps.at[..n].iter().position(|p| p.ticket == t)
}

// The first n words of row j of the table of deps, none where the table has no such row.
pub fn row_of(deps: &[u64], j: usize, n: usize) -> &[u64]
    ensures { result.now ≡ row_at n j deps.now }
{
    let from = DEPS_MAX * j.min(WRITERS_MAX);
    if deps.len() < from {
        return &deps[..0];
    }
    let end = from + n.min(DEPS_MAX).min(deps.len() - from);
    &deps[from..end]
}
