// A record more, and its row of the table of deps. 01 "The books", Begin.
ghost use Rattle.std.specs.Prelude.{◌≡◌, ◌<◌, ◌*◌, length};
ghost use Rattle.lists.specs.Lists.{over};
ghost use Rattle.rules.specs.Limits.{writers_max, deps_max, deps_all};
ghost use Rattle.txn_start.specs.Begin.{opened_in, recorded_in};

use rules::limits::{DEPS_ALL, DEPS_MAX};
use rules::{RwTxn, RwTxns};

// The epochs of the open records, in order, into the row after those in use; answers how many.
pub(crate) fn put_deps(ts: RwTxns, deps: &mut [u64; DEPS_ALL]) -> usize
    requires { (ts.count < writers_max) × (length deps.old ≡ deps_all) }
    ensures { (result ≡ length (opened_in ts))
        × (deps.new ≡ over (deps_max * ts.count) (opened_in ts) deps.old) }
{
    let n = ts.count;
    let from = DEPS_MAX * n;
    let mut k: usize = 0;
    for t in &ts.at[..n] {
        let open = t.waiting == 0;
        if open {
            deps[from + k] = t.epoch;
            k += 1;
        }
    }
    k
}

// The record of epoch e, open, with k deps, after those in use.
pub(crate) fn recorded(ts: RwTxns, e: u64, k: usize) -> RwTxns
    requires { ts.count < writers_max }
    ensures { result ≡ recorded_in e k ts }
{
    let mut r = ts;
    let n = r.count;
    r.at[n] = RwTxn {
        epoch: e,
        waiting: 0,
        deps: k,
    };
    r.count = n + 1;
    r
}
