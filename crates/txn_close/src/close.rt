// Close, then settle LCE. 01 "The books", Commit, roll back; 02 (i); 004 III-B "LCE".
ghost use Rattle.std.specs.Prelude.{◌≡◌, [], map, suc, ◌+◌, ◌≤◌, ◌<◌, length, take, drop, set, replicate};
ghost use Rattle.lists.specs.Lists.{over, pad};
ghost use Rattle.rules.specs.Limits.{writers_max, deps_max, deps_all};
ghost use Rattle.rules.specs.Manager.{no_rw, view};
ghost use Rattle.rules.specs.Close.{waiting_txn};
ghost use Rattle.txn.specs.Records.{cut, table_with, viewed, Tidy};
ghost use Rattle.txn_close.specs.Close.{lead, reach_of, books_with, closed_txns, settled_by};

use rules::limits::{DEPS_ALL, DEPS_MAX, WRITERS_MAX};
use rules::{Clock, RwTxn, RwTxns};
use txn::cut;

// What a close changes beside the table of deps, which is lent (01: the books, without the lots).
#[derive(Clone, Copy)]
pub struct Books {
    pub clock: Clock,
    pub writers: RwTxns,
}

// The books once LCE is settled, and the oldest open epoch, or 0.
#[derive(Clone, Copy)]
pub struct Settled {
    pub books: Books,
    pub oldest: u64,
}

// LCE once settled, how many records wait no longer, and the epoch of the first open one, or 0.
#[derive(Clone, Copy)]
struct Reached {
    lce: u64,
    count: usize,
    oldest: u64,
}

// The records that wait before the first open one, and that one.
fn reach(ts: RwTxns, lce: u64) -> Reached
    ensures { result ≡ reach_of lce (map (view []) (take ts.count ts.at)) }
{
    let n = ts.count.min(WRITERS_MAX);
    let mut last = lce;
    for (k, t) in ts.at[..n].iter().enumerate() {
        if t.waiting == 0 {
            return Reached {
                lce: last,
                count: k,
                oldest: t.epoch,
            };
        }
        last = t.epoch;
    }
    Reached {
        lce: last,
        count: n,
        oldest: 0,
    }
}

// The records without those from place a up to place b.
fn cut_writers(ts: RwTxns, a: usize, b: usize) -> RwTxns
    requires a_le_b { (a ≤ b) × (b ≤ ts.count) × (ts.count ≤ writers_max) }
    requires at_value { ts.at ≡ pad writers_max no_rw (take ts.count ts.at) }
    ensures { (result.at ≡ pad writers_max no_rw (cut a b (take ts.count ts.at)))
        × (result.count ≡ length (cut a b (take ts.count ts.at))) }
{
    let n = ts.count;
    let mut at = ts.at;
    cut(&mut at[..n], a, b, RwTxn::default());
    RwTxns {
        at: at,
        count: n - (b - a),
    }
}

// The first n words of the table without those from word a up to word b.
fn cut_words(deps: &mut [u64; DEPS_ALL], a: usize, b: usize, n: usize)
    requires a_le_b { (a ≤ b) × (b ≤ n) × (n ≤ deps_all) × (length deps.old ≡ deps_all) }
    requires deps_value { deps.old ≡ pad deps_all 0 (take n deps.old) }
    ensures { deps.new ≡ pad deps_all 0 (cut a b (take n deps.old)) }
{
    cut(&mut deps[..n], a, b, 0);
}

// A row of the table, 0.
fn zero_row(deps: &mut [u64; DEPS_ALL], from: usize)
    requires { (from + deps_max ≤ deps_all) × (length deps.old ≡ deps_all) }
    ensures { deps.new ≡ over from (replicate deps_max 0) deps.old }
{
    deps[from..from + DEPS_MAX].fill(0);
}

impl Books {
    // Committed: the transaction of epoch i, at place j, waits and drops its deps.
    fn closed_waiting(self, deps: &mut [u64; DEPS_ALL], j: usize, i: u64) -> Books
        requires tidy { Tidy self.writers deps.old }
        requires j_lt_count { j < self.writers.count }
        ensures { let ws = set (viewed self.writers deps.old) j (waiting_txn i) in
            (result ≡ books_with self.clock ws) × (deps.new ≡ table_with ws) }
    {
        zero_row(deps, DEPS_MAX * j);
        let clock = self.clock;
        let mut ts = self.writers;
        ts.at[j] = RwTxn {
            epoch: i,
            waiting: 1,
            deps: 0,
        };
        Books {
            clock: clock,
            writers: ts,
        }
    }

    // Rolled back: the transaction at place j has no place any more.
    fn closed_dropped(self, deps: &mut [u64; DEPS_ALL], j: usize) -> Books
        requires tidy { Tidy self.writers deps.old }
        requires j_lt_count { j < self.writers.count }
        ensures { let ws = cut j (suc j) (viewed self.writers deps.old) in
            (result ≡ books_with self.clock ws) × (deps.new ≡ table_with ws) }
    {
        let n = self.writers.count;
        cut_words(deps, DEPS_MAX * j, DEPS_MAX * (j + 1), DEPS_MAX * n);
        let ts = cut_writers(self.writers, j, j + 1);
        let clock = self.clock;
        Books {
            clock: clock,
            writers: ts,
        }
    }

    // The transaction of epoch i, at place j, is closed: committed it waits, rolled back it leaves no record.
    pub(crate) fn close(self, deps: &mut [u64; DEPS_ALL], j: usize, i: u64, waits: bool) -> Books
        requires tidy { Tidy self.writers deps.old }
        requires j_lt_count { j < self.writers.count }
        ensures { let ws = closed_txns waits j i (viewed self.writers deps.old) in
            (result ≡ books_with self.clock ws) × (deps.new ≡ table_with ws) }
    {
        if waits {
            return self.closed_waiting(deps, j, i);
        }
        self.closed_dropped(deps, j)
    }

    // LCE is settled, and what it has reached waits no longer.
    pub(crate) fn settle(self, deps: &mut [u64; DEPS_ALL]) -> Settled
        requires { Tidy self.writers deps.old }
        ensures { let ws = viewed self.writers deps.old in
            (result ≡ settled_by self.clock ws) × (deps.new ≡ table_with (drop (lead ws) ws)) }
    {
        let reached = reach(self.writers, self.clock.lce);
        let k = reached.count;
        if k == 0 {
            return Settled {
                books: self,
                oldest: reached.oldest,
            };
        }
        let n = self.writers.count;
        cut_words(deps, 0, DEPS_MAX * k, DEPS_MAX * n);
        let ts = cut_writers(self.writers, 0, k);
        let mut clock = self.clock;
        clock.lce = reached.lce;
        Settled {
            books: Books {
                clock: clock,
                writers: ts,
            },
            oldest: reached.oldest,
        }
    }
}
