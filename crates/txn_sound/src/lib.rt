// Whether the manager is sound. 01 "Refusals that come from the state", last paragraph.
#![tactic(auto)]

ghost use Rattle.std.specs.Prelude.{◌&&◌, ◌≡◌, eqb, length};
ghost use Rattle.rules.specs.Limits.{deps_all};
ghost use Rattle.rules.specs.Manager.{manager_with};
ghost use Rattle.rules.specs.WellFormed.{zeros, manager_ok};
ghost use Rattle.txn_sound.specs.Sound.{waits_ok, row_ok, record_ok, writers_tested, reader_ok, readers_tested};

use epoch::clock_ok;
use rules::limits::{DEPS_ALL, DEPS_MAX, LAST_TICKET, READERS_MAX, WRITERS_MAX};
use rules::{Clock, RoTxn, RoTxns, RwTxn, RwTxns};

// ---- read-write transactions

// No branch in the loop: the words are joined, and the result is looked at once.
fn all_zero(xs: &[u64]) -> bool
    ensures { result ≡ zeros xs.now }
{
    let mut left: u64 = 0;
    for x in xs {
        left |= *x;
    }
    left == 0
}

// At most DEPS_MAX, rising, and 0 behind them. The last is the greatest, so it alone is held against the epoch.
// The loop has no branch: the deps that do not rise are counted, and the count is looked at once.
fn row_ok(row: &[u64], k: usize, lse: u64, epoch: u64) -> bool
    ensures { result ≡ row_ok lse epoch k row.now }
{
    if DEPS_MAX < k {
        return false;
    }
    let n = k.min(row.len());
    let mut lo = lse;
    let mut bad: u64 = 0;
    for d in &row[..n] {
        if *d <= lo {
            bad += 1;
        }
        lo = *d;
    }
    bad == 0 && (n == 0 || lo < epoch) && all_zero(&row[n..])
}

fn waits_ok(waiting: u64, seen: bool, k: usize) -> bool
    ensures { result ≡ waits_ok waiting seen k }
{
    waiting == 0 || (waiting == 1 && seen && k == 0)
}

// A record with its row, after one of epoch lo.
fn writer_ok(t: RwTxn, lo: u64, seen: bool, row: &[u64], c: Clock) -> bool
    ensures { result ≡ record_ok lo c seen row.now t }
{
    lo < t.epoch
        && t.epoch < c.ec
        && waits_ok(t.waiting, seen, t.deps)
        && row_ok(row, t.deps, c.lse, t.epoch)
}

// The records in use against those before them and their rows of the table, then what stands behind them.
fn writers_ok(ts: RwTxns, c: Clock, deps: &[u64]) -> bool
    ensures { result ≡ writers_tested c ts deps.now }
{
    let n = ts.count;
    if deps.len() != DEPS_ALL || WRITERS_MAX < n {
        return false;
    }
    let mut lo = c.lce;
    let mut seen = false;
    for (i, t) in ts.at[..n].iter().enumerate() {
        let from = DEPS_MAX * i;
        if !writer_ok(*t, lo, seen, &deps[from..from + DEPS_MAX], c) {
            return false;
        }
        lo = t.epoch;
        seen = seen || t.waiting == 0;
    }
    let mut left: u64 = 0;
    for t in &ts.at[n..] {
        left = left | t.epoch | t.waiting | (t.deps as u64);
    }
    left == 0 && all_zero(&deps[DEPS_MAX * n..])
}

// ---- read-only transactions

// A record after one of ticket lo.
fn reader_ok(p: RoTxn, lo: u64, next: u64, c: Clock) -> bool
    ensures { result ≡ reader_ok lo next c p }
{
    lo < p.ticket && p.ticket < next && c.lse <= p.epoch && p.epoch <= c.lce
}

fn readers_ok(ps: RoTxns, c: Clock) -> bool
    ensures { result ≡ readers_tested c ps }
{
    let n = ps.count;
    if READERS_MAX < n || ps.next < 1 || LAST_TICKET + 1 < ps.next {
        return false;
    }
    let mut lo: u64 = 0;
    for p in &ps.at[..n] {
        if !reader_ok(*p, lo, ps.next, c) {
            return false;
        }
        lo = p.ticket;
    }
    let mut left: u64 = 0;
    for p in &ps.at[n..] {
        left = left | p.ticket | p.epoch;
    }
    left == 0
}

// The manager's parts, its table of deps lent; a table of another length is refused.
pub fn parts_ok(c: Clock, ts: RwTxns, deps: &[u64], ps: RoTxns) -> bool
    ensures { result ≡ (eqb (length deps.now) deps_all
        && manager_ok (manager_with c ts deps.now ps)) }
{
    clock_ok(c) && writers_ok(ts, c, deps) && readers_ok(ps, c)
}
