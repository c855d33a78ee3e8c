// Moving LSE, and how far it may move, on the books by value. 01 "The books", Move LSE; 004 III-C 5.
#![tactic(auto)]

ghost use Rattle.std.specs.Prelude.{◌&&◌, ◌||◌, ◌≡◌, min, ◌-◌, leb, ltb, take};
ghost use mathlib.Core.List.{map, foldr};
ghost use Rattle.lists.specs.Lists.{any_of, gather};
ghost use Rattle.rules.specs.Manager.{manager_in, manager_with};
ghost use Rattle.rules.specs.Safe.{greatest_target, advanced_manager};
ghost use Rattle.rules.specs.WellFormed.{manager_ok};
ghost use Rattle.rules.specs.Calls.{advance_lse_answer};
ghost use Rattle.txn.specs.Kept.{kept_of};
ghost use Rattle.txn.specs.Records.{viewed};
ghost use Rattle.txn_safe.specs.Safe.{dep_blocks, under_deps};

use rules::limits::{READERS_MAX, WRITERS_MAX};
use rules::{Answer, Clock, Kept, Refusal, RoTxns, RwTxns, State};
use txn::parts_sound;
use txn_find::row_of;

// 01: held. An open transaction has an epoch at or below t in its deps, closed since or not. The label is 01's form.
fn dep_blocks(ts: RwTxns, deps: &[u64], t: u64) -> bool
    ensures { result ≡ any_of (dep_blocks t) (viewed ts deps.now) }
{
    let n = ts.count.min(WRITERS_MAX);
    let mut held = false;
    'writers: for (i, x) in ts.at[..n].iter().enumerate() {
        if x.waiting == 0 {
            let row = row_of(deps, i, x.deps);
            for d in row {
                if *d <= t {
                    held = true;
                    break 'writers;
                }
            }
        }
    }
    held
}

// 01: held. A read-only transaction has an epoch below t.
fn reader_blocks(ps: RoTxns, t: u64) -> bool
    ensures { result ≡ any_of (λ p. ltb p.epoch t) (take ps.count ps.at) }
{
    let n = ps.count.min(READERS_MAX);
    ps.at[..n].iter().any(|p| p.epoch < t)
}

fn is_blocked(ts: RwTxns, deps: &[u64], ps: RoTxns, t: u64) -> bool
    ensures { result ≡ (any_of (λ p. ltb p.epoch t) (take ps.count ps.at)
        || any_of (dep_blocks t) (viewed ts deps.now)) }
{
    reader_blocks(ps, t) || dep_blocks(ts, deps, t)
}

// The lowest of top and the epochs of the read-only transactions.
fn under_readers(ps: RoTxns, top: u64) -> u64
    ensures { result ≡ foldr min top (map (λ p. p.epoch) (take ps.count ps.at)) }
{
    let n = ps.count.min(READERS_MAX);
    ps.at[..n].iter().fold(top, |low, p| low.min(p.epoch))
}

// The lowest of top and just below each dep of one transaction.
fn under_row(row: &[u64], top: u64) -> u64
    ensures { result ≡ foldr min top (map (λ d. d - 1) row.now) }
{
    row.iter().fold(top, |low, d| low.min(d.saturating_sub(1)))
}

// The lowest of top and just below each dep of an open transaction.
fn under_writers(ts: RwTxns, deps: &[u64], top: u64) -> u64
    ensures { result ≡ foldr min top (gather under_deps (viewed ts deps.now)) }
{
    let n = ts.count.min(WRITERS_MAX);
    let mut low = top;
    for (i, x) in ts.at[..n].iter().enumerate() {
        if x.waiting == 0 {
            low = under_row(row_of(deps, i, x.deps), low);
        }
    }
    low
}

// The greatest target that is not blocked.
fn greatest(c: Clock, ts: RwTxns, deps: &[u64], ps: RoTxns) -> u64
    ensures { result ≡ greatest_target (manager_with c ts deps.now ps) }
{
    under_readers(ps, under_writers(ts, deps, c.lce))
}

// Moving LSE to t; the value 0 means as far as it may go, which is never refused. Refusals, in this order: 5, 4, 10.
pub fn advance_lse(state: State, rest: bool, t: u64) -> Kept
    ensures { let m = manager_in state in
        result ≡ kept_of (advance_lse_answer t (rest && manager_ok m) m) (advanced_manager t m) state }
{
    let mut s = state;
    // early returns were tried: the books are then copied more often
    let mut answer = Answer::Refused(Refusal::Unsound);
    if parts_sound(rest, s.clock, s.writers, &s.deps, s.readers) {
        if t == 0 {
            let to = greatest(s.clock, s.writers, &s.deps, s.readers);
            s.clock.lse = to;
            answer = Answer::AdvancedLse { lse: to };
        } else if t < s.clock.lse {
            answer = Answer::Refused(Refusal::OutOfRange);
        } else if s.clock.lce < t {
            answer = Answer::Refused(Refusal::OutOfRange);
        } else if is_blocked(s.writers, &s.deps, s.readers, t) {
            answer = Answer::Refused(Refusal::Blocked);
        } else {
            s.clock.lse = t;
            answer = Answer::AdvancedLse { lse: t };
        }
    }
    Kept {
        state: s,
        answer: answer,
    }
}
