// Commit and roll back, on the books by value, and where LCE then lies. 01 "The books", Commit, roll back; 02 (i);
// 004 III-B "LCE".
#![tactic(auto)]

mod close;

ghost use Rattle.std.specs.Prelude.{◌&&◌, ◌≡◌, [], map, take};
ghost use Rattle.rules.specs.Close.{committed_manager, rolled_back_manager};
ghost use Rattle.rules.specs.WellFormed.{manager_ok};
ghost use Rattle.rules.specs.Calls.{close_answer};
ghost use Rattle.txn.specs.Kept.{kept_of};
ghost use Rattle.rules.specs.Manager.{manager_in, view};
ghost use Rattle.txn.specs.Records.{viewed, Tidy};
ghost use Rattle.txn_find.specs.Find.{writer_at};
ghost use Rattle.txn_close.specs.Close.{ended_by, table_by, lce_after, closed_manager};

use close::Books;
use rules::limits::{DEPS_ALL, WRITERS_MAX};
use rules::{Answer, Clock, Kept, Refusal, RwTxns, State};
use txn::parts_sound;
use txn_find::find_writer;

// What closing a transaction answers, and what it changes beside the table of deps, which is lent.
#[derive(Clone, Copy)]
struct Ended {
    answer: Answer,
    clock: Clock,
    writers: RwTxns,
}

// The transaction of epoch i is closed, and waits, or leaves no record; then LCE is settled. Refusal: 2.
fn close_at(clock: Clock, ts: RwTxns, deps: &mut [u64; DEPS_ALL], i: u64, waits: bool) -> Ended
    requires { Tidy ts deps.old }
    ensures { let ws = viewed ts deps.old in let f = writer_at i ts in
        (result ≡ ended_by waits i clock ts ws f) × (deps.new ≡ table_by waits i ws deps.old f) }
{
    let Some(j) = find_writer(ts, i) else {
        return Ended {
            answer: Answer::Refused(Refusal::NotOpen),
            clock: clock,
            writers: ts,
        };
    };
    let books = Books {
        clock: clock,
        writers: ts,
    };
    let closed = books.close(deps, j, i, waits);
    let next = closed.settle(deps);
    let c = next.books.clock;
    let left = next.books.writers;
    Ended {
        answer: Answer::Closed {
            lce: c.lce,
            oldest: next.oldest,
        },
        clock: c,
        writers: left,
    }
}

// Commit and roll back, but for the lots: the transaction of epoch i is closed. Refusals, in this order: 5, 2.
// Inlined, so that the books are copied no more often than that.
#[inline(always)]
fn closed(mut state: State, rest: bool, i: u64, waits: bool) -> Kept
    ensures { let m = manager_in state in let next = closed_manager waits i m in
        result ≡ kept_of (close_answer i (rest && manager_ok m) m next) next state }
{
    // early returns were tried: the books are then copied more often
    let mut answer = Answer::Refused(Refusal::Unsound);
    if parts_sound(rest, state.clock, state.writers, &state.deps, state.readers) {
        let e = close_at(state.clock, state.writers, &mut state.deps, i, waits);
        state.clock = e.clock;
        state.writers = e.writers;
        answer = e.answer;
    }
    Kept { state, answer }
}

// Commit: the transaction of epoch i waits. Refusals, in this order: 5, 2.
pub fn commit(state: State, rest: bool, i: u64) -> Kept
    ensures { let m = manager_in state in let next = committed_manager i m in
        result ≡ kept_of (close_answer i (rest && manager_ok m) m next) next state }
{
    closed(state, rest, i, true)
}

// Roll back, but for the lots: the transaction of epoch i leaves no record. Refusals, in this order: 5, 2.
pub fn roll_back(state: State, rest: bool, i: u64) -> Kept
    ensures { let m = manager_in state in let next = rolled_back_manager i m in
        result ≡ kept_of (close_answer i (rest && manager_ok m) m next) next state }
{
    closed(state, rest, i, false)
}

// LCE once the transaction (01: load) of epoch i is closed, whatever the books are: committed it waits, rolled back it
// leaves no record.
pub fn lce_after(lce: u64, ts: RwTxns, i: u64, waits: bool) -> u64
    ensures { result ≡ lce_after waits i lce (map (view []) (take ts.count ts.at)) }
{
    let n = ts.count.min(WRITERS_MAX);
    let mut last = lce;
    for t in &ts.at[..n] {
        if t.waiting == 0 && t.epoch != i {
            return last;
        }
        // One that waits moves LCE, and the one closed does where it comes to wait.
        last = if t.waiting == 0 && !waits {
            last
        } else {
            t.epoch
        };
    }
    last
}
