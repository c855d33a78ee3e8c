// Opening and closing a page, on the books by value. 01 "The books", Open a page; 004 III-A, RO transactions.
#![tactic(auto)]

mod read_only;

ghost use Rattle.std.specs.Prelude.{◌&&◌, ◌≡◌, ◌≤◌, take};
ghost use Rattle.lists.specs.Lists.{pad};
ghost use Rattle.rules.specs.Limits.{readers_max};
ghost use Rattle.rules.specs.ReadOnly.{begun_ro_manager, ended_ro_manager};
ghost use Rattle.rules.specs.WellFormed.{manager_ok};
ghost use Rattle.rules.specs.Calls.{begin_ro_answer, end_ro_answer};
ghost use Rattle.txn.specs.Kept.{kept_of};
ghost use Rattle.rules.specs.Manager.{manager_in, no_ro};
ghost use Rattle.txn_read.specs.End.{ended_at};

use rules::limits::{LAST_TICKET, READERS_MAX};
use rules::{Answer, Kept, Refusal, RoTxns, State};
use txn::parts_sound;
use txn_find::find_reader;

// Opening a page at epoch e. Refusals, in this order: 5, 4, 6, 7.
pub fn begin_ro(state: State, rest: bool, e: u64) -> Kept
    ensures { let m = manager_in state in
        result ≡ kept_of (begin_ro_answer e (rest && manager_ok m) m) (begun_ro_manager e m) state }
{
    let mut s = state;
    // early returns were tried: the books are then copied more often
    let mut answer = Answer::Refused(Refusal::Unsound);
    if parts_sound(rest, s.clock, s.writers, &s.deps, s.readers) {
        let at = read_only::snapshot(e, s.clock.lce);
        if at < s.clock.lse {
            answer = Answer::Refused(Refusal::OutOfRange);
        } else if s.clock.lce < at {
            answer = Answer::Refused(Refusal::OutOfRange);
        } else if s.readers.next == LAST_TICKET + 1 {
            answer = Answer::Refused(Refusal::Exhausted);
        } else if READERS_MAX <= s.readers.count {
            answer = Answer::Refused(Refusal::TxnsFull);
        } else {
            answer = Answer::BegunRo {
                ticket: s.readers.next,
            };
            let ps = read_only::begun_ro(s.readers, at);
            s.readers = ps;
        }
    }
    Kept {
        state: s,
        answer: answer,
    }
}

// What closing a page answers, and the records after it.
#[derive(Clone, Copy)]
struct Ended {
    answer: Answer,
    readers: RoTxns,
}

// The record of ticket t is taken out. Refusal: 2.
fn end_at(ps: RoTxns, t: u64) -> Ended
    requires { (ps.count ≤ readers_max) × (ps.at ≡ pad readers_max no_ro (take ps.count ps.at)) }
    ensures { result ≡ ended_at t ps }
{
    let Some(j) = find_reader(ps, t) else {
        return Ended {
            answer: Answer::Refused(Refusal::NotOpen),
            readers: ps,
        };
    };
    let left = read_only::cut_readers(ps, j, j + 1);
    Ended {
        answer: Answer::EndedRo { left: left.count },
        readers: left,
    }
}

// Closing a page. Refusals, in this order: 5, 2.
pub fn end_ro(state: State, rest: bool, t: u64) -> Kept
    ensures { let m = manager_in state in
        result ≡ kept_of (end_ro_answer t (rest && manager_ok m) m) (ended_ro_manager t m) state }
{
    let mut s = state;
    // early returns were tried: the books are then copied more often
    let mut answer = Answer::Refused(Refusal::Unsound);
    if parts_sound(rest, s.clock, s.writers, &s.deps, s.readers) {
        let e = end_at(s.readers, t);
        let ps = e.readers;
        s.readers = ps;
        answer = e.answer;
    }
    Kept {
        state: s,
        answer: answer,
    }
}
