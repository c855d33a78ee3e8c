// Making new, and the calls on the manager, decided by value.
ghost use Rattle.std.specs.Prelude.{◌≡◌};
ghost use Rattle.rules.specs.Store.{fresh_partitions};
ghost use Rattle.rules.specs.Answers.{accepted};
ghost use Rattle.rules.specs.declared.ManagerCall.TheVariants.{Commit};
ghost use Rattle.store.specs.Kept.{create_kept, manager_kept, roll_back_kept, landed_kept, rest_kept};
ghost use Rattle.store.specs.Kept.{asked_commit, asked_roll_back, reached_by, asked_call};

use crate::new_books;
use epoch::Epoch;
use partition_sound::{Asked, Verdict};
use rules::limits::PARTITIONS_MAX;
use rules::{Answer, Clock, Kept, ManagerCall, Partition, Partitions, Refusal, RwTxns, State};
use std::array;

// A call on the manager; rest says whether the rest of the store is sound.
#[inline(always)]
pub fn manage_core(state: State, rest: bool, call: ManagerCall) -> Kept
    ensures { result ≡ manager_kept state rest call }
{
    match call {
        ManagerCall::Begin => txn_start::begin(state, rest),
        ManagerCall::Commit { txn } => txn_close::commit(state, rest, txn),
        ManagerCall::BeginRo { epoch } => txn_read::begin_ro(state, rest, epoch),
        ManagerCall::EndRo { ticket } => txn_read::end_ro(state, rest, ticket),
        ManagerCall::AdvanceLse { target } => txn_safe::advance_lse(state, rest, target),
    }
}

// An accepted call goes on to the lots.
#[inline(always)]
pub fn goes_on(done: Kept) -> bool
    ensures { result ≡ accepted done.answer }
{
    let answer = done.answer;
    if let Answer::Refused(_) = answer {
        return false;
    }
    true
}

// The totals of an accepted call; a refused one changes nothing.
#[inline(always)]
pub fn landed(done: Kept, totals: [u64; PARTITIONS_MAX]) -> Kept
    ensures { result ≡ landed_kept done totals }
{
    let mut s = done.state;
    if goes_on(done) {
        s.totals = totals;
    }
    let answer = done.answer;
    Kept {
        state: s,
        answer: answer,
    }
}

// What is asked of the lots where transaction i (01: load) commits: the epochs land that LCE then reaches (02 (iii)).
pub fn ask_commit(
    clock: Clock,
    ts: RwTxns,
    ps: Partitions,
    totals: [u64; PARTITIONS_MAX],
    i: u64,
) -> Asked
    ensures { result ≡ asked_commit clock ts ps totals i }
{
    let high = txn_close::lce_after(clock.lce, ts, i, true);
    partition_sound::ask_landing(clock, ts, ps, totals, high, 0)
}

// Where it is rolled back: its own epoch does not land.
pub fn ask_roll_back(
    clock: Clock,
    ts: RwTxns,
    ps: Partitions,
    totals: [u64; PARTITIONS_MAX],
    i: u64,
) -> Asked
    ensures { result ≡ asked_roll_back clock ts ps totals i }
{
    let high = txn_close::lce_after(clock.lce, ts, i, false);
    partition_sound::ask_landing(clock, ts, ps, totals, high, i)
}

// LCE after a call on the manager, where it is accepted: by none but a commit does it move.
fn reached(clock: Clock, ts: RwTxns, call: ManagerCall) -> u64
    ensures { result ≡ reached_by clock ts call }
{
    let ManagerCall::Commit { txn } = call else {
        return clock.lce;
    };
    txn_close::lce_after(clock.lce, ts, txn, true)
}

// Of any call on the manager.
pub fn ask_call(
    clock: Clock,
    ts: RwTxns,
    ps: Partitions,
    totals: [u64; PARTITIONS_MAX],
    call: ManagerCall,
) -> Asked
    ensures { result ≡ asked_call clock ts ps totals call }
{
    let high = reached(clock, ts, call);
    partition_sound::ask_landing(clock, ts, ps, totals, high, 0)
}

// A commit, by what the lots' test found.
#[inline(always)]
pub fn commit_core(state: State, r: Verdict, i: u64) -> Kept
    ensures { result ≡ rest_kept (manager_kept state r.ok (Commit i)) r }
{
    let done = txn_close::commit(state, r.ok, i);
    let totals = r.totals;
    landed(done, totals)
}

// The manager's part of a roll back.
#[inline(always)]
pub fn roll_back_core(state: State, r: Verdict, i: u64) -> Kept
    ensures { result ≡ rest_kept (roll_back_kept state r.ok i) r }
{
    let done = txn_close::roll_back(state, r.ok, i);
    let totals = r.totals;
    landed(done, totals)
}

// Any call on the manager.
#[inline(always)]
pub fn call_core(state: State, r: Verdict, call: ManagerCall) -> Kept
    ensures { result ≡ rest_kept (manager_kept state r.ok call) r }
{
    let done = manage_core(state, r.ok, call);
    let totals = r.totals;
    landed(done, totals)
}

// Partition p starts empty in area p, and area 8 is spare.
pub(crate) fn fresh() -> Partitions
    ensures { result ≡ fresh_partitions }
{
    Partitions {
        at: array::from_fn(|p| Partition {
            area: p,
            ..Partition::default()
        }),
        spare: PARTITIONS_MAX,
    }
}

#[inline(always)]
pub fn create_core(state: State, n: usize, m: usize, a: u64) -> Kept
    ensures { result ≡ create_kept state n m a }
{
    if !partition_sound::lengths_ok(n, m) {
        return Kept {
            state: state,
            answer: Answer::Refused(Refusal::Unsound),
        };
    }
    let Some(first) = Epoch::new(a) else {
        return Kept {
            state: state,
            answer: Answer::Refused(Refusal::OutOfRange),
        };
    };
    let after = new_books(first.number);
    Kept {
        state: after,
        answer: Answer::Created,
    }
}
