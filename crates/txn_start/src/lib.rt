// Begin, on the books by value. 01 "The books", Begin; 004 III-B "EC".
#![tactic(auto)]

mod start;

ghost use Rattle.std.specs.Prelude.{◌&&◌, ◌≡◌};
ghost use Rattle.rules.specs.Begin.{begun_manager};
ghost use Rattle.rules.specs.Manager.{manager_in};
ghost use Rattle.rules.specs.WellFormed.{manager_ok};
ghost use Rattle.rules.specs.Calls.{begin_answer};
ghost use Rattle.txn.specs.Kept.{kept_of};

use epoch::Epoch;
use rules::limits::WRITERS_MAX;
use rules::{Answer, Kept, Refusal, State};
use txn::parts_sound;

// The clock hands out EC and steps it by one; the transaction of that epoch is open. Its deps are the epochs of those
// that are open before it, in order. Refusals, in this order: 5, 6, 7.
pub fn begin(state: State, rest: bool) -> Kept
    ensures { let m = manager_in state in
        result ≡ kept_of (begin_answer (rest && manager_ok m) m) (begun_manager m) state }
{
    let mut s = state;
    // early returns were tried: the books are then copied more often
    let mut answer = Answer::Refused(Refusal::Unsound);
    if parts_sound(rest, s.clock, s.writers, &s.deps, s.readers) {
        if s.clock.ec == Epoch::LAST.number + 1 {
            answer = Answer::Refused(Refusal::Exhausted);
        } else if WRITERS_MAX <= s.writers.count {
            answer = Answer::Refused(Refusal::TxnsFull);
        } else {
            let tick = epoch::advanced(s.clock);
            let k = start::put_deps(s.writers, &mut s.deps);
            let ts = start::recorded(s.writers, tick.epoch, k);
            let clock = tick.clock;
            s.clock = clock;
            s.writers = ts;
            answer = Answer::Begun { epoch: tick.epoch };
        }
    }
    Kept {
        state: s,
        answer: answer,
    }
}
