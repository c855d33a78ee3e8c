// The store to and from a file of checkpoints (02: rounds). 02 (v).
#![tactic(auto)]

ghost use Rattle.rules.specs.Step.{step, save, recover};
ghost use Rattle.store.specs.Kept.{store_of, Left, Showed};

use rules::limits::PARTITIONS_MAX;
use rules::{Answer, Entry, Kept, State};

mod restore;

// What a recovery writes: of each partition (01: lot) so many rows, whose body begins at an index of the file and which
// weigh so much, and one entry of the epoch where there are rows. The books are made new at `next`, one epoch above.
#[derive(Clone, Copy)]
pub struct Restored {
    pub epoch: u64,
    pub next: u64,
    pub counts: [usize; PARTITIONS_MAX],
    pub bodies: [usize; PARTITIONS_MAX],
    pub totals: [u64; PARTITIONS_MAX],
}

// A checkpoint to the front of the output: the partitions as a read-only transaction (01: page) at an epoch, LSE to
// LCE, is shown them; here 0 is epoch 0. Refusals, in this order: 5, 4, 3.
pub fn save(state: State, entries: &[Entry], rows: &[u64], out: &mut [u8], epoch: u64) -> Answer
    ensures { Showed (step (save epoch out.old) (store_of state rows.now
        entries.now)) result out.new (store_of state rows.now
        entries.now) }
{
    let a = partition_sound::ask(state.clock, state.writers, state.partitions, state.totals);
    let found = partition_sound::rest_of(entries, rows, a);
    let t = plan_save::runs::runs_of(entries, rows, state.partitions, found, epoch);
    match plan_save::save_core(state, found, t, out.len(), epoch) {
        Ok(w) => {
            plan_save::write_checkpoint(out, rows, w);
            Answer::Saved { bytes: w.size }
        }
        Err(why) => Answer::Refused(why),
    }
}

// The store made new one epoch above that of the file's last whole checkpoint, with its rows; at 1 where it has none.
// No state is read. Refusals, in this order: 5 (the lengths), 11.
pub fn recover(state: State, entries: &mut [Entry], rows: &mut [u64], file: &[u8]) -> Kept
    ensures { Left (step (recover file.now) (store_of state rows.old
        entries.old)) result rows.new entries.new }
{
    match restore::recover_core(file, entries.len(), rows.len()) {
        Ok(w) => {
            restore::put_entries(entries, w);
            restore::write_rows(rows, file, w);
            Kept {
                state: restore::books_of(w),
                answer: Answer::Recovered,
            }
        }
        Err(why) => Kept {
            state,
            answer: Answer::Refused(why),
        },
    }
}
