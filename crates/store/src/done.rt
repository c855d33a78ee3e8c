// What a call answers and keeps, of the books and its plan.
ghost use Rattle.std.specs.Prelude.{◌≡◌};
ghost use Rattle.store.specs.Done.{done_rewrite};

use rules::{Answer, Kept, Partitions, State};

// The books with the partitions that a purge or a roll back left. Set in place: by `..state` they are copied once more.
#[inline(always)]
pub fn rewrite_done(state: State, partitions: Partitions, answer: Answer) -> Kept
    ensures { result ≡ done_rewrite state partitions answer }
{
    let mut after = state;
    after.partitions = partitions;
    Kept {
        state: after,
        answer,
    }
}
