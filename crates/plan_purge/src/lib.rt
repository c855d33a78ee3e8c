// Purge (01 "Lots"), decided by value: what is refused or skipped, and what a rewrite puts into the spare area.
#![tactic(auto)]

ghost use Rattle.std.specs.Prelude.{◌≡◌};
ghost use Rattle.plan_purge.specs.Purge.{rewrite_at, purge_at, purge_plan};

use admit::admit;
use area::Area;
use rewrite::moves::Move;
use rules::{Partition, Refusal, State};
use txn::parts_sound;

// What an accepted purge does, and how many rows are kept: it leaves the partition, or writes the one at this place
// into the spare area, where this moves.
#[derive(Clone, Copy)]
pub enum Purge {
    Skip {
        kept: usize,
    },
    Rewrite {
        place: usize,
        kept: usize,
        moved: Move,
    },
}

// Partition p, which is q with the entries of area a, purged at l into the spare area.
fn rewrite_at(a: Area, spare: usize, l: u64, p: usize, q: Partition) -> Purge
    ensures { result ≡ rewrite_at a spare l p q }
{
    let plan = rewrite_plan::purge_plan(a, l);
    let done = rewrite::keep::rewritten(a, plan);
    Purge::Rewrite {
        place: p,
        kept: done.rows,
        moved: Move::to_spare(a, plan, done.area, q.area, spare),
    }
}

// Partition p, which is q with the entries of area a, on a sound store.
fn purge_at(a: Area, spare: usize, l: u64, p: usize, q: Partition) -> Purge
    ensures { result ≡ purge_at a spare l p q }
{
    if rewrite_plan::skips(a, l) {
        return Purge::Skip { kept: q.rows };
    }
    rewrite_at(a, spare, l, p, q)
}

// A purge of partition p, whose entries are a, at LSE; rest says whether the rest of the store is sound.
pub fn purge_core(state: State, rest: bool, a: Area, p: u64) -> Result<Purge, Refusal>
    ensures { result ≡ purge_plan state rest a p }
{
    let sound = parts_sound(rest, state.clock, state.writers, &state.deps, state.readers);
    let q = admit(sound, state.partitions, p)?;
    Ok(purge_at(a, state.partitions.spare, state.clock.lse, p as usize, q))
}
