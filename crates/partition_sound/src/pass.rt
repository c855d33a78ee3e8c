// One pass over the lent entries of a partition (01: lot): each may stand after the one before it, and an epoch above
// LCE has a record. 01 "Refusals that come from the state", *sound*.
ghost use Rattle.std.specs.Prelude.{◌≡◌, ◌-◌, take};
ghost use Rattle.lent.specs.Shapes.{turned};
ghost use Rattle.partition_sound.specs.Pass.{found_in, bad_of, followed, step_of};

use crate::numbers::look_up;
use crate::{Held, Last};
use lent::read_entry;
use rules::Entry;

// j is an epoch up to LCE, or that of a record: the epochs of the records are lent.
#[tactic(auto, unfolding(crate::specs::Pass::found_in))]
fn is_found(epochs: &[u64], c: Held, j: u64) -> bool
    ensures { result ≡ found_in c.lce (take c.count epochs.now) j }
{
    if j <= c.lce {
        return true;
    }
    look_up(&epochs[..c.count.min(epochs.len())], j)
}

fn bad(last: Last) -> Last
    ensures { result ≡ bad_of last }
{
    Last { ok: false, ..last }
}

// An entry whose epoch is well, and whether one so far lies above `low`. All tests but the search for a record stand
// here and in the next function: in more of them they cost a nanosecond an entry.
#[tactic(auto, unfolding(crate::specs::Pass::comes_after, crate::specs::Pass::told_of))]
fn follow(last: Last, e: Entry, above: bool) -> Last
    ensures { result ≡ followed last e above }
{
    if e.mark == 0 {
        if e.end <= last.end {
            return bad(last);
        }
        if last.epoch == e.epoch {
            return bad(last);
        }
        return Last {
            epoch: e.epoch,
            end: e.end,
            above,
            ..last
        };
    }
    if e.mark != 1 {
        return bad(last);
    }
    if e.end < last.end {
        return bad(last);
    }
    Last {
        epoch: 0,
        end: e.end,
        cleared: true,
        above,
        ..last
    }
}

// One entry more.
#[tactic(auto, unfolding(crate::specs::Pass::held_by))]
fn step(epochs: &[u64], c: Held, last: Last, e: Entry) -> Last
    ensures { result ≡ step_of epochs.now c last e }
{
    let j = e.epoch;
    if j < 1 {
        return bad(last);
    }
    if j <= c.low {
        return follow(last, e, last.above);
    }
    if c.ec <= j {
        return bad(last);
    }
    if !is_found(epochs, c, j) {
        return bad(last);
    }
    follow(last, e, true)
}

// The entries from one index up to another, each a step.
pub fn pass(entries: &[Entry], epochs: &[u64], c: Held, start: Last, from: usize, to: usize) -> Last
    ensures { result ≡ turned (step_of epochs.now c) start entries.now from (to - from) }
{
    (from..to).fold(
        start,
        |last, i| step(epochs, c, last, read_entry(entries, i)),
    )
}
