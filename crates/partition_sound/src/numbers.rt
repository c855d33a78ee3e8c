// Tests over a slice of numbers.
ghost use Rattle.std.specs.Prelude.{◌≡◌};
ghost use Rattle.lists.specs.Lists.{elem, distinct};
ghost use Rattle.partition_sound.specs.Areas.{all_below};
ghost use Rattle.partition_sound.specs.Asked.{fills};

use epoch::follows;

// x stands in xs. The library's `contains` was tried and was slower.
fn has(xs: &[u64], x: u64) -> bool
    ensures { result ≡ elem x xs.now }
{
    xs.iter().any(|y| x == *y)
}

// Where x stands among at most 32 numbers that rise, if it does: a guess, of which nothing is promised. The library's
// `binary_search` was tried and was slower.
fn likely(xs: &[u64], x: u64) -> usize {
    let mut at: usize = 0;
    for half in [16, 8, 4, 2, 1] {
        let next = at + half;
        if next < xs.len() && xs[next] <= x {
            at = next;
        }
    }
    at
}

// x stands in xs, as has tells: it is sought first where it stands if they rise, as the epochs of sound books do.
pub fn look_up(xs: &[u64], x: u64) -> bool
    ensures { result ≡ elem x xs.now }
{
    let i = likely(xs, x);
    if i < xs.len() && x == xs[i] {
        return true;
    }
    has(xs, x)
}

// No number of xs stands twice.
pub fn all_differ(xs: &[u64]) -> bool
    ensures { result ≡ distinct xs.now }
{
    for i in 0..xs.len() {
        if has(&xs[i + 1..], xs[i]) {
            return false;
        }
    }
    true
}

// Each of xs is below limit.
pub fn all_below(xs: &[u64], limit: u64) -> bool
    ensures { result ≡ all_below limit xs.now }
{
    xs.iter().all(|x| *x < limit)
}

// xs are the numbers between lo and hi.
#[tactic(auto, unfolding(crate::specs::Asked::fills))]
pub fn fill(xs: &[u64], lo: u64, hi: u64) -> bool
    ensures { result ≡ fills lo hi xs.now }
{
    let mut last = lo;
    for x in xs {
        if !follows(last, *x) {
            return false;
        }
        last = *x;
    }
    follows(last, hi)
}
