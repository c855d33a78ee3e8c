// The milligrams of rows, by value. 02 (iii).
ghost use Rattle.std.specs.Prelude.{◌≡◌, ◌≤◌, length};
ghost use Rattle.rules.specs.Limits.{rows_max};
ghost use Rattle.rules.specs.Weight.{weight};
ghost use Rattle.totals.specs.Weighed.{weighed, plus};

use rules::limits::ROWS_MAX;

// A row's low 32 bits are milligrams.
const MILLIGRAMS: u64 = 4294967296;

// What may be added to without overflow.
const ROOM: u64 = 9223372036854775807;

// A chain of `map` and `sum` was tried and was slower.
#[tactic(auto, unfolding(rules::specs::Weight::weight))]
fn sum(xs: &[u64]) -> u64
    requires { length xs.now ≤ rows_max }
    ensures { result ≡ weight xs.now }
{
    let mut s: u64 = 0;
    for x in xs {
        s += *x % MILLIGRAMS;
    }
    s
}

// Rows `from` up to `to` of those that stand from row `base` on, none where there are no such rows of a partition.
#[tactic(auto, unfolding(crate::specs::Weighed::weighed))]
pub fn weigh(rows: &[u64], base: usize, from: usize, to: usize) -> u64
    ensures { result ≡ weighed rows.now base from to }
{
    let n = rows.len();
    if to < from {
        return 0;
    }
    if ROWS_MAX < to {
        return 0;
    }
    if n < to {
        return 0;
    }
    if n - to < base {
        return 0;
    }
    let start = base + from;
    let end = base + to;
    sum(&rows[start..end])
}

// More milligrams, to a sum that is not beyond all measure.
#[tactic(auto, unfolding(crate::specs::Weighed::plus))]
pub fn add(s: u64, w: u64) -> u64
    ensures { result ≡ plus s w }
{
    if ROOM < s {
        return 0;
    }
    if ROOM < w {
        return 0;
    }
    s + w
}
