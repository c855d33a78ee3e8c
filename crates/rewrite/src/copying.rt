// The kept rows, copied inside the lent rows from the area of a partition to another. 01 "Lots", Roll back,
// Purge.
ghost use Rattle.std.specs.Prelude.{◌≡◌, true, cond, ◌+◌, ◌-◌, ◌≤◌, eqb, length};
ghost use Rattle.lists.specs.Lists.{part, over};
ghost use Rattle.rules.specs.Limits.{rows_max};
ghost use Rattle.rewrite.specs.Kept.{ends_fit};
ghost use Rattle.rewrite.specs.Copied.{kept_words, areas_apart, rows_copied};

use crate::ends::ends_fit;
use area::Area;
use rewrite_plan::Plan;
use rules::Entry;
use rules::limits::ROWS_MAX;

// n rows from index src on, copied to index dst on.
fn copy_run(rows: &mut [u64], src: usize, dst: usize, n: usize)
    requires { (src + n ≤ length rows.old) × (dst + n ≤ length rows.old) }
    ensures { rows.new ≡ over dst (part src n rows.old) rows.old }
{
    rows.copy_within(src..src + n, dst);
}

// How many rows stay of an entry whose rows begin at `start` and whose new epoch is p.
fn run_of(p: u64, start: usize, end: usize) -> usize
    requires { start ≤ end }
    ensures { result ≡ cond (eqb p 0) 0 (end - start) }
{
    if p == 0 { 0 } else { end - start }
}

// Of these entries, by their new epochs.
fn copy_entries(rows: &mut [u64], es: &[Entry], ps: &[u64], from: usize, to: usize)
    requires { (length es.now ≤ length ps.now) × (ends_fit 0 es.now ≡ true) ×
        (areas_apart from to (length rows.old) ≡ true) }
    ensures { rows.new ≡ over to (kept_words ps.now es.now (part from rows_max rows.old)) rows.old }
{
    let mut done = 0;
    let mut start = 0;
    for (k, e) in es.iter().enumerate() {
        let n = run_of(ps[k], start, e.end);
        copy_run(rows, from + start, to + done, n);
        done += n;
        start = e.end;
    }
}

// Whether two areas lie inside n rows, and apart.
fn apart(from: usize, to: usize, n: usize) -> bool
    ensures { result ≡ areas_apart from to n }
{
    ROWS_MAX <= n
        && from <= n - ROWS_MAX
        && to <= n - ROWS_MAX
        && (from + ROWS_MAX <= to || to + ROWS_MAX <= from)
}

// The rows that the plan keeps of the area at index `from`, in order, to index `to` on; nothing else is
// written. Where an area of 512 rows is not inside the lent rows, or the two are not apart, or the ends are
// not those of an area, nothing is written.
#[tactic(auto, unfolding(crate::specs::Copied::rows_copied, crate::specs::Copied::copy_ok))]
pub fn copy_kept(rows: &mut [u64], a: &Area, p: &Plan, from: usize, to: usize)
    ensures { rows.new ≡ rows_copied a.now p.now from to rows.old }
{
    let es = a.entries();
    if ends_fit(es) && apart(from, to, rows.len()) {
        copy_entries(rows, es, &p.at, from, to);
    }
}
