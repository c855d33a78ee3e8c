// Of each row in order, whether a reader is shown it. 01 "Who sees a row".
ghost use Rattle.std.specs.Prelude.{◌≡◌, true, not, ◌&&◌, ◌++◌, ◌≤◌, length, drop};
ghost use Rattle.lists.specs.Lists.{ones};
ghost use Rattle.rules.specs.WellFormed.{ends_ok};
ghost use Rattle.rules.specs.Top.{covers};
ghost use Rattle.visible.specs.View.{sees_view};
ghost use Rattle.visible.specs.Passes.{as_top, flags_under};

use crate::View;
use crate::delete::{Top, hides};
use crate::sees::sees;
use rules::Entry;

// The rows of the entry at index i: all are shown, or none.
fn shows(v: View, deps: &[u64], top: Top, e: Entry, i: usize) -> bool
    ensures { result ≡ (sees_view v deps.now e.epoch && not (covers (as_top top) i e.epoch)) }
{
    !hides(top, i, e.epoch) && sees(v, deps, e.epoch)
}

// The flags of the rows of these entries, which are as many as shown is long; answers how many are true.
fn show(v: View, deps: &[u64], es: &[Entry], top: Top, shown: &mut [bool]) -> usize
    requires { ends_ok (length shown.old) 0 es.now ≡ true }
    ensures { (result ≡ ones (flags_under v deps.now top es.now))
        × (shown.new ≡ flags_under v deps.now top es.now) }
{
    let mut count = 0;
    let mut from = 0;
    for (i, e) in es.iter().enumerate() {
        let b = shows(v, deps, top, *e, i);
        // by `fill` a scan of many short entries is slower
        for s in &mut shown[from..e.end] {
            *s = b;
        }
        if b {
            count += e.end - from;
        }
        from = e.end;
    }
    count
}

// The same at the front of flags that may be more.
pub(crate) fn show_front(
    v: View,
    deps: &[u64],
    es: &[Entry],
    rows: usize,
    top: Top,
    shown: &mut [bool],
) -> usize
    requires { (rows ≤ length shown.old) × (ends_ok rows 0 es.now ≡ true) }
    ensures { (result ≡ ones (flags_under v deps.now top es.now))
        × (shown.new ≡ flags_under v deps.now top es.now ++ drop rows shown.old) }
{
    show(v, deps, es, top, &mut shown[..rows])
}
