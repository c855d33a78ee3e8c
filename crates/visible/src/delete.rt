// The greatest delete (01: clearing) that a reader applies, and so the greatest that it sees: it alone says which
// rows are hidden. 01 "Who sees a row".
ghost use Rattle.std.specs.Prelude.{◌≡◌, ◌<◌};
ghost use Rattle.rules.specs.Top.{top_delete, top_step, covers};
ghost use Rattle.visible.specs.View.{sees_view};
ghost use Rattle.rules.specs.Bare.{bare_span, bare};
ghost use Rattle.visible.specs.Passes.{as_top};

use crate::View;
use crate::sees::sees;
use rules::Entry;

// Its epoch, and one more than the index of its last entry; both 0 with none.
// Numbers and no Option: rules' definition Top holds them so.
#[derive(Clone, Copy)]
pub struct Top {
    pub epoch: u64,
    pub at: usize,
}

// The entry at index i, after those before it.
fn top_step(v: View, deps: &[u64], top: Top, e: Entry, i: usize) -> Top
    requires { i < usize.MAX }
    ensures { as_top result ≡ top_step (sees_view v deps.now) i (as_top top) (bare_span 0 e) }
{
    if e.mark != 1 {
        return top;
    }
    if e.epoch < top.epoch {
        return top;
    }
    if !sees(v, deps, e.epoch) {
        return top;
    }
    Top {
        epoch: e.epoch,
        at: i + 1,
    }
}

// Of entries in their order.
pub fn find_top(v: View, deps: &[u64], es: &[Entry]) -> Top
    ensures { as_top result ≡ top_delete (sees_view v deps.now) (bare 0 es.now) }
{
    let mut top = Top { epoch: 0, at: 0 };
    for (i, e) in es.iter().enumerate() {
        top = top_step(v, deps, top, *e, i);
    }
    top
}

// Whether it hides rows of epoch j in the entry at index i: those of a smaller epoch wherever they stand, and
// those of its own epoch where they stand before it.
pub fn hides(top: Top, i: usize, j: u64) -> bool
    ensures { result ≡ covers (as_top top) i j }
{
    if top.at <= i {
        return j < top.epoch;
    }
    j <= top.epoch
}
