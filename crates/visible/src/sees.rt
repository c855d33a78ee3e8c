// Which epochs a reader sees; the deletes (01: clearings) of these it applies. 01 "Who sees a row"; 004 III-C 3, IV-C.
ghost use Rattle.std.specs.Prelude.{◌≡◌, true};
ghost use Rattle.visible.specs.Category.{is_in};
ghost use Rattle.visible.specs.View.{sees_view};

use crate::View;

// Where an epoch stands to a read-write transaction (01: load): the four cases of 02 (iv). Of the categories in 004
// IV-C the three of later epochs are one here. specs/Category.antt has the test of each.
#[derive(Clone, Copy)]
enum Category {
    Own,
    Later,
    // earlier and in deps
    Pending,
    // earlier and not in deps
    Finished,
}

// Where epoch j stands to transaction i. Own and later are decided first: such epochs among the deps count for nothing.
fn category_of(i: u64, deps: &[u64], j: u64) -> Category
    ensures { is_in result i deps.now j ≡ true }
{
    if j == i {
        return Category::Own;
    }
    if i < j {
        return Category::Later;
    }
    if deps.contains(&j) {
        return Category::Pending;
    }
    Category::Finished
}

// Whether the reader sees epoch j.
#[tactic(auto, unfolding(crate::specs::View::sees_view, rules::specs::Sees::sees_rw))]
pub fn sees(v: View, deps: &[u64], j: u64) -> bool
    ensures { result ≡ sees_view v deps.now j }
{
    match v {
        View::Rw(i) => match category_of(i, deps, j) {
            Category::Own => true,
            Category::Later => false,
            Category::Pending => false,
            Category::Finished => true,
        },
        View::Ro(e) => j <= e,
    }
}
