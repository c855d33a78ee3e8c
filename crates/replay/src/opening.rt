// A session's store: made new at 1. 01 "A session".
ghost use Rattle.std.specs.Prelude.{◌≡◌};
ghost use Rattle.store.specs.Kept.{store_of};
ghost use Rattle.replay.specs.Start.{started};

use dispatch::{Turned, turn};
use rules::Command;

// Whatever words `rows` holds. Refused where they are not 4,608.
pub fn start(rows: &mut [u64]) -> Turned
    ensures answer { result.answer ≡ (started rows.old).answer }
    ensures store { store_of result.state rows.new result.table.at
        ≡ (started rows.old).store }
{
    turn(
        store::new_books(1),
        lent::to_table(lent::blank()),
        rows,
        &[],
        &mut [],
        Command::Create { start: 1 },
    )
}
