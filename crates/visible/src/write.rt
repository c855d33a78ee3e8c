// A scan whose input is right: the greatest delete, a flag a row, then a bit a row. 01 "Who sees a row".
ghost use Rattle.std.specs.Prelude.{◌≡◌, true, ◌≤◌, length};
ghost use Rattle.lists.specs.Lists.{ones};
ghost use Rattle.rules.specs.Limits.{rows_max};
ghost use Rattle.rules.specs.Bitmap.{bytes_for, bitmap_after};
ghost use Rattle.rules.specs.WellFormed.{ends_ok};
ghost use Rattle.visible.specs.Scan.{view_flags};

use crate::View;
use crate::delete::find_top;
use crate::pack::pack;
use crate::rows::show_front;
use bitmap::bytes_for;
use rules::Entry;
use rules::limits::ROWS_MAX;

// Of these entries; answers how many rows are shown.
pub(crate) fn write(v: View, deps: &[u64], es: &[Entry], rows: usize, bitmap: &mut [u8]) -> usize
    requires { (rows ≤ rows_max) × (ends_ok rows 0 es.now ≡ true) × (bytes_for rows ≤ length bitmap.old) }
    ensures { (result ≡ ones (view_flags v deps.now es.now))
        × (bitmap.new ≡ bitmap_after (view_flags v deps.now es.now) bitmap.old) }
{
    let top = find_top(v, deps, es);
    let mut shown = [false; ROWS_MAX];
    let ones = show_front(v, deps, es, rows, top, &mut shown);
    pack(&shown, bytes_for(rows), bitmap);
    ones
}
