// Who sees a row, and what a scan writes. 01 "Who sees a row"; 004 III-C 3.
#![tactic(auto)]

use crate::ends::ends_ok;
use crate::write::write;
use area::Area;
use bitmap::bytes_for;
use rules::limits::ROWS_MAX;

pub mod delete;
mod ends;
mod pack;
mod rows;
pub mod sees;
mod write;

ghost use Rattle.std.specs.Prelude.{◌≡◌};
ghost use Rattle.visible.specs.Scan.{scanned, bitmap_scanned};

// A reader by its epoch. The deps of a read-write transaction, the epochs that were open when it began, are lent
// beside it; for a read-only one what is lent is not read.
#[derive(Clone, Copy)]
pub enum View {
    // read-write (01: load)
    Rw(u64),
    // read-only (01: page)
    Ro(u64),
}

// A bit a row: whether the reader is shown it; answers how many are shown. Where the ends are not those of so many
// rows, there are more rows than a partition has, or the bitmap is shorter than they need, nothing is written and the
// count is 0.
#[tactic(auto, unfolding(crate::specs::Scan::scan_ok, crate::specs::Scan::scanned, crate::specs::Scan::bitmap_scanned))]
pub fn scan(v: View, deps: &[u64], t: Area, rows: usize, bitmap: &mut [u8]) -> usize
    ensures answer { result ≡ scanned v deps.now t rows bitmap.old }
    ensures words { bitmap.new ≡ bitmap_scanned v deps.now t rows bitmap.old }
{
    let es = t.entries();
    if !ends_ok(es, rows) || ROWS_MAX < rows || bitmap.len() < bytes_for(rows) {
        return 0;
    }
    write(v, deps, es, rows, bitmap)
}
