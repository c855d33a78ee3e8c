// A checkpoint (02: round) to a lent output: its header, then its rows. 02 (v).
ghost use Rattle.std.specs.Prelude.{◌≡◌, ◌+◌, ◌*◌, ◌≤◌, length};
ghost use Rattle.lists.specs.Lists.{gather, part, over};
ghost use Rattle.rules.specs.Checkpoint.{bytes_of, header_size};
ghost use Rattle.checkpoint.specs.Rows.{header_put, head_of, rows_put, after_rows};

use crate::HEADER_SIZE;
use crate::number::{has_room, put_number};
use rules::limits::PARTITIONS_MAX;

// The row counts, behind the epoch.
fn put_counts(out: &mut [u8], counts: [usize; PARTITIONS_MAX])
    requires { header_size ≤ length out.old }
    ensures { out.new ≡ over 8 (gather (bytes_of 2) counts) out.old }
{
    for k in 0..PARTITIONS_MAX {
        put_number(out, 8 + 2 * k, 2, counts[k] as u64);
    }
}

// A header to the front of the output; nothing is written where it does not fit.
#[tactic(auto, unfolding(crate::specs::Rows::header_put))]
pub fn put_header(out: &mut [u8], epoch: u64, counts: [usize; PARTITIONS_MAX])
    ensures { out.new ≡ header_put epoch counts out.old }
{
    if HEADER_SIZE <= out.len() {
        put_number(out, 0, 8, epoch);
        put_counts(out, counts);
    }
}

// The bytes of rows[from..] to out[at..].
fn copy(out: &mut [u8], at: usize, rows: &[u64], from: usize, count: usize)
    requires { (from + count ≤ length rows.now) × (at + 8 * count ≤ length out.old) }
    ensures { out.new
        ≡ over at (gather (bytes_of 8) (part from count rows.now)) out.old }
{
    for j in 0..count {
        put_number(out, at + 8 * j, 8, rows[from + j]);
    }
}

// So many rows are worth a row ahead.
const ROWS_MANY: usize = 64;

// How many rows go ahead of the rest, so that the rest begins at a multiple of 16: in an output that is aligned to 16
// bytes, as allocators lend it, no store of two rows at once then straddles a cache line. For a few rows that is more
// work than it saves.
#[tactic(auto, unfolding(crate::specs::Rows::head_of))]
fn head_of(at: usize, count: usize) -> usize
    ensures { (result ≡ head_of at count) × (result ≤ count) }
{
    if ROWS_MANY <= count && at % 16 == 8 {
        1
    } else {
        0
    }
}

// The bytes of `count` rows to out[at..], and where they end; nothing is written where there are no such rows or they
// do not fit.
#[tactic(auto, unfolding(crate::specs::Rows::rows_put, crate::specs::Rows::after_rows))]
pub fn put_rows(out: &mut [u8], at: usize, rows: &[u64], from: usize, count: usize) -> usize
    ensures end { result ≡ after_rows at from count rows.now out.old }
    ensures bytes { out.new ≡ rows_put at from count rows.now out.old }
{
    if !has_room(rows.len(), from, count) || !has_room(out.len(), at, 8 * count) {
        return at;
    }
    let head = head_of(at, count);
    copy(out, at, rows, from, head);
    copy(out, at + 8 * head, rows, from + head, count - head);
    at + 8 * count
}
