// Scans (01 "Who sees a row"), decided by value: what is refused, and the bytes that a call writes.
#![tactic(auto)]

ghost use Rattle.std.specs.Prelude.{◌≡◌};
ghost use Rattle.plan_scan.specs.Scan.{look_at, scan_plan, copied};

use admit::admit;
use area::Area;
use rules::limits::ROWS_MAX;
use rules::{Partition, Reader, Refusal, State};
use txn::parts_sound;
use txn_find::{find_reader, find_writer, row_of};
use visible::View;

// The bytes that a partition's rows need at most.
const BITMAP_MAX: usize = ROWS_MAX / 8;

// How many rows a partition has, how many of them are shown, and the first count bytes, which a scan writes.
#[derive(Clone, Copy)]
pub struct Look {
    pub rows: usize,
    pub ones: usize,
    pub bits: [u8; BITMAP_MAX],
    pub count: usize,
}

// The reader of view v and of these deps scans partition q, whose entries are a, and k bytes are lent.
#[tactic(auto, unfolding(crate::specs::Scan::look_at))]
fn scan_partition(a: Area, q: Partition, v: View, deps: &[u64], k: usize) -> Result<Look, Refusal>
    ensures { result ≡ look_at a q v deps.now k }
{
    let rows = q.rows;
    let count = bitmap::bytes_for(rows);
    if k < count {
        return Err(Refusal::ShortOutput);
    }
    let mut bits = [0u8; BITMAP_MAX];
    let ones = visible::scan(v, deps, a, rows, &mut bits);
    Ok(Look {
        rows,
        ones,
        bits,
        count,
    })
}

// A reader scans partition p, whose entries are a; rest says whether the rest of the store is sound. Refusals, in this
// order: 5, 1, 2, 3.
pub fn scan_core(
    state: State,
    rest: bool,
    a: Area,
    k: usize,
    reader: Reader,
    p: u64,
) -> Result<Look, Refusal>
    ensures { result ≡ scan_plan reader state rest a k p }
{
    let sound = parts_sound(rest, state.clock, state.writers, &state.deps, state.readers);
    let q = admit(sound, state.partitions, p)?;
    match reader {
        Reader::Rw(i) => {
            let writers = state.writers;
            let Some(j) = find_writer(writers, i) else {
                return Err(Refusal::NotOpen);
            };
            let n = writers.at[j].deps;
            scan_partition(a, q, View::Rw(i), row_of(&state.deps, j, n), k)
        }
        Reader::Ro(t) => {
            let readers = state.readers;
            let Some(j) = find_reader(readers, t) else {
                return Err(Refusal::NotOpen);
            };
            scan_partition(a, q, View::Ro(readers.at[j].epoch), &[], k)
        }
    }
}

// The first count bytes, where there are so many and so many are lent.
#[tactic(auto, unfolding(crate::specs::Scan::copied))]
pub fn write_bits(bitmap: &mut [u8], w: Look)
    ensures { bitmap.new ≡ copied w.count w.bits bitmap.old }
{
    let n = w.count;
    if n <= BITMAP_MAX && n <= bitmap.len() {
        bitmap[..n].copy_from_slice(&w.bits[..n]);
    }
}
