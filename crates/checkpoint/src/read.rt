// Checkpoints (02: rounds) in a file: the header of the last whole one, the rows behind it. 02 (v).
ghost use Rattle.std.specs.Prelude.{◌≡◌, true, ◌+◌, ◌*◌, ◌≤◌, ◌<◌, length, drop, leb};
ghost use Rattle.lists.specs.Lists.{all_of, over};
ghost use Rattle.rules.specs.Limits.{rows_max, partitions_max};
ghost use Rattle.rules.specs.Checkpoint.{numbers_in, sum_of, body_size, header_size, header_ok};
ghost use Rattle.rules.specs.Weight.{weight};
ghost use Rattle.checkpoint.specs.Header.{no_header, header_at, header_in};
ghost use Rattle.checkpoint.specs.Rows.{rows_read, weight_read};

use crate::number::{count_at, has_room, word_at};
use crate::{HEADER_SIZE, Header};
use rules::Refusal;
use rules::limits::{PARTITIONS_MAX, ROWS_MAX};

// A row's low 32 bits are milligrams.
const MILLIGRAMS: u64 = 4294967296;

// Of a file with no checkpoint.
fn no_header() -> Header
    ensures { result ≡ no_header }
{
    Header {
        epoch: 0,
        counts: [0; PARTITIONS_MAX],
        body: 0,
    }
}

// The row counts from `at` on.
fn counts_at(file: &[u8], at: usize) -> [usize; PARTITIONS_MAX]
    requires { at + 16 ≤ length file.now }
    ensures { result ≡ numbers_in 2 partitions_max (drop at file.now) }
{
    let mut counts = [0; PARTITIONS_MAX];
    for k in 0..PARTITIONS_MAX {
        counts[k] = count_at(file, at + 2 * k);
    }
    counts
}

// The header from `at` on.
fn header_at(file: &[u8], at: usize) -> Header
    requires { at + header_size ≤ length file.now }
    ensures { result ≡ header_at file.now at }
{
    Header {
        epoch: word_at(file, at),
        counts: counts_at(file, at + 8),
        body: at + HEADER_SIZE,
    }
}

// No count is above 512.
fn counts_ok(counts: [usize; PARTITIONS_MAX]) -> bool
    ensures { result ≡ all_of (λ n. leb n rows_max) counts }
{
    counts.iter().all(|n| *n <= ROWS_MAX)
}

// How many rows they are.
fn total(counts: [usize; PARTITIONS_MAX]) -> usize
    requires { all_of (λ n. leb n rows_max) counts ≡ true }
    ensures { (result ≡ sum_of counts) × (result ≤ rows_max * partitions_max) }
{
    let mut sum = 0;
    for n in &counts {
        sum += *n;
    }
    sum
}

// Where the bodies of h end.
fn end_of(h: Header) -> usize
    requires { (all_of (λ n. leb n rows_max) h.counts ≡ true) × (h.body < 9223372036854775808) }
    ensures { result ≡ h.body + body_size h.counts }
{
    h.body + 8 * total(h.counts)
}

// It may follow a checkpoint of epoch `before`, where `last` is the greatest epoch (02: 11).
#[tactic(auto, unfolding(rules::specs::Checkpoint::header_ok))]
fn header_ok(last: u64, before: u64, h: Header) -> bool
    ensures { result ≡ header_ok last before h.epoch h.counts }
{
    let counts = h.counts;
    if !counts_ok(counts) {
        return false;
    }
    if last < h.epoch {
        return false;
    }
    if h.epoch < before {
        return false;
    }
    if 0 < h.epoch {
        return true;
    }
    total(counts) == 0
}

// The header of the last whole checkpoint of a file, where `last` is the greatest epoch, and one of epoch 0 without
// rows where there is none. Each is judged before its bodies are looked for: one that may not stand where it does makes
// the file corrupt (02: 11). What is left of a cut file is no checkpoint.
pub fn find(file: &[u8], last: u64) -> Result<Header, Refusal>
    ensures { result ≡ header_in last file.now }
{
    let mut h = no_header();
    let mut i: usize = 0;
    // no `for`: no index is counted, each header says where the next one stands
    while HEADER_SIZE <= file.len() - i {
        let g = header_at(file, i);
        if !header_ok(last, h.epoch, g) {
            return Err(Refusal::Corrupt);
        }
        let end = end_of(g);
        if file.len() < end {
            break;
        }
        h = g;
        i = end;
    }
    Ok(h)
}

// The rows that stand in the file from byte `from` on, to rows[at..].
fn copy(rows: &mut [u64], at: usize, file: &[u8], from: usize, count: usize)
    requires { (at + count ≤ length rows.old) × (from + 8 * count ≤ length file.now) }
    ensures { rows.new
        ≡ over at (numbers_in 8 count (drop from file.now)) rows.old }
{
    for j in 0..count {
        rows[at + j] = word_at(file, from + 8 * j);
    }
}

// What they weigh.
fn sum(file: &[u8], from: usize, count: usize) -> u64
    requires { (count ≤ rows_max) × (from + 8 * count ≤ length file.now) }
    ensures { result ≡ weight (numbers_in 8 count (drop from file.now)) }
{
    let mut s: u64 = 0;
    for j in 0..count {
        s += word_at(file, from + 8 * j) % MILLIGRAMS;
    }
    s
}

// `count` rows of the file, from byte `from` on, to rows[at..]; nothing is written where they do not fit.
#[tactic(auto, unfolding(crate::specs::Rows::rows_read))]
pub fn copy_rows(rows: &mut [u64], at: usize, file: &[u8], from: usize, count: usize)
    ensures { rows.new ≡ rows_read at from count file.now rows.old }
{
    if has_room(rows.len(), at, count) && has_room(file.len(), from, 8 * count) {
        copy(rows, at, file, from, count);
    }
}

// What they weigh, 0 where there are no such rows of a partition.
#[tactic(auto, unfolding(crate::specs::Rows::weight_read))]
pub fn weigh(file: &[u8], from: usize, count: usize) -> u64
    ensures { result ≡ weight_read from count file.now }
{
    if count <= ROWS_MAX && has_room(file.len(), from, 8 * count) {
        sum(file, from, count)
    } else {
        0
    }
}
