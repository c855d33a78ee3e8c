// Areas (01 "Lots"): where the rows and the entries of each of the nine stand among those of all, and one area's
// entries read out of those lent.
#![tactic(auto)]

ghost use Rattle.std.specs.Prelude.{◌≡◌, ◌≤◌, length};
ghost use Rattle.rules.specs.Limits.{rows_max, entries_max};
ghost use Rattle.area.specs.Area.{base_of, place_at, entries_in};
ghost use Rattle.area.specs.Load.{partition_in, no_entries, loaded_area, last_index, last_entry};

use lent::read_entry;
use rules::limits::{AREAS_MAX, ENTRIES_LENT, ENTRIES_MAX, PARTITIONS_MAX, ROWS_MAX};
use rules::{Entry, Partition, Partitions};

// The entries of one partition (01: lot), those in use first.
#[repr(C)]
#[derive(Clone, Copy)]
pub struct Area {
    pub at: [Entry; ENTRIES_MAX],
    pub count: usize,
}

impl Area {
    // The entries in use; a count beyond the places says that all are.
    pub fn entries(&self) -> &[Entry]
        ensures value { result.now ≡ entries_in self.now }
        ensures few { length result.now ≤ entries_max }
    {
        &self.at[..self.count.min(ENTRIES_MAX)]
    }
}

// The index of an area's first element, where each has N; of the first area's where the area is none of the nine.
fn base<const N: usize>(area: usize) -> usize
    requires { N ≤ rows_max }
    ensures { result ≡ base_of N area }
{
    if area < AREAS_MAX {
        return N * area;
    }
    0
}

// Of its entries.
pub fn entry_base(area: usize) -> usize
    ensures { result ≡ base_of entries_max area }
{
    base::<ENTRIES_MAX>(area)
}

// Of its rows.
pub fn row_base(area: usize) -> usize
    ensures { result ≡ base_of rows_max area }
{
    base::<ROWS_MAX>(area)
}

// Partition p; above 7 there is none.
pub fn partition_at(ps: Partitions, p: u64) -> Partition
    ensures { result ≡ partition_in ps p }
{
    if p < PARTITIONS_MAX as u64 {
        return ps.at[p as usize];
    }
    Partition::default()
}

// The same for a loop over all of them: each by its number, since at an index that varies all are copied at each turn.
pub fn each_place(ps: Partitions, p: usize) -> Partition
    ensures { result ≡ partition_in ps p }
{
    match p {
        0 => ps.at[0],
        1 => ps.at[1],
        2 => ps.at[2],
        3 => ps.at[3],
        4 => ps.at[4],
        5 => ps.at[5],
        6 => ps.at[6],
        7 => ps.at[7],
        _ => Partition::default(),
    }
}

// Where entry i goes, of `count` that are put from index `base` on; `past` where it is not in use, or out of range.
#[tactic(auto, unfolding(crate::specs::Area::place_at))]
pub fn place_at(count: usize, base: usize, past: usize, i: usize) -> usize
    ensures { result ≡ place_at count base past i }
{
    if count <= i {
        return past;
    }
    if ENTRIES_MAX <= i {
        return past;
    }
    if ENTRIES_LENT <= base {
        return past;
    }
    base + i
}

// The lent entries of partition p, blank where there are fewer.
#[tactic(auto, unfolding(crate::specs::Load::loaded_area, crate::specs::Load::no_entries, lent::specs::Shapes::loaded))]
pub fn load(entries: &[Entry], ps: Partitions, p: u64) -> Area
    ensures { result ≡ loaded_area entries.now ps p }
{
    let q = partition_at(ps, p);
    let base = entry_base(q.area);
    let mut at = [Entry::default(); ENTRIES_MAX];
    for i in 0..ENTRIES_MAX {
        at[i] = read_entry(entries, base + i);
    }
    Area {
        at: at,
        count: q.entries,
    }
}

// The index of the last entry of partition p, where it has one and its numbers are in range.
#[tactic(auto, unfolding(crate::specs::Load::last_index))]
fn last_index(ps: Partitions, p: u64) -> Option<usize>
    ensures { result ≡ last_index (partition_in ps p) }
{
    let q = partition_at(ps, p);
    if q.entries < 1 {
        return None;
    }
    if ENTRIES_MAX < q.entries {
        return None;
    }
    if AREAS_MAX <= q.area {
        return None;
    }
    Some(ENTRIES_MAX * q.area + (q.entries - 1))
}

// The last lent entry of partition p; where it has none, that behind all areas, blank where no more are lent than they
// have: the definition last_entry holds that.
#[tactic(auto, unfolding(crate::specs::Load::last_entry))]
pub fn last_entry(entries: &[Entry], ps: Partitions, p: u64) -> Entry
    ensures { result ≡ last_entry entries.now ps p }
{
    read_entry(entries, last_index(ps, p).unwrap_or(ENTRIES_LENT))
}
