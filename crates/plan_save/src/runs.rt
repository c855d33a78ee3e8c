// What a read-only transaction (01: page) at an epoch is shown of all partitions (01: lots), as runs of rows. The rows
// of an entry are shown together or not at all, so the entries alone tell. From where on those of a partition are gone
// over is by what the test of the lots found. Shown rows that stand together are one run.
ghost use Rattle.std.specs.Prelude.{◌≡◌, ◌≤◌};
ghost use Rattle.totals.specs.Reach.{page_reach};
ghost use Rattle.plan_save.specs.Runs.{no_words, first_of, next_of, pending_turn, place_in, word_of, from_in, width_in};
ghost use Rattle.plan_save.specs.Runs.{sought_from, runs_with, runs_of};

use crate::{RUNS_MAX, WORDS_MAX};
use area::partition_at;
use lent::read_entry;
use partition_sound::Verdict;
use rules::limits::PARTITIONS_MAX;
use rules::{Entry, Partition, Partitions};
use totals::clearing::{find, no_top};
use totals::shown::is_shown;
use totals::{Cut, Reach, cut_of, from_of, to_of};

// A run is one word: 65,536 times the row of its partition that it begins at, and the row that it ends before. Those of
// partition p stand from place 33 * p on, and behind them a word without rows.
#[derive(Clone, Copy)]
pub struct Runs {
    pub at: [u32; WORDS_MAX],
}

// The run that may still grow: it goes to place `at`, and has the rows `from` up to `end` so far.
#[derive(Clone, Copy)]
pub struct Pending {
    pub at: usize,
    pub from: usize,
    pub end: usize,
}

#[tactic(auto, unfolding(crate::specs::Runs::no_words))]
pub(crate) fn no_words() -> [u32; WORDS_MAX]
    ensures { result ≡ no_words }
{
    [0; WORDS_MAX]
}

// What a page at e sees.
fn page_at(e: u64) -> Reach
    ensures { result ≡ page_reach e }
{
    Reach {
        over: 0,
        high: e,
        gone: 0,
    }
}

// Before the first entry of partition p.
#[tactic(auto, unfolding(crate::specs::Runs::first_of))]
fn first_of(p: usize) -> Pending
    ensures { result ≡ first_of p }
{
    Pending {
        at: if p < PARTITIONS_MAX { RUNS_MAX * p } else { 0 },
        from: 0,
        end: 0,
    }
}

// Where the next run goes: behind the pending one, if that has rows.
#[tactic(auto, unfolding(crate::specs::Runs::next_of))]
fn next_of(s: Pending) -> usize
    ensures { result ≡ next_of s }
{
    if s.from < s.end && s.at < WORDS_MAX {
        s.at + 1
    } else {
        s.at
    }
}

// One entry more: the pending run grows by its rows, or ends before them.
#[tactic(auto, unfolding(crate::specs::Runs::pending_turn))]
fn step(c: Cut, s: Pending, e: Entry) -> Pending
    ensures { result ≡ pending_turn c s e }
{
    if is_shown(c, s.end, e.epoch) {
        return Pending { end: e.end, ..s };
    }
    Pending {
        at: next_of(s),
        from: e.end,
        end: e.end,
    }
}

// Where the pending run goes; the first place where there is none such.
#[tactic(auto, unfolding(crate::specs::Runs::place_in))]
fn place_in(s: Pending) -> usize
    ensures { result ≡ place_in s }
{
    if s.at < WORDS_MAX { s.at } else { 0 }
}

#[tactic(auto, unfolding(crate::specs::Runs::word_of))]
fn word_of(s: Pending) -> u32
    ensures { result ≡ word_of s }
{
    (s.from % 65536 * 65536 + s.end % 65536) as u32
}

// The row that the run of a word begins at.
pub(crate) fn from_in(w: u32) -> usize
    ensures { result ≡ from_in w }
{
    (w / 65536) as usize
}

// How many rows it has.
pub(crate) fn width_in(w: u32) -> usize
    ensures { (result ≡ width_in w) × (result ≤ 65535) }
{
    let from = (w / 65536) as usize;
    let end = (w % 65536) as usize;
    if end <= from {
        return 0;
    }
    end - from
}

// From where on the entries of partition p, which lies at q, are gone over for a page at e: by what was found, the last
// alone tells where all rows are shown.
#[tactic(auto, unfolding(crate::specs::Runs::sought_from))]
fn sought_from(q: Partition, found: Verdict, p: usize, e: u64) -> usize
    ensures { result ≡ sought_from q found p e }
{
    let from = from_of(q);
    let to = to_of(q);
    if found.low <= e && p < PARTITIONS_MAX && found.whole[p] && from < to {
        to - 1
    } else {
        from
    }
}

fn to_runs(at: [u32; WORDS_MAX]) -> Runs
    ensures { result ≡ runs_with at }
{
    Runs { at: at }
}

// Of each partition first the greatest clearing, then the rows that it leaves: a turn writes the pending run to its
// place, as far as it has grown. The rows are lent to every pass; they are not read here.
pub fn runs_of(entries: &[Entry], rows: &[u64], ps: Partitions, found: Verdict, e: u64) -> Runs
    ensures { result ≡ runs_of entries.now ps found e }
{
    let reach = page_at(e);
    let none = no_top();
    let mut a = no_words();
    for p in 0..PARTITIONS_MAX {
        let q = partition_at(ps, p as u64);
        let from = sought_from(q, found, p, e);
        let to = to_of(q);
        let top = find(entries, reach, none, from, to);
        let cut = cut_of(reach, top, 0);
        let mut s = first_of(p);
        for i in from..to {
            let x = read_entry(entries, i);
            s = step(cut, s, x);
            a[place_in(s)] = word_of(s);
        }
    }
    to_runs(a)
}
