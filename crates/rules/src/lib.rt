// The types of the store. Every field of lent and kept state is a number, so that any word may stand in it:
// a word out of place is refused as unsound (01 "Refusals", 5) and never loaded as a bool or an enum. Fields lie in
// the order written, each 8 bytes wide and without padding, for callers in C and Rust.
#![tactic(auto)]

pub mod limits;

ghost use Rattle.std.specs.Prelude.{◌≡◌};
ghost use Rattle.rules.specs.Answers.{refusal_number};

use limits::{DEPS_ALL, PARTITIONS_MAX, READERS_MAX, WRITERS_MAX};

// The clock of 01's books: the next epoch (EC), the latest committed epoch (LCE), the latest safe epoch
// (LSE).
#[repr(C)]
#[derive(Clone, Copy)]
pub struct Clock {
    pub ec: u64,
    pub lce: u64,
    pub lse: u64,
}

// A read-write transaction (01: load). waiting is 0 while it is open, and 1 once it is committed above LCE. deps is
// how many epochs were open when it began (01: deps); the epochs stand in the books' table.
#[repr(C)]
#[derive(Clone, Copy, Default)]
pub struct RwTxn {
    pub epoch: u64,
    pub waiting: u64,
    pub deps: usize,
}

#[repr(C)]
#[derive(Clone, Copy)]
pub struct RwTxns {
    pub at: [RwTxn; WRITERS_MAX],
    pub count: usize,
}

// A read-only transaction (01: page).
#[repr(C)]
#[derive(Clone, Copy, Default)]
pub struct RoTxn {
    pub ticket: u64,
    pub epoch: u64,
}

// next is the ticket that is handed out next.
#[repr(C)]
#[derive(Clone, Copy)]
pub struct RoTxns {
    pub at: [RoTxn; READERS_MAX],
    pub count: usize,
    pub next: u64,
}

// A partition (01: lot): its area, and how many rows and entries it has there.
#[repr(C)]
#[derive(Clone, Copy, Default)]
pub struct Partition {
    pub area: usize,
    pub rows: usize,
    pub entries: usize,
}

#[repr(C)]
#[derive(Clone, Copy)]
pub struct Partitions {
    pub at: [Partition; PARTITIONS_MAX],
    pub spare: usize,
}

// 01's books, kept by value: the transaction manager (specs/Manager.antt), then the lots. The areas of rows and of
// entries are lent. deps is one table for all records: row i, its words 31 * i to 31 * i + 30, belongs to record i.
// totals is of each partition what a page at LCE is shown, in milligrams (02 (iii)).
#[repr(C)]
#[derive(Clone, Copy)]
pub struct State {
    pub clock: Clock,
    pub writers: RwTxns,
    pub deps: [u64; DEPS_ALL],
    pub readers: RoTxns,
    pub partitions: Partitions,
    pub totals: [u64; PARTITIONS_MAX],
}

// An entry of a partition: the epoch, how many rows the partition holds after it, and a mark: 0 rows, 1
// delete (01: clearing).
#[repr(C)]
#[derive(Clone, Copy, Default)]
pub struct Entry {
    pub epoch: u64,
    pub end: usize,
    pub mark: u64,
}

// Who scans: a read-write transaction by its epoch, or a read-only one by its ticket.
#[derive(Clone, Copy)]
pub enum Reader {
    Rw(u64),
    Ro(u64),
}

// Why a call is refused. specs/Answers.antt has 01's number for each.
#[derive(Clone, Copy)]
pub enum Refusal {
    UnknownPartition,
    NotOpen,
    ShortOutput,
    OutOfRange,
    Unsound,
    Exhausted,
    TxnsFull,
    RowsFull,
    EntriesFull,
    Blocked,
    Corrupt,
}

// What a call answers. specs/Answers.antt has 01's number and values for each case.
#[derive(Clone, Copy)]
pub enum Answer {
    Created,
    Begun { epoch: u64 },
    Appended { rows: usize },
    Cleared { entries: usize },
    Closed { lce: u64, oldest: u64 },
    BegunRo { ticket: u64 },
    EndedRo { left: usize },
    Scanned { rows: usize, ones: usize },
    AdvancedLse { lse: u64 },
    Rewritten { rows: usize },
    Skipped { rows: usize },
    Saved { bytes: usize },
    Recovered,
    Refused(Refusal),
}

// What a call answers, and the books after it.
#[derive(Clone, Copy)]
pub struct Kept {
    pub state: State,
    pub answer: Answer,
}

// The calls that change nothing but the manager (01: the books without the lots).
#[derive(Clone, Copy)]
pub enum ManagerCall {
    Begin,
    Commit { txn: u64 },
    BeginRo { epoch: u64 },
    EndRo { ticket: u64 },
    AdvanceLse { target: u64 },
}

// A call as a number of words: what the dispatcher takes, and but for the last two what a session's line names. The
// rows of an append are lent beside it, and bytes: the bitmap of a scan, the output of a save (02 (v)), the file of a
// recovery.
#[derive(Clone, Copy)]
pub enum Command {
    Create { start: u64 },
    Manage(ManagerCall),
    Append { txn: u64, partition: u64 },
    Clear { txn: u64, partition: u64 },
    RollBack { txn: u64 },
    Scan { reader: Reader, partition: u64 },
    Purge { partition: u64 },
    Save { epoch: u64 },
    Recover,
}

impl From<Refusal> for u64 {
    ghost from_gives = { λ r n. n ≡ refusal_number r };

    fn from(why: Refusal) -> u64
        ensures { result ≡ refusal_number why }
    {
        match why {
            Refusal::UnknownPartition => 1,
            Refusal::NotOpen => 2,
            Refusal::ShortOutput => 3,
            Refusal::OutOfRange => 4,
            Refusal::Unsound => 5,
            Refusal::Exhausted => 6,
            Refusal::TxnsFull => 7,
            Refusal::RowsFull => 8,
            Refusal::EntriesFull => 9,
            Refusal::Blocked => 10,
            Refusal::Corrupt => 11,
        }
    }
}
