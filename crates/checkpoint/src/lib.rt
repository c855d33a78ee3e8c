// A checkpoint (02: round) as bytes on lent slices. 02 (v): a header (02: table of contents), then the rows of each
// partition (01: lot), all numbers low byte first.
#![tactic(auto)]

use rules::limits::PARTITIONS_MAX;

mod number;
pub mod read;
pub mod write;

// The bytes of a header: the epoch in 8, then for each partition a row count in 2.
pub const HEADER_SIZE: usize = 24;

// A header: its epoch, its row counts, and where its bodies begin in the file.
#[derive(Clone, Copy)]
pub struct Header {
    pub epoch: u64,
    pub counts: [usize; PARTITIONS_MAX],
    pub body: usize,
}
