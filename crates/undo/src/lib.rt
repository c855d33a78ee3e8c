// Roll back over all partitions (01: lots), in rising order. 01 "Lots", Roll back. A partition with an entry of the
// transaction (01: load) is rewritten into the spare area, and its old area is the spare of the next one.
#![tactic(auto)]

use rewrite::moves::Move;
use rules::Partitions;

pub mod lots;

// What the roll back of a transaction does to one partition: what moves, and the partitions after it.
#[derive(Clone, Copy)]
pub struct Lot {
    pub moved: Move,
    pub partitions: Partitions,
}
