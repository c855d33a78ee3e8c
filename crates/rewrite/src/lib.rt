// Roll back and purge over the entries of one partition. 01 "Lots", Roll back, Purge; 004 III-C 4, 5.
#![tactic(auto)]

use area::Area;

pub mod copying;
mod ends;
pub mod keep;
pub mod moves;

// The entries that are kept, and how many rows they have.
#[repr(C)]
#[derive(Clone, Copy)]
pub struct Rewritten {
    pub area: Area,
    pub rows: usize,
}
