// A session on slices: its start, and a buffer of lines answered. 01 "A session".
#![tactic(auto)]

mod lines;
mod opening;

pub use lines::{Replayed, replay};
pub use opening::start;
