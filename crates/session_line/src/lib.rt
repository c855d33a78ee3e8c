// One line of a session: found, read, handed on, answered; what is kept of one that is yet to end. 01 "A session".
#![tactic(auto)]

pub mod limits;
pub mod rest;
pub mod shown;
pub mod turn;
