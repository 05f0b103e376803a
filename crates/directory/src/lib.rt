// Requests that change one entry at most: LOOK, DELET, KEEP and RENAM, each in a file of its own, and what two of them ask of a file.
#![tactic(auto)]

pub mod delet;
pub mod keep;
pub mod look;
mod permit;
pub mod renam;
