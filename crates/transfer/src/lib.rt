// Parts of the image handed over: BLOCK input and output, linked read.
#![tactic(auto)]

pub mod block;
pub mod linked_read;
