// Formatted binary lines over linked files: one read, at once or in parts, and one written.
#![tactic(auto)]

pub mod binary_read;
pub mod binary_write;
mod fetching;
mod heading;
mod sums;
