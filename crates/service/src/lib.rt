// The boundary to a host in C: one thin function for each name, over numbers and byte slices, with no condition on the caller.
#![tactic(auto)]

pub mod binaries;
pub mod blocks;
pub mod commands;
pub mod conversions;
pub mod entries;
pub mod lists;
pub mod moves;
pub mod opens;
pub mod packs;
pub mod reports;
pub mod text;
