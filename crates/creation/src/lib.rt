// Requests that make something: Format makes a pack, ALLOC and OPENO make a file.
#![tactic(auto)]

pub mod alloc;
mod creating;
pub mod format;
pub mod openo;
