// Finish: the scratch files of a caller are removed.
#![tactic(auto)]

pub mod finish;
