// Linked add: a block more for a linked file.
#![tactic(auto)]

pub mod linked_add;
