// APPND: two linked files made one.
#![tactic(auto)]

pub mod appnd;
