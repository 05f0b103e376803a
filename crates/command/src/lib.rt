// CSI1 and CSI2: what each takes, answers and writes has its own file.
#![tactic(auto)]

mod condensing;
pub mod csi1;
pub mod csi2;

// The longest condensed line.
pub const LINE_LIMIT: usize = 128;
