//! Runs of the program over devices in memory, and scripts with the outputs that are wanted of them: what tests of whole runs share.
#![tactic(auto)]

pub mod devices;
pub mod rows;
pub mod texts;
pub mod wanted;
