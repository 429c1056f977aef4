// Regions of guest memory by their meaning, and the two kinds of region of this library.
#![tactic(auto)]

pub mod region;
pub mod slot;
