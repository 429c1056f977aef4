// Backends of guest memory by their meaning; a collection of regions is one.
#![tactic(auto)]

pub mod backend;
pub mod collected;
