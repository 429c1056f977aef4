// A collection of regions over a table that the caller holds.
#![tactic(auto)]

pub mod changes;
pub mod collection;
pub mod finds;
pub mod makes;
