// Regions in a table that the caller holds: the checks, the search, insertion and removal, written
// once for every region type.
#![tactic(auto)]

pub mod checks;
pub mod edits;
pub mod error;
pub mod search;
