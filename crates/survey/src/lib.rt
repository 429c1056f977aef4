// What a memory is asked as a whole: its regions, and the pieces of a range.
#![tactic(auto)]

pub mod question;
pub mod surveyed;
