// Addresses and permissions: the numbers that everything above is told in.
#![tactic(auto)]

pub mod address;
pub mod permissions;
