// What is asked of addresses, of a memory and of its host bytes, and the answer to each.
#![tactic(auto)]

pub mod host;
pub mod memory;
pub mod numbers;
