// The pieces of host memory that a range of guest addresses is made of.
#![tactic(auto)]

pub mod bytes;
pub mod cursor;
pub mod error;
pub mod piece;
