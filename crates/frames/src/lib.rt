// Frame memory: a backend of 32-bit entries, each for a frame of 4,096 bytes.
#![tactic(auto)]

pub mod frames;
pub mod memory;
