// A box: its host bytes, the regions to collect, and its memory.
#![tactic(auto)]

pub mod asking;
pub mod changing;
pub mod guest_box;
pub mod making;
pub mod memory;
