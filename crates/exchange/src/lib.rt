// One box behind a script: it performs a command and gives an answer. No input or output.
#![tactic(auto)]

pub mod exchange;
pub mod lines;
