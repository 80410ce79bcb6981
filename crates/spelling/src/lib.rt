// Spelling a script: its text in the standard layout.
#![tactic(auto)]

mod expressions;
mod programs;
mod rows;
mod tokens;

pub use programs::{spell, spelling_reads_back};
