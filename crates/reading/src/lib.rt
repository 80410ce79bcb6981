// Reading a script.
#![tactic(auto)]

mod blocks;
mod cursor;
mod declarations;
mod expressions;
mod names;
mod reader;
mod scripts;
mod simple;
mod takes;

pub use scripts::{Used, read, reading_laws};
