// The syntax of scripts: the three lists that keep a script, and holding such lists as a program.
#![tactic(auto)]

mod expressions;
mod form;
mod held;
mod holding;
mod names;
mod rows;

pub use form::{Declaration, GREATEST, Name, Node, Row, VARIABLES};
pub use held::Program;
pub use holding::{forms_are_unique, held_programs_stand};
