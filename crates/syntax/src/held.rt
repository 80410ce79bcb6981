// A held program: three lists that are the form of a script.
ghost use Rattle.std.specs.Prelude.{◌≡◌, true, is_some};
ghost use Rattle.syntax.specs.Forms.{script_of};

use super::form::{Declaration, Node, Row};

// Whoever makes or changes one owes the proof that its lists are a form, so the fields can be read by anyone.
#[derive(Clone, Copy)]
pub struct Program<'a> {
    pub declarations: &'a [Declaration],
    pub rows: &'a [Row],
    pub nodes: &'a [Node],
    ghost ok: { is_some (script_of declarations.now rows.now nodes.now) ≡ true },
}
