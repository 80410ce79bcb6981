// The reader of statements and expressions.
ghost use Rattle.std.specs.Prelude.{◌≤◌, length};

use super::cursor::Cursor;
use lists::Places;
use syntax::{Node, Row};

// Where reading stands, the names that are declared, in the order of their declarations, and the lists that are written. No more
// rows and nodes are used than bytes are read.
#[derive(Drop)]
pub struct Reader<'a, 'l, 'r> {
    pub cursor: Cursor<'a>,
    pub names: &'r [&'a [u8]],
    pub rows: &'r mut Places<'l, Row>,
    pub nodes: &'r mut Places<'l, Node>,
    ghost few: { length names.now ≤ 256 },
    ghost behind: { (rows.now.used ≤ cursor.at) × (nodes.now.used ≤ cursor.at) },
}
