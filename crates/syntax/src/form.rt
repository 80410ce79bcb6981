// What the three lists of a script hold: declarations, rows and nodes. They name each other by their places in the caller's lists:
// a table has no heap to box a tree in, and a C interface will lend these lists.
ghost use Rattle.std.specs.Prelude.{◌≡◌};
ghost use Rattle.syntax.specs.Names.{spelled};

use values::Operator;

// The greatest numeral, level and stop number.
pub const GREATEST: u32 = 2147483647;

// The most variables of a script.
pub const VARIABLES: usize = 256;

// A part of an expression. The operator stands before its two parts. The first variant, with 0, is the blank.
#[derive(Clone, Copy, PartialEq, Eq, Debug)]
pub enum Node {
    Numeral(u32),
    Variable(u8),
    Apply(Operator),
}

// A row of a program. `value` and `condition` are the place of an expression's first node, and a `.._row` is the number of a row.
// The first variant is the blank.
#[derive(Clone, Copy, PartialEq, Eq, Debug)]
pub enum Row {
    Skip,
    Assign { variable: u8, value: usize },
    Release { variable: u8, value: usize },
    Write { level: u32, value: usize },
    Stop { number: u32 },
    If { condition: usize, else_row: usize },
    Else { end_row: usize },
    EndIf,
    While { condition: usize, end_row: usize },
    EndWhile { while_row: usize },
}

// A name of `length` bytes, and zeros behind it. The length stays beside the bytes: a C interface will read this layout.
#[derive(Clone, Copy, PartialEq, Eq, Debug)]
pub struct Name {
    pub length: u8,
    pub bytes: [u8; 15],
}

// A variable's name and level.
#[derive(Clone, Copy, PartialEq, Eq, Debug)]
pub struct Declaration {
    pub name: Name,
    pub level: u32,
}

// Defaults by hand, so that a clause says which value it is. Derived ones prove as well, but then nothing here says that a blank may be no
// other.
impl Default for Node {
    ghost use Rattle.syntax.specs.declared.form.Node.TheVariants.{Numeral};

    ghost is_default = { λ x. x ≡ Numeral 0 };

    // What stands behind the nodes that are used.
    fn default() -> Node {
        Node::Numeral(0)
    }
}

impl Default for Row {
    ghost use Rattle.syntax.specs.declared.form.Row.TheVariants.{Skip};

    ghost is_default = { λ x. x ≡ Skip };

    // What stands behind the rows that are used.
    fn default() -> Row {
        Row::Skip
    }
}

impl Default for Declaration {
    ghost use Rattle.syntax.specs.Names.{blank_declaration};

    ghost is_default = { λ x. x ≡ blank_declaration };

    // What stands behind the declarations that are used: the empty name, of level 0.
    fn default() -> Declaration {
        Declaration {
            name: Name {
                length: 0,
                bytes: [0; 15],
            },
            level: 0,
        }
    }
}

impl Name {
    // What a name is spelled.
    pub fn spelling(&self) -> &[u8]
        ensures { result.now ≡ spelled self.now }
    {
        &self.bytes[..15.min(self.length as usize)]
    }
}
