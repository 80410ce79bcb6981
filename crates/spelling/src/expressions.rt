// Expressions of a held program, written into a buffer.
ghost use Rattle.std.specs.Prelude.{◌<◌, [], length, slice_index_or};
ghost use Rattle.reading.specs.Grammar.{name as a_name};
ghost use Rattle.spelling.specs.Buffers.{Put};
ghost use Rattle.spelling.specs.Parts.{token_bytes, expression_bytes, names_held, ExpressionAt, Writes, EndsAt};

use super::tokens::{put_name, put_numeral, put_operator, put_symbol};
use letters::Symbol;
use lists::Places;
use syntax::{Node, Program};

// The program is passed beside the buffer, here and below: in one struct of both, each clause would say that the program stays the same.
// That a number names a variable or a node of this program is asked by each function: no type of the number alone can say of which program.

// Writes the name of a variable.
pub fn put_variable(out: &mut Places<u8>, program: &Program, variable: u8)
    requires { variable < length program.now.declarations.now }
    ensures { Put out.old out.new (token_bytes (a_name (slice_index_or (names_held program.now) variable []))) }
{
    put_name(out, &program.declarations[variable as usize].name);
}

// Writes the expression that begins at node `at`. Answers the node behind it.
fn put_nodes(out: &mut Places<u8>, program: &Program, at: usize) -> usize
    requires within { at < length program.now.nodes.now }
    requires stands { ExpressionAt program.now at }
    ensures writes { Writes program.now at (expression_bytes (names_held program.now)) out.old out.new }
    ensures ends { EndsAt program.now at result }
{
    let node = program.nodes[at];
    match node {
        Node::Numeral(number) => {
            put_numeral(out, number);
            at + 1
        }
        Node::Variable(variable) => {
            put_variable(out, program, variable);
            at + 1
        }
        Node::Apply(operator) => {
            put_symbol(out, Symbol::Open);
            let middle = put_nodes(out, program, at + 1);
            put_operator(out, operator);
            let stop = put_nodes(out, program, middle);
            put_symbol(out, Symbol::Close);
            stop
        }
    }
}

// Writes the expression that begins at node `at`.
pub fn put_expression(out: &mut Places<u8>, program: &Program, at: usize)
    requires { ExpressionAt program.now at }
    ensures { Writes program.now at (expression_bytes (names_held program.now)) out.old out.new }
{
    put_nodes(out, program, at);
}
