// Rows and declarations of a held program, written into a buffer.
ghost use Rattle.std.specs.Prelude.{◌<◌, [], ◌++◌, length, slice_index_or};
ghost use Rattle.reading.specs.Grammar.{keyword as a_keyword, symbol as a_symbol};
ghost use Rattle.syntax.specs.Form.{skips, assigns, releases, writes, stops};
ghost use Rattle.syntax.specs.Held.{tree_rows_held, Held};
ghost use Rattle.spelling.specs.Buffers.{Put};
ghost use Rattle.spelling.specs.Parts.{token_bytes, expression_bytes, target_bytes, row_bytes, rows_bytes, declaration_bytes, declarations_bytes, names_held, ExpressionAt, Writes};

use super::expressions::{put_expression, put_variable};
use super::tokens::{put_keyword, put_name, put_numeral, put_symbol};
use letters::{Keyword, Symbol};
use lists::Places;
use syntax::{Declaration, Program, Row};

// Writes a variable's name and `:=`.
fn put_target(out: &mut Places<u8>, program: &Program, variable: u8)
    requires { variable < length program.now.declarations.now }
    ensures { Put out.old out.new (target_bytes (names_held program.now) variable) }
{
    put_variable(out, program, variable);
    put_symbol(out, Symbol::Assign);
}

// Writes an assignment.
fn put_assign(out: &mut Places<u8>, program: &Program, variable: u8, value: usize)
    requires declared { variable < length program.now.declarations.now }
    requires stands { ExpressionAt program.now value }
    ensures { Writes program.now value (λ e. row_bytes (names_held program.now) (assigns variable e)) out.old out.new }
{
    put_target(out, program, variable);
    put_expression(out, program, value);
    put_symbol(out, Symbol::Semicolon);
}

// Writes a release.
fn put_release(out: &mut Places<u8>, program: &Program, variable: u8, value: usize)
    requires declared { variable < length program.now.declarations.now }
    requires stands { ExpressionAt program.now value }
    ensures { Writes program.now value (λ e. row_bytes (names_held program.now) (releases variable e)) out.old out.new }
{
    put_target(out, program, variable);
    put_keyword(out, Keyword::Declassify);
    put_symbol(out, Symbol::Open);
    put_expression(out, program, value);
    put_symbol(out, Symbol::Close);
    put_symbol(out, Symbol::Semicolon);
}

// Writes a `write`.
fn put_write(out: &mut Places<u8>, program: &Program, level: u32, value: usize)
    requires { ExpressionAt program.now value }
    ensures { Writes program.now value (λ e. row_bytes (names_held program.now) (writes level e)) out.old out.new }
{
    put_keyword(out, Keyword::Write);
    put_numeral(out, level);
    put_expression(out, program, value);
    put_symbol(out, Symbol::Semicolon);
}

// Writes a `stop`.
fn put_stop(out: &mut Places<u8>, number: u32)
    ensures { Put out.old out.new (row_bytes [] (stops number)) }
{
    put_keyword(out, Keyword::Stop);
    put_numeral(out, number);
    put_symbol(out, Symbol::Semicolon);
}

// Writes a condition between two keywords.
fn put_condition(
    out: &mut Places<u8>,
    program: &Program,
    first: Keyword,
    condition: usize,
    last: Keyword,
)
    requires { ExpressionAt program.now condition }
    ensures { Writes program.now condition (λ e. token_bytes (a_keyword first) ++ (expression_bytes (names_held program.now) e ++ token_bytes (a_keyword last))) out.old out.new }
{
    put_keyword(out, first);
    put_expression(out, program, condition);
    put_keyword(out, last);
}

// Writes a keyword that is a statement, or the end of one.
fn put_alone(out: &mut Places<u8>, keyword: Keyword)
    ensures { Put out.old out.new (token_bytes (a_keyword keyword) ++ token_bytes (a_symbol Symbol.Semicolon)) }
{
    put_keyword(out, keyword);
    put_symbol(out, Symbol::Semicolon);
}

// Writes row `at`.
fn put_row(out: &mut Places<u8>, program: &Program, at: usize)
    requires within { at < length program.now.rows.now }
    requires held { Held program.now }
    ensures { Put out.old out.new (row_bytes (names_held program.now) (slice_index_or (tree_rows_held program.now) at skips)) }
{
    let row = program.rows[at];
    match row {
        Row::Skip => put_alone(out, Keyword::Skip),
        Row::Assign { variable, value } => put_assign(out, program, variable, value),
        Row::Release { variable, value } => put_release(out, program, variable, value),
        Row::Write { level, value } => put_write(out, program, level, value),
        Row::Stop { number } => put_stop(out, number),
        Row::If { condition, .. } => put_condition(
            out,
            program,
            Keyword::If,
            condition,
            Keyword::Then,
        ),
        Row::Else { .. } => put_keyword(out, Keyword::Else),
        Row::EndIf => put_alone(out, Keyword::End),
        Row::While { condition, .. } => put_condition(
            out,
            program,
            Keyword::While,
            condition,
            Keyword::Do,
        ),
        Row::EndWhile { .. } => put_alone(out, Keyword::End),
    }
}

// Writes the rows. They are counted, since the tree row of a row is known by its number.
pub fn put_rows(out: &mut Places<u8>, program: &Program)
    ensures { Put out.old out.new (rows_bytes (names_held program.now) (tree_rows_held program.now)) }
{
    'each: for at in 0..program.rows.len() {
        put_row(out, program, at);
    }
}

// Writes a declaration.
fn put_declaration(out: &mut Places<u8>, declaration: &Declaration)
    ensures { Put out.old out.new (declaration_bytes declaration.now) }
{
    put_keyword(out, Keyword::Var);
    put_name(out, &declaration.name);
    put_symbol(out, Symbol::Colon);
    put_numeral(out, declaration.level);
    put_symbol(out, Symbol::Semicolon);
}

// Writes the declarations.
pub fn put_declarations(out: &mut Places<u8>, declarations: &[Declaration])
    ensures { Put out.old out.new (declarations_bytes declarations.now) }
{
    'each: for declaration in declarations {
        put_declaration(out, declaration);
    }
}
