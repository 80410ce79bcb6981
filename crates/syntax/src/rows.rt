// Checks of rows and nodes, from the last row to the first.
ghost use Rattle.std.specs.Prelude.{◌≡◌, ◌&&◌, List, length, is_some, None, ◌==◌};
ghost use Rattle.std.specs.Bool.{MatchBool};
ghost use Rattle.syntax.specs.Trees.{Expression, Statements};
ghost use Rattle.syntax.specs.Decoder.{Frame, value_at, row_expression, first_node, prepend as taken, statements_of};
ghost use Rattle.syntax.specs.OpenBlocks.{Stacked, Prepended};

use super::expressions::expression_end;
use super::form::{GREATEST, Node, Row};
use arrayvec::ArrayVec;

// An if or a while whose end was met, in its second arm, its first arm or its body, and the rows that the rows before must name.
#[derive(Clone, Copy, PartialEq, Eq)]
pub enum Open {
    Otherwise { end_row: usize },
    Then { else_row: usize },
    Body { while_row: usize, end_row: usize },
}

// What stands in the places of a stack that are not used. By hand: a derived default would want a variant without numbers.
impl Default for Open {
    fn default() -> Open {
        Open::Otherwise { end_row: 0 }
    }
}

// Whether an expression stands from `at` up to `next`.
fn value_stands(nodes: &[Node], at: usize, next: usize, count: usize) -> bool
    ensures { result ≡ is_some (value_at count nodes.now next at) }
{
    expression_end(nodes, at, 20, count) == Some(next)
}

// Whether a row's own numbers are in range, and its expression stands right before `next`.
fn row_stands(row: Row, nodes: &[Node], next: usize, count: usize) -> bool
    ensures { result ≡ is_some (row_expression count nodes.now next row) }
{
    match row {
        Row::Assign { variable, value } | Row::Release { variable, value } => {
            (variable as usize) < count && value_stands(nodes, value, next, count)
        }
        Row::Write { level, value } => {
            level <= GREATEST && value_stands(nodes, value, next, count)
        }
        Row::Stop { number } => number <= GREATEST,
        Row::If { condition, .. } | Row::While { condition, .. } => {
            value_stands(nodes, condition, next, count)
        }
        Row::Skip | Row::Else { .. } | Row::EndIf | Row::EndWhile { .. } => true,
    }
}

// The place of the first node of a row and of those behind it.
fn first_node(row: Row, next: usize) -> usize
    ensures { result ≡ first_node next row }
{
    match row {
        Row::Assign { value, .. } | Row::Release { value, .. } | Row::Write { value, .. } => value,
        Row::If { condition, .. } | Row::While { condition, .. } => condition,
        Row::Skip | Row::Stop { .. } | Row::Else { .. } | Row::EndIf | Row::EndWhile { .. } => next,
    }
}

// Takes row `at` in front of the rows behind it, if it fits there. `opens` is what is open, the innermost last.
#[tactic(auto, using(crate::proofs::Opens::count, crate::proofs::Opens::last_is))]
fn prepend(opens: &mut ArrayVec<Open, 20>, row: Row, at: usize) -> bool
    ensures { (e : Expression) (l : Statements) (gs : List Frame) → Stacked opens.old.items gs → MatchBool result (Prepended at row e l gs opens.new.items) (taken at row e l gs ≡ None) }
{
    match row {
        Row::If { else_row, .. } => opens.pop() == Some(Open::Then { else_row }),
        Row::While { end_row, .. } => {
            let body = Open::Body {
                while_row: at,
                end_row,
            };
            opens.pop() == Some(body)
        }
        Row::Else { end_row } => {
            opens.pop() == Some(Open::Otherwise { end_row })
                && opens.try_push(Open::Then { else_row: at }).is_ok()
        }
        Row::EndIf => opens.try_push(Open::Otherwise { end_row: at }).is_ok(),
        Row::EndWhile { while_row } => {
            let body = Open::Body {
                while_row,
                end_row: at,
            };
            opens.try_push(body).is_ok()
        }
        Row::Skip
        | Row::Assign { .. }
        | Row::Release { .. }
        | Row::Write { .. }
        | Row::Stop { .. } => true,
    }
}

// Whether, before the first row, nothing is open and every node is used.
fn is_finished(opens: &ArrayVec<Open, 20>, next: usize) -> bool
    ensures { result ≡ (length opens.now.items == 0 && next == 0) }
{
    opens.is_empty() && next == 0
}

// Whether rows and nodes are the form of statements over `count` variables. Each node is looked at once.
pub fn statements_stand(rows: &[Row], nodes: &[Node], count: usize) -> bool
    ensures { result ≡ is_some (statements_of count rows.now nodes.now) }
{
    let mut opens: ArrayVec<Open, 20> = ArrayVec::new();
    let mut next = nodes.len();
    'each: for (i, &row) in rows.iter().enumerate().rev() {
        if !row_stands(row, nodes, next, count) || !prepend(&mut opens, row, i) {
            return false;
        }
        next = first_node(row, next);
    }
    is_finished(&opens, next)
}
