// Whole scripts.
ghost use Rattle.std.specs.Prelude.{◌≡◌, ◌≤◌, length, MatchBool, MatchResult};
ghost use Rattle.reading.specs.Grammar.{OneScript};
ghost use Rattle.reading.specs.Scripts.{ScriptRead, Judged, Blanks, Outcome, RefusedTexts, FrontsDecide, FrontsComplete, PlacesWithin};

use super::cursor::Cursor;
use super::declarations::Names;
use super::reader::Reader;
use letters::{TEXT_BYTES, Token, next_token};
use lists::{Places, blank};
use refusals::{Reason, Refusal};
use syntax::{Declaration, Node, Row};

// how deep ifs and whiles may be nested
const NESTING: u8 = 20;

// How many places of each list a script uses.
#[derive(Clone, Copy, PartialEq, Eq, Debug)]
pub struct Used {
    pub declarations: usize,
    pub rows: usize,
    pub nodes: usize,
}

// The three lists go from call to call one by one, as the caller lends them: of lists within one more struct that is lent nothing was proved
// at the end.

// A script of at most 1,048,576 bytes: what it would use of the lists, of which as much is written as finds room.
fn parse(
    text: &[u8],
    declarations: &mut [Declaration],
    rows: &mut [Row],
    nodes: &mut [Node],
) -> Result<Used, Refusal>
    requires { length text.now ≤ 1048576 }
    ensures { MatchResult result (λ used. ScriptRead text.now declarations.old rows.old nodes.old declarations.new rows.new nodes.new used) (λ e. Judged text.now e) }
{
    let mut declarations = Places::new(declarations);
    let mut rows = Places::new(rows);
    let mut nodes = Places::new(nodes);
    parse_into(text, &mut declarations, &mut rows, &mut nodes)?;
    Ok(Used {
        declarations: declarations.used,
        rows: rows.used,
        nodes: nodes.used,
    })
}

// Such a script, into lists of which no place is used yet.
fn parse_into<'l>(
    text: &[u8],
    declarations: &mut Places<Declaration>,
    rows: &mut Places<'l, Row>,
    nodes: &mut Places<'l, Node>,
) -> Result<(), Refusal>
    requires short { length text.now ≤ 1048576 }
    requires none_used { (declarations.old.used ≡ 0) × (rows.old.used ≡ 0) × (nodes.old.used ≡ 0) }
    ensures same { (declarations.new.cells.ghost_name ≡ declarations.old.cells.ghost_name) × (rows.new.cells.ghost_name ≡ rows.old.cells.ghost_name) × (nodes.new.cells.ghost_name ≡ nodes.old.cells.ghost_name) }
    ensures read { MatchResult result (λ _. ScriptRead text.now declarations.old.cells.now rows.old.cells.now nodes.old.cells.now declarations.new.cells.now rows.new.cells.now nodes.new.cells.now (record { declarations = declarations.new.used; rows = rows.new.used; nodes = nodes.new.used })) (λ e. Judged text.now e) }
{
    let mut cursor = Cursor { text, at: 0 };
    let mut names = Names::new();
    cursor.declare_all(&mut names, declarations)?;
    let mut reader = Reader {
        cursor,
        names: names.as_slice(),
        rows,
        nodes,
    };
    reader.list(NESTING)?;
    let lexed = next_token(reader.cursor.text, reader.cursor.at)?;
    let Token::End = lexed.token else {
        return Err(Refusal::new(Reason::Unexpected, lexed.start));
    };
    Ok(())
}

// Reads a script into three lists. Accepted, it answers the places used; behind them the lists hold blanks. Refused, the lists hold only
// blanks. Refusals in order: 8 for a text above 1,048,576 bytes; then, from left to right, 1 or 2, 3, 4 or 5, 6 at the first token that no
// script could have there; 7 where all is well but a list is too short.
pub fn read(
    text: &[u8],
    declarations: &mut [Declaration],
    rows: &mut [Row],
    nodes: &mut [Node],
) -> Result<Used, Refusal>
    ensures { Outcome text.now (length declarations.old) (length rows.old) (length nodes.old) declarations.new rows.new nodes.new result }
{
    if text.len() > TEXT_BYTES {
        blank_all(declarations, rows, nodes);
        return Err(Refusal::new(Reason::TextTooLong, 0));
    }
    // not by `?`: a refusal leaves blanks
    let used = match parse(text, declarations, rows, nodes) {
        Ok(used) => used,
        Err(refusal) => {
            blank_all(declarations, rows, nodes);
            return Err(refusal);
        }
    };
    if has_room(used, declarations.len(), rows.len(), nodes.len()) {
        blank(declarations, used.declarations, Declaration::default());
        blank(rows, used.rows, Row::default());
        blank(nodes, used.nodes, Node::default());
        Ok(used)
    } else {
        blank_all(declarations, rows, nodes);
        Err(Refusal::new(Reason::NoRoom, 0))
    }
}

// Whether lists of so many places have room for what is used.
fn has_room(used: Used, declarations: usize, rows: usize, nodes: usize) -> bool
    ensures { MatchBool result ((used.declarations ≤ declarations) × (used.rows ≤ rows) × (used.nodes ≤ nodes)) (used.declarations ≤ declarations → used.rows ≤ rows → used.nodes ≤ nodes → ⊥) }
{
    used.declarations <= declarations && used.rows <= rows && used.nodes <= nodes
}

// Only blanks in all three lists.
fn blank_all(declarations: &mut [Declaration], rows: &mut [Row], nodes: &mut [Node])
    ensures { Blanks (length declarations.old) (length rows.old) (length nodes.old) declarations.new rows.new nodes.new }
{
    blank(declarations, 0, Declaration::default());
    blank(rows, 0, Row::default());
    blank(nodes, 0, Node::default());
}

// A text is the text of one script at most, and a text that the left-to-right rule refuses is the text of none. What stands behind a refused
// token does not matter, and the tokens before it can be completed to a script or wait for a new name. The place of a refusal lies in the text
// or at its end.
pub fn reading_laws()
    ensures one_script { OneScript }
    ensures refused_texts { RefusedTexts }
    ensures fronts_decide { FrontsDecide }
    ensures fronts_complete { FrontsComplete }
    ensures places_within { PlacesWithin }
{}
