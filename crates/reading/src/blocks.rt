// Lists of statements, and the statements that hold lists.
ghost use Rattle.std.specs.Prelude.{◌≡◌, ℕ, ◌+◌, ◌<◌, ◌≤◌, true, List, [], ◌∷◌, IfOk, MatchResult};
ghost use Rattle.letters.specs.declared.keywords.Keyword.TheVariants as word;
ghost use Rattle.letters.specs.declared.symbols.Symbol.TheVariants as mark;
ghost use Rattle.letters.specs.Texts.{Piece, Ending};
ghost use Rattle.reading.specs.Grammar.{keyword, symbol};
ghost use Rattle.reading.specs.Heard.{heard};
ghost use Rattle.reading.specs.Rule.{statements, expression as an_expression, the_keyword, the_symbol};
ghost use Rattle.reading.specs.Reads.{Ahead, Passed, Fails};
ghost use Rattle.reading.specs.Readers.{Has, Kept, Rowless, StatementReadBy, ListReadBy, OneReadBy};
ghost use Rattle.reading.specs.Blocks.{ConditionRead, behind_if, behind_while};

use super::cursor::Cursor;
use super::names::find;
use super::reader::Reader;
use super::simple::DEPTH;
use letters::{Keyword, Symbol, Token, next_token};
use refusals::{Reason, Refusal};
use syntax::Row;

impl<'a> Cursor<'a> {
    // Goes behind `end ;`.
    fn ending(&mut self) -> Result<(), Refusal>
        ensures same { self.new.text ≡ self.old.text }
        ensures forth { self.old.at ≤ self.new.at }
        ensures onward { IfOk result (λ _. self.old.at < self.new.at) }
        ensures read { (names : List (List ℕ)) (ps : List Piece) (f : Ending) → Ahead self.old.text.now self.old.at ps f → MatchResult result (λ _. Passed self.old.text.now names (the_keyword word.End ∷ the_symbol mark.Semicolon ∷ []) (λ rest. keyword word.End ∷ symbol mark.Semicolon ∷ rest) ps f self.new.at) (λ e. Fails self.old.text.now names (the_keyword word.End ∷ the_symbol mark.Semicolon ∷ []) ps f e) }
    {
        self.take(Keyword::End)?;
        self.take(Symbol::Semicolon)
    }
}

impl<'a, 'l, 'r> Reader<'a, 'l, 'r> {
    // Reads a condition, and goes behind the keyword that follows it.
    fn condition(&mut self, behind: Keyword) -> Result<(), Refusal>
        ensures kept { Kept self.old self.new }
        ensures rowless { Rowless self.old self.new }
        ensures onward { IfOk result (λ _. self.old.cursor.at < self.new.cursor.at) }
        ensures read { (text : List ℕ) (names : List (List ℕ)) (ps : List Piece) (f : Ending) → Has self.old text names → Ahead text self.old.cursor.at ps f → MatchResult result (λ _. ConditionRead text names behind ps f self.old.nodes.now.cells.now self.old.nodes.now.used self.new.nodes.now.cells.now self.new.cursor.at self.new.nodes.now.used) (λ e. Fails text names (an_expression 20 ∷ the_keyword behind ∷ []) ps f e) }
    {
        self.expression(DEPTH)?;
        self.cursor.take(behind)
    }

    // Reads a list with room for so many nested ifs and whiles.
    #[cycle(branch_list_repeat_statement)]
    pub fn list(&mut self, room: u8) -> Result<(), Refusal>
        ensures kept { Kept self.old self.new }
        ensures onward { IfOk result (λ _. self.old.cursor.at ≤ self.new.cursor.at) }
        ensures read { (text : List ℕ) (names : List (List ℕ)) (ps : List Piece) (f : Ending) → Has self.old text names → Ahead text self.old.cursor.at ps f → MatchResult result (λ _. ListReadBy text names room ps f self.old self.new) (λ e. Fails text names (statements room ∷ []) ps f e) }
    {
        'each: while self.statement(room)? {}
        Ok(())
    }

    // Reads a statement of a list and the `;` behind it, and answers `true`, or `false` where no statement begins.
    #[cycle(branch_list_repeat_statement)]
    fn statement(&mut self, room: u8) -> Result<bool, Refusal>
        ensures kept { Kept self.old self.new }
        ensures onward { IfOk result (λ one. (self.old.cursor.at ≤ self.new.cursor.at) × (one ≡ true → self.old.cursor.at < self.new.cursor.at)) }
        ensures read { (text : List ℕ) (names : List (List ℕ)) (ps : List Piece) (f : Ending) → Has self.old text names → Ahead text self.old.cursor.at ps f → OneReadBy text names room ps f self.old self.new result }
    {
        let lexed = next_token(self.cursor.text, self.cursor.at)?;
        match lexed.token {
            Token::Name(word) => {
                let Some(variable) = find(self.names, word) else {
                    return Err(Refusal::new(Reason::Undeclared, lexed.start));
                };
                self.cursor.at = lexed.end;
                self.assign(variable)?;
                Ok(true)
            }
            Token::Keyword(keyword) => match keyword {
                Keyword::Skip => {
                    self.cursor.at = lexed.end;
                    self.skip()?;
                    Ok(true)
                }
                Keyword::Write => {
                    self.cursor.at = lexed.end;
                    self.write()?;
                    Ok(true)
                }
                Keyword::Stop => {
                    self.cursor.at = lexed.end;
                    self.stop()?;
                    Ok(true)
                }
                Keyword::If => {
                    if room == 0 {
                        return Err(Refusal::new(Reason::TooDeep, lexed.start));
                    }
                    self.cursor.at = lexed.end;
                    self.branch(room - 1)?;
                    Ok(true)
                }
                Keyword::While => {
                    if room == 0 {
                        return Err(Refusal::new(Reason::TooDeep, lexed.start));
                    }
                    self.cursor.at = lexed.end;
                    self.repeat(room - 1)?;
                    Ok(true)
                }
                _ => Ok(false),
            },
            _ => Ok(false),
        }
    }

    // Behind `if`, with room for so many nested in its arms.
    #[cycle(branch_list_repeat_statement)]
    fn branch(&mut self, room: u8) -> Result<(), Refusal>
        ensures kept { Kept self.old self.new }
        ensures onward { IfOk result (λ _. self.old.cursor.at < self.new.cursor.at) }
        ensures read { (text : List ℕ) (names : List (List ℕ)) (ps : List Piece) (f : Ending) → Has self.old text names → Ahead text self.old.cursor.at ps f → MatchResult result (λ _. StatementReadBy text names (room + 1) (behind_if room) (keyword word.If) ps f self.old self.new) (λ e. Fails text names (behind_if room) ps f e) }
    {
        let condition = self.nodes.used;
        self.condition(Keyword::Then)?;
        let row = self.rows.leave();
        self.list(room)?;
        let else_row = self.rows.used;
        self.rows.set(
            row,
            Row::If {
                condition,
                else_row,
            },
        );
        self.cursor.take(Keyword::Else)?;
        self.rows.leave();
        self.list(room)?;
        let end_row = self.rows.used;
        self.rows.set(else_row, Row::Else { end_row });
        self.cursor.ending()?;
        self.rows.push(Row::EndIf);
        Ok(())
    }

    // Behind `while`, with room for so many nested in its body.
    #[cycle(branch_list_repeat_statement)]
    fn repeat(&mut self, room: u8) -> Result<(), Refusal>
        ensures kept { Kept self.old self.new }
        ensures onward { IfOk result (λ _. self.old.cursor.at < self.new.cursor.at) }
        ensures read { (text : List ℕ) (names : List (List ℕ)) (ps : List Piece) (f : Ending) → Has self.old text names → Ahead text self.old.cursor.at ps f → MatchResult result (λ _. StatementReadBy text names (room + 1) (behind_while room) (keyword word.While) ps f self.old self.new) (λ e. Fails text names (behind_while room) ps f e) }
    {
        let condition = self.nodes.used;
        self.condition(Keyword::Do)?;
        let while_row = self.rows.leave();
        self.list(room)?;
        let end_row = self.rows.used;
        self.rows.set(while_row, Row::While { condition, end_row });
        self.cursor.ending()?;
        self.rows.push(Row::EndWhile { while_row });
        Ok(())
    }
}
