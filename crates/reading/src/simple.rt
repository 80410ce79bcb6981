// Statements that hold no statements, each from behind its first token up to its `;`.
ghost use Rattle.std.specs.Prelude.{◌≡◌, ℕ, ◌<◌, List, [], ◌∷◌, length, IfOk, MatchResult, slice_index_or};
ghost use Rattle.letters.specs.declared.keywords.Keyword.TheVariants as word;
ghost use Rattle.letters.specs.declared.symbols.Symbol.TheVariants as mark;
ghost use Rattle.letters.specs.Texts.{Piece, Ending};
ghost use Rattle.reading.specs.Grammar.{keyword, name};
ghost use Rattle.reading.specs.Heard.{heard};
ghost use Rattle.reading.specs.Rule.{expression as an_expression, assigned as an_assigned, a_numeral, the_symbol};
ghost use Rattle.reading.specs.Reads.{Ahead, Fails};
ghost use Rattle.reading.specs.Readers.{Has, Kept, Rowless, StatementReadBy};
ghost use Rattle.reading.specs.Assigns.{AssignedRead, ReleasedRead};

use super::reader::Reader;
use super::takes::Fixed;
use letters::{Keyword, Symbol, next_token};
use refusals::Refusal;
use syntax::Row;

// how deep an expression may be
pub const DEPTH: u8 = 20;

impl<'a, 'l, 'r> Reader<'a, 'l, 'r> {
    // Behind `skip`.
    pub fn skip(&mut self) -> Result<(), Refusal>
        ensures kept { Kept self.old self.new }
        ensures onward { IfOk result (λ _. self.old.cursor.at < self.new.cursor.at) }
        ensures read { (text : List ℕ) (names : List (List ℕ)) (room : ℕ) (ps : List Piece) (f : Ending) → Has self.old text names → Ahead text self.old.cursor.at ps f → MatchResult result (λ _. StatementReadBy text names room (the_symbol mark.Semicolon ∷ []) (keyword word.Skip) ps f self.old self.new) (λ e. Fails text names (the_symbol mark.Semicolon ∷ []) ps f e) }
    {
        self.cursor.take(Symbol::Semicolon)?;
        self.rows.push(Row::Skip);
        Ok(())
    }

    // Behind `stop`.
    pub fn stop(&mut self) -> Result<(), Refusal>
        ensures kept { Kept self.old self.new }
        ensures onward { IfOk result (λ _. self.old.cursor.at < self.new.cursor.at) }
        ensures read { (text : List ℕ) (names : List (List ℕ)) (room : ℕ) (ps : List Piece) (f : Ending) → Has self.old text names → Ahead text self.old.cursor.at ps f → MatchResult result (λ _. StatementReadBy text names room (a_numeral ∷ the_symbol mark.Semicolon ∷ []) (keyword word.Stop) ps f self.old self.new) (λ e. Fails text names (a_numeral ∷ the_symbol mark.Semicolon ∷ []) ps f e) }
    {
        let number = self.cursor.take_numeral()?;
        self.cursor.take(Symbol::Semicolon)?;
        self.rows.push(Row::Stop { number });
        Ok(())
    }

    // Behind `write`.
    pub fn write(&mut self) -> Result<(), Refusal>
        ensures kept { Kept self.old self.new }
        ensures onward { IfOk result (λ _. self.old.cursor.at < self.new.cursor.at) }
        ensures read { (text : List ℕ) (names : List (List ℕ)) (room : ℕ) (ps : List Piece) (f : Ending) → Has self.old text names → Ahead text self.old.cursor.at ps f → MatchResult result (λ _. StatementReadBy text names room (a_numeral ∷ an_expression 20 ∷ the_symbol mark.Semicolon ∷ []) (keyword word.Write) ps f self.old self.new) (λ e. Fails text names (a_numeral ∷ an_expression 20 ∷ the_symbol mark.Semicolon ∷ []) ps f e) }
    {
        let level = self.cursor.take_numeral()?;
        let value = self.nodes.used;
        self.expression(DEPTH)?;
        self.cursor.take(Symbol::Semicolon)?;
        self.rows.push(Row::Write { level, value });
        Ok(())
    }

    // Behind `:=`: an expression, or the release of one. Answers the row of the assignment to `variable`.
    fn take_assigned(&mut self, variable: u8) -> Result<Row, Refusal>
        ensures kept { Kept self.old self.new }
        ensures rowless { Rowless self.old self.new }
        ensures onward { IfOk result (λ _. self.old.cursor.at < self.new.cursor.at) }
        ensures read { (text : List ℕ) (names : List (List ℕ)) (ps : List Piece) (f : Ending) → Has self.old text names → Ahead text self.old.cursor.at ps f → MatchResult result (λ row. AssignedRead text names variable ps f self.old.nodes.now.cells.now self.old.nodes.now.used self.new.nodes.now.cells.now row self.new.cursor.at self.new.nodes.now.used) (λ e. Fails text names (an_assigned ∷ []) ps f e) }
    {
        let lexed = next_token(self.cursor.text, self.cursor.at)?;
        let value = self.nodes.used;
        if Keyword::Declassify.is(lexed.token) {
            self.cursor.at = lexed.end;
            self.take_released()?;
            return Ok(Row::Release { variable, value });
        }
        self.expression(DEPTH)?;
        Ok(Row::Assign { variable, value })
    }

    // Behind `declassify`.
    fn take_released(&mut self) -> Result<(), Refusal>
        ensures kept { Kept self.old self.new }
        ensures rowless { Rowless self.old self.new }
        ensures onward { IfOk result (λ _. self.old.cursor.at < self.new.cursor.at) }
        ensures read { (text : List ℕ) (names : List (List ℕ)) (ps : List Piece) (f : Ending) → Has self.old text names → Ahead text self.old.cursor.at ps f → MatchResult result (λ _. ReleasedRead text names ps f self.old.nodes.now.cells.now self.old.nodes.now.used self.new.nodes.now.cells.now self.new.cursor.at self.new.nodes.now.used) (λ e. Fails text names (the_symbol mark.Open ∷ an_expression 20 ∷ the_symbol mark.Close ∷ []) ps f e) }
    {
        self.cursor.take(Symbol::Open)?;
        self.expression(DEPTH)?;
        self.cursor.take(Symbol::Close)
    }

    // Behind the name of variable `variable`.
    pub fn assign(&mut self, variable: u8) -> Result<(), Refusal>
        requires { variable < length self.old.names.now }
        ensures kept { Kept self.old self.new }
        ensures onward { IfOk result (λ _. self.old.cursor.at < self.new.cursor.at) }
        ensures read { (text : List ℕ) (names : List (List ℕ)) (room : ℕ) (ps : List Piece) (f : Ending) → Has self.old text names → Ahead text self.old.cursor.at ps f → MatchResult result (λ _. StatementReadBy text names room (the_symbol mark.Assign ∷ an_assigned ∷ the_symbol mark.Semicolon ∷ []) (name (slice_index_or names variable [])) ps f self.old self.new) (λ e. Fails text names (the_symbol mark.Assign ∷ an_assigned ∷ the_symbol mark.Semicolon ∷ []) ps f e) }
    {
        self.cursor.take(Symbol::Assign)?;
        let row = self.take_assigned(variable)?;
        self.cursor.take(Symbol::Semicolon)?;
        self.rows.push(row);
        Ok(())
    }
}
