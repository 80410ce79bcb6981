// Expressions.
ghost use Rattle.std.specs.Prelude.{◌≡◌, ℕ, ◌<◌, List, [], ◌∷◌, IfOk, MatchResult};
ghost use Rattle.letters.specs.Texts.{Piece, Ending};
ghost use Rattle.reading.specs.Heard.{heard};
ghost use Rattle.reading.specs.Rule.{expression as an_expression};
ghost use Rattle.reading.specs.Reads.{Ahead, ExpressionRead, ApplicationRead, Fails, applied};
ghost use Rattle.reading.specs.Readers.{Has, Kept, Rowless};

use super::names::find;
use super::reader::Reader;
use letters::{Symbol, Token, next_token};
use refusals::{Reason, Refusal};
use syntax::Node;

impl<'a, 'l, 'r> Reader<'a, 'l, 'r> {
    // Reads an expression with room for so many nested brackets.
    #[cycle(application_expression)]
    pub fn expression(&mut self, room: u8) -> Result<(), Refusal>
        ensures kept { Kept self.old self.new }
        ensures rowless { Rowless self.old self.new }
        ensures onward { IfOk result (λ _. self.old.cursor.at < self.new.cursor.at) }
        ensures read { (text : List ℕ) (names : List (List ℕ)) (ps : List Piece) (f : Ending) → Has self.old text names → Ahead text self.old.cursor.at ps f → MatchResult result (λ _. ExpressionRead text names room (an_expression room ∷ []) ps f self.old.nodes.now.cells.now self.old.nodes.now.used self.new.nodes.now.cells.now self.new.cursor.at self.new.nodes.now.used) (λ e. Fails text names (an_expression room ∷ []) ps f e) }
    {
        let lexed = next_token(self.cursor.text, self.cursor.at)?;
        match lexed.token {
            Token::Numeral { value, .. } => {
                self.cursor.at = lexed.end;
                self.nodes.push(Node::Numeral(value));
                Ok(())
            }
            Token::Name(word) => {
                let Some(variable) = find(self.names, word) else {
                    return Err(Refusal::new(Reason::Undeclared, lexed.start));
                };
                self.cursor.at = lexed.end;
                self.nodes.push(Node::Variable(variable));
                Ok(())
            }
            Token::Symbol(symbol) => match symbol {
                Symbol::Open => {
                    if room == 0 {
                        return Err(Refusal::new(Reason::TooDeep, lexed.start));
                    }
                    self.cursor.at = lexed.end;
                    self.application(room - 1)
                }
                _ => Err(Refusal::new(Reason::Unexpected, lexed.start)),
            },
            _ => Err(Refusal::new(Reason::Unexpected, lexed.start)),
        }
    }

    // Reads what stands behind the bracket of an expression: a part, an operator, a part and the closing bracket.
    #[cycle(application_expression)]
    fn application(&mut self, room: u8) -> Result<(), Refusal>
        requires { self.old.nodes.now.used < self.old.cursor.at }
        ensures kept { Kept self.old self.new }
        ensures rowless { Rowless self.old self.new }
        ensures onward { IfOk result (λ _. self.old.cursor.at < self.new.cursor.at) }
        ensures read { (text : List ℕ) (names : List (List ℕ)) (ps : List Piece) (f : Ending) → Has self.old text names → Ahead text self.old.cursor.at ps f → MatchResult result (λ _. ApplicationRead text names room ps f self.old.nodes.now.cells.now self.old.nodes.now.used self.new.nodes.now.cells.now self.new.cursor.at self.new.nodes.now.used) (λ e. Fails text names (applied room) ps f e) }
    {
        let place = self.nodes.leave();
        self.expression(room)?;
        let operator = self.cursor.take_operator()?;
        self.expression(room)?;
        self.cursor.take(Symbol::Close)?;
        self.nodes.set(place, Node::Apply(operator));
        Ok(())
    }
}
