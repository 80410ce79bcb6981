// One token that is expected.
ghost use Rattle.std.specs.Prelude.{◌≡◌, ℕ, ◌<◌, ◌≤◌, List, [], ◌∷◌, length, IfOk, MatchBool, MatchResult, ◌≢◌};
ghost use Rattle.letters.specs.Texts.{Piece, Ending};
ghost use Rattle.letters.specs.Tokens.{Lexeme, view, keyword, symbol};
ghost use Rattle.reading.specs.Grammar.{numeral, terminal, operator_terminal};
ghost use Rattle.reading.specs.Rule.{Expected, the_keyword, the_symbol, a_numeral, operator as an_operator, symbol_operator, terminal_operator};
ghost use Rattle.reading.specs.Reads.{Ahead, Passed, Fails};
ghost use Rattle.reading.specs.Fixed.{Fixes, fixed_symbol, fixed_keyword};

use super::cursor::Cursor;
use letters::{Keyword, Symbol, Token, next_token};
use refusals::{Reason, Refusal};
use values::Operator;

// A token that is written in one way only.
pub trait Fixed: Copy {
    // the token
    ghost lexeme: { Self → Lexeme };

    // and what is expected where it must stand
    ghost expected: { Self → Expected };

    fn is(self, token: Token) -> bool
        ensures { MatchBool result (view token.entry ≡ lexeme self) (view token.entry ≢ lexeme self) };

    ghost fixes: { (x : Self) → Fixes (lexeme x) (expected x) };
}

impl Fixed for Symbol {
    ghost lexeme = { symbol };

    ghost expected = { the_symbol };

    ghost fixes = { fixed_symbol };

    fn is(self, token: Token) -> bool {
        matches!(token, Token::Symbol(symbol) if symbol == self)
    }
}

impl Fixed for Keyword {
    ghost lexeme = { keyword };

    ghost expected = { the_keyword };

    ghost fixes = { fixed_keyword };

    fn is(self, token: Token) -> bool {
        matches!(token, Token::Keyword(keyword) if keyword == self)
    }
}

// The operator that a symbol is.
fn symbol_operator(symbol: Symbol) -> Option<Operator>
    ensures { result ≡ symbol_operator symbol }
{
    match symbol {
        Symbol::Plus => Some(Operator::Add),
        Symbol::Minus => Some(Operator::Subtract),
        Symbol::Times => Some(Operator::Multiply),
        Symbol::Over => Some(Operator::Divide),
        Symbol::Equals => Some(Operator::Equal),
        Symbol::Less => Some(Operator::Less),
        Symbol::Bar => Some(Operator::Or),
        Symbol::Assign | Symbol::Colon | Symbol::Semicolon | Symbol::Open | Symbol::Close => None,
    }
}

// The operator that a token is.
fn operator_of(token: Token) -> Option<Operator>
    ensures { result ≡ terminal_operator (terminal (view token.entry)) }
{
    match token {
        Token::Symbol(symbol) => symbol_operator(symbol),
        Token::Keyword(Keyword::Max) => Some(Operator::Maximum),
        Token::Keyword(_) | Token::End | Token::Name(_) | Token::Numeral { .. } => None,
    }
}

impl<'a> Cursor<'a> {
    // Goes behind the token that is wanted.
    pub fn take<T: Fixed>(&mut self, wanted: T) -> Result<(), Refusal>
        ensures same { self.new.text ≡ self.old.text }
        ensures forth { self.old.at ≤ self.new.at }
        ensures onward { IfOk result (λ _. self.old.at < self.new.at) }
        ensures read { (names : List (List ℕ)) (ps : List Piece) (f : Ending) → Ahead self.old.text.now self.old.at ps f → MatchResult result (λ _. Passed self.old.text.now names (T.expected wanted ∷ []) (λ rest. terminal (T.lexeme wanted) ∷ rest) ps f self.new.at) (λ e. Fails self.old.text.now names (T.expected wanted ∷ []) ps f e) }
    {
        let lexed = next_token(self.text, self.at)?;
        if !wanted.is(lexed.token) {
            return Err(Refusal::new(Reason::Unexpected, lexed.start));
        }
        self.at = lexed.end;
        Ok(())
    }

    // A numeral and an operator are taken by two methods: what is expected, the token that was read and the bound of its value would be
    // three ghost parameters of one.

    // Goes behind a numeral, and answers its value.
    pub fn take_numeral(&mut self) -> Result<u32, Refusal>
        ensures same { self.new.text ≡ self.old.text }
        ensures forth { self.old.at ≤ self.new.at }
        ensures onward { IfOk result (λ _. self.old.at < self.new.at) }
        ensures read { (names : List (List ℕ)) (ps : List Piece) (f : Ending) → Ahead self.old.text.now self.old.at ps f → MatchResult result (λ x. Passed self.old.text.now names (a_numeral ∷ []) (λ rest. numeral x ∷ rest) ps f self.new.at × (x ≤ 2147483647)) (λ e. Fails self.old.text.now names (a_numeral ∷ []) ps f e) }
    {
        let lexed = next_token(self.text, self.at)?;
        let Token::Numeral { value, .. } = lexed.token else {
            return Err(Refusal::new(Reason::Unexpected, lexed.start));
        };
        self.at = lexed.end;
        Ok(value)
    }

    // Goes behind an operator, and answers which it is.
    pub fn take_operator(&mut self) -> Result<Operator, Refusal>
        ensures same { self.new.text ≡ self.old.text }
        ensures forth { self.old.at ≤ self.new.at }
        ensures onward { IfOk result (λ _. self.old.at < self.new.at) }
        ensures read { (names : List (List ℕ)) (ps : List Piece) (f : Ending) → Ahead self.old.text.now self.old.at ps f → MatchResult result (λ x. Passed self.old.text.now names (an_operator ∷ []) (λ rest. operator_terminal x ∷ rest) ps f self.new.at) (λ e. Fails self.old.text.now names (an_operator ∷ []) ps f e) }
    {
        let lexed = next_token(self.text, self.at)?;
        let Some(operator) = operator_of(lexed.token) else {
            return Err(Refusal::new(Reason::Unexpected, lexed.start));
        };
        self.at = lexed.end;
        Ok(operator)
    }
}
