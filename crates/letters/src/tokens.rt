// The token at a place of a text.
ghost use Rattle.std.specs.Prelude.{◌≡◌, ℕ, ◌≤◌, Bool, false, length, IfOk, MatchResult};
ghost use Rattle.std.specs.List.{prefix_len};
ghost use Rattle.letters.specs.Classes.{is_letter, is_digit, begins};
ghost use Rattle.letters.specs.Tokens.{lexeme, marked, word_lexeme, digits_lexeme, broken, view, seen, told, next_at, Inside};

use super::classes::{Class, is_blank, is_digit, is_word};
use super::keywords::{Keyword, keyword_of};
use super::numerals::numeral_value;
use super::symbols::Symbol;
use refusals::{Reason, Refusal};

// A token. A name and a numeral borrow their bytes from the text.
#[derive(Clone, Copy)]
pub enum Token<'a> {
    // the text has ended
    End,
    Name(&'a [u8]),
    Numeral { digits: &'a [u8], value: u32 },
    Keyword(Keyword),
    Symbol(Symbol),
}

// A token with the place of its first byte and the place behind its last.
#[derive(Clone, Copy)]
pub struct Lexed<'a> {
    pub token: Token<'a>,
    pub start: usize,
    pub end: usize,
}

// the longest name
pub const NAME_BYTES: usize = 15;

// How many bytes in front pass a test, up to the first that does not.
fn run<F: Fn(u8) -> bool>(bytes: &[u8], test: F) -> usize
    requires { F.IsAlwaysCallable test }
    ensures within { result ≤ length bytes.now }
    ensures stop { (p : ℕ → Bool) → ((b : ℕ) (r : Bool) → F.post test b r → r ≡ p b) → result ≡ prefix_len p bytes.now }
{
    bytes.iter().take_while(|byte| test(**byte)).count()
}

// A run of letters and digits: a keyword, or a name of at most 15 bytes.
fn word_token<'a>(word: &'a [u8]) -> Result<Token<'a>, Reason>
    ensures { seen result ≡ word_lexeme word.now }
{
    match keyword_of(word) {
        Some(keyword) => Ok(Token::Keyword(keyword)),
        None if word.len() <= NAME_BYTES => Ok(Token::Name(word)),
        None => Err(Reason::Malformed),
    }
}

// A run of digits: a numeral.
fn digits_token<'a>(digits: &'a [u8]) -> Result<Token<'a>, Reason>
    ensures { seen result ≡ digits_lexeme digits.now }
{
    let value = numeral_value(digits).ok_or(Reason::Malformed)?;
    Ok(Token::Numeral { digits, value })
}

// The symbol in front, and how many bytes it has.
fn symbol_token<'a>(text: &'a [u8]) -> Result<(Token<'a>, usize), Reason>
    requires letterless { begins is_letter text.now ≡ false }
    requires digitless { begins is_digit text.now ≡ false }
    ensures within { IfOk result (λ t. t.1 ≤ length text.now) }
    ensures token { MatchResult result (λ t. lexeme text.now ≡ (view t.0, t.1)) (λ r. (lexeme text.now).0 ≡ broken r) }
{
    match text {
        [] => Ok((Token::End, 0)),
        [b':', b'=', ..] => Ok((Token::Symbol(Symbol::Assign), 2)),
        [byte, ..] => {
            let symbol = Symbol::try_from(*byte as char).map_err(|_| Reason::StrayByte)?;
            Ok((Token::Symbol(symbol), 1))
        }
    }
}

// The token in front, where no blank stands, and how many bytes it has.
fn front_token<'a>(text: &'a [u8]) -> Result<(Token<'a>, usize), Reason>
    ensures within { IfOk result (λ t. t.1 ≤ length text.now) }
    ensures token { MatchResult result (λ t. lexeme text.now ≡ (view t.0, t.1)) (λ r. (lexeme text.now).0 ≡ broken r) }
{
    let Some(first) = text.first() else {
        return Ok((Token::End, 0));
    };
    match Class::from(*first) {
        Class::Letter => {
            let length = run(text, is_word);
            Ok((word_token(&text[..length])?, length))
        }
        Class::Digit => {
            let length = run(text, is_digit);
            Ok((digits_token(&text[..length])?, length))
        }
        Class::Symbol | Class::Blank | Class::Stranger => symbol_token(text),
    }
}

// The first token from `at` on, or the refusal of what stands there: 1 or 2, with the place of its first byte.
pub fn next_token<'a>(text: &'a [u8], at: usize) -> Result<Lexed<'a>, Refusal>
    ensures next { told result ≡ next_at text.now at }
    ensures inside { Inside text.now at (told result) }
{
    let from = at.min(text.len());
    let start = from + run(&text[from..], is_blank);
    let refuse = |reason| Refusal::new(reason, start);
    let (token, length) = front_token(&text[start..]).map_err(refuse)?;
    Ok(Lexed {
        token,
        start,
        end: start + length,
    })
}
