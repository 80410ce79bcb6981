// Tokens written into a buffer, each with its separator. What does not fit is dropped, and counting goes on.
ghost use Rattle.std.specs.Prelude.{◌≡◌, [], ◌∷◌, ◌++◌};
ghost use Rattle.reading.specs.Grammar.{name as a_name, numeral as a_numeral, keyword as a_keyword, symbol as a_symbol, operator_terminal};
ghost use Rattle.syntax.specs.Names.{spelled};
ghost use Rattle.spelling.specs.Spelling.{keyword_separator, symbol_separator};
ghost use Rattle.spelling.specs.Buffers.{Put};
ghost use Rattle.spelling.specs.Parts.{token_bytes};

use itoa::Buffer;
use letters::{Keyword, Symbol};
use lists::Places;
use syntax::Name;
use values::Operator;

const SPACE: u8 = b' ';

const LINE_FEED: u8 = b'\n';

// Writes bytes at the next places.
fn put_bytes(out: &mut Places<u8>, bytes: &[u8])
    ensures { Put out.old out.new bytes.now }
{
    'each: for byte in bytes {
        out.push(*byte);
    }
}

// Writes bytes and then a separator.
fn put_word(out: &mut Places<u8>, word: &[u8], separator: u8)
    ensures { Put out.old out.new (word.now ++ (separator ∷ [])) }
{
    put_bytes(out, word);
    out.push(separator);
}

// What stands behind a keyword.
fn keyword_separator(keyword: Keyword) -> u8
    ensures { result ≡ keyword_separator keyword }
{
    match keyword {
        Keyword::Then | Keyword::Else | Keyword::Do => LINE_FEED,
        _ => SPACE,
    }
}

// What stands behind a symbol.
fn symbol_separator(symbol: Symbol) -> u8
    ensures { result ≡ symbol_separator symbol }
{
    match symbol {
        Symbol::Semicolon => LINE_FEED,
        _ => SPACE,
    }
}

// Keywords and symbols are written by two functions: one over a trait of both, with a law for the text and the separator, would be longer.

// Writes a keyword.
pub fn put_keyword(out: &mut Places<u8>, keyword: Keyword)
    ensures { Put out.old out.new (token_bytes (a_keyword keyword)) }
{
    put_word(out, keyword.text().as_bytes(), keyword_separator(keyword));
}

// Writes a symbol.
pub fn put_symbol(out: &mut Places<u8>, symbol: Symbol)
    ensures { Put out.old out.new (token_bytes (a_symbol symbol)) }
{
    put_word(out, symbol.text().as_bytes(), symbol_separator(symbol));
}

// Writes an operator: seven are symbols, and one is a keyword.
pub fn put_operator(out: &mut Places<u8>, operator: Operator)
    ensures { Put out.old out.new (token_bytes (operator_terminal operator)) }
{
    match operator {
        Operator::Add => put_symbol(out, Symbol::Plus),
        Operator::Subtract => put_symbol(out, Symbol::Minus),
        Operator::Multiply => put_symbol(out, Symbol::Times),
        Operator::Divide => put_symbol(out, Symbol::Over),
        Operator::Equal => put_symbol(out, Symbol::Equals),
        Operator::Less => put_symbol(out, Symbol::Less),
        Operator::Maximum => put_keyword(out, Keyword::Max),
        Operator::Or => put_symbol(out, Symbol::Bar),
    }
}

// Writes a name.
pub fn put_name(out: &mut Places<u8>, name: &Name)
    ensures { Put out.old out.new (token_bytes (a_name (spelled name.now))) }
{
    put_word(out, name.spelling(), SPACE);
}

// Writes a numeral.
pub fn put_numeral(out: &mut Places<u8>, number: u32)
    ensures { Put out.old out.new (token_bytes (a_numeral number)) }
{
    // one digit is written without the buffer that `itoa` makes ready for each number
    if number < 10 {
        put_word(out, &[b'0' + number as u8], SPACE);
        return;
    }
    let mut digits = Buffer::new();
    put_word(out, digits.format(number).as_bytes(), SPACE);
}
