// The letters of a script: classes of bytes, keywords, symbols, numerals, and the tokens that a text is made of.
#![tactic(auto)]

mod classes;
mod keywords;
mod numerals;
mod symbols;
mod texts;
mod tokens;

pub use classes::{Class, is_digit, is_word};
pub use keywords::{Keyword, NotAKeyword, keyword_of};
pub use numerals::numeral_value;
pub use symbols::{NotASymbol, Symbol};
pub use texts::{ScanError, TEXT_BYTES, scan, token_laws};
pub use tokens::{Lexed, NAME_BYTES, Token, next_token};
