// All tokens of a text.
ghost use Rattle.std.specs.Prelude.{◌≡◌, ◌≤◌, length, MatchResult};
ghost use Rattle.letters.specs.Texts.{MadeOf, finished, pieces, OneWay, NoneLonger};
ghost use Rattle.letters.specs.Keywords.{KeywordsWritten};
ghost use Rattle.letters.specs.Scans.{Failed};
ghost use Rattle.letters.specs.declared.texts.ScanError.TheVariants.{Refused, NoMemory};

use super::tokens::{Lexed, Token, next_token};
use refusals::{Reason, Refusal};
use std::alloc::{AllocFailed, Global};

// Why a text has no list of tokens.
#[derive(Clone, Copy, Debug)]
pub enum ScanError {
    Refused(Refusal),
    NoMemory,
}

impl From<Refusal> for ScanError {
    ghost from_gives = { λ refusal e. e ≡ Refused refusal };

    fn from(refusal: Refusal) -> ScanError {
        ScanError::Refused(refusal)
    }
}

impl<T: Drop> From<AllocFailed<T>> for ScanError {
    ghost from_gives = { λ _ e. e ≡ NoMemory };

    fn from(_failed: AllocFailed<T>) -> ScanError {
        ScanError::NoMemory
    }
}

// the longest text
pub const TEXT_BYTES: usize = 1048576;

// The tokens that a text is made of, without its end; or the refusal of a text above 1,048,576 bytes (8, place 0), or else of the
// first fault (1 or 2, with its place).
pub fn scan<'a>(heap: Global, text: &'a [u8]) -> Result<Vec<Lexed<'a>>, ScanError>
    ensures { MatchResult result (λ v. (length text.now ≤ 1048576) × MadeOf 0 text.now (pieces v.items) finished) (λ e. Failed text.now e) }
{
    if text.len() > TEXT_BYTES {
        return Err(Refusal::new(Reason::TextTooLong, 0).into());
    }
    let mut found = Vec::new(heap);
    let mut at = 0;
    'each: loop {
        let lexed = next_token(text, at)?;
        if let Token::End = lexed.token {
            return Ok(found);
        }
        found.push(lexed)?;
        at = lexed.end;
    }
}

// A text is made of tokens, or has its first fault, in one way; no token could have been longer; and a keyword as it is written is
// that keyword.
pub fn token_laws()
    ensures one_way { OneWay }
    ensures none_longer { NoneLonger }
    ensures keywords { KeywordsWritten }
{}
