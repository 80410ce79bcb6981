// The keywords.
ghost use Rattle.std.specs.Prelude.{◌≡◌, Some, None, MatchResult};
ghost use Rattle.letters.specs.Keywords.{keyword_of, keyword_bytes};

use std::str::FromStr;

#[derive(Clone, Copy, PartialEq, Eq, Debug)]
pub enum Keyword {
    Var,
    Skip,
    If,
    Then,
    Else,
    End,
    While,
    Do,
    Write,
    Stop,
    Declassify,
    Max,
}

// What a word is that is no keyword.
#[derive(Clone, Copy, PartialEq, Eq, Debug)]
pub struct NotAKeyword;

// The keyword that a word of text is.
impl FromStr for Keyword {
    type Err = NotAKeyword;

    ghost from_str_gives = { λ word told. MatchResult told (λ k. keyword_of word ≡ Some k) (λ _. keyword_of word ≡ None) };

    fn from_str(word: &str) -> Result<Keyword, NotAKeyword> {
        match word {
            "var" => Ok(Keyword::Var),
            "skip" => Ok(Keyword::Skip),
            "if" => Ok(Keyword::If),
            "then" => Ok(Keyword::Then),
            "else" => Ok(Keyword::Else),
            "end" => Ok(Keyword::End),
            "while" => Ok(Keyword::While),
            "do" => Ok(Keyword::Do),
            "write" => Ok(Keyword::Write),
            "stop" => Ok(Keyword::Stop),
            "declassify" => Ok(Keyword::Declassify),
            "max" => Ok(Keyword::Max),
            _ => Err(NotAKeyword),
        }
    }
}

// The keyword that these bytes spell. Bytes that are no text spell none.
pub fn keyword_of(word: &[u8]) -> Option<Keyword>
    ensures { result ≡ keyword_of word.now }
{
    std::str::from_utf8(word).ok()?.parse().ok()
}

impl Keyword {
    // How the keyword is written. Not by Display: who writes into lent places needs the bytes, and no formatter.
    pub fn text(self) -> &'static str
        ensures { result.now ≡ keyword_bytes self }
    {
        match self {
            Keyword::Var => "var",
            Keyword::Skip => "skip",
            Keyword::If => "if",
            Keyword::Then => "then",
            Keyword::Else => "else",
            Keyword::End => "end",
            Keyword::While => "while",
            Keyword::Do => "do",
            Keyword::Write => "write",
            Keyword::Stop => "stop",
            Keyword::Declassify => "declassify",
            Keyword::Max => "max",
        }
    }
}
