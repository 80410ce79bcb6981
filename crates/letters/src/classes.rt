// Classes of bytes.
ghost use Rattle.std.specs.Prelude.{◌≡◌};
ghost use Rattle.letters.specs.Classes.{class_of, is_word, is_digit, is_blank};

// What a byte is to the letters: it can begin a word, a numeral or a symbol, stand between tokens, or do none of these.
#[derive(Clone, Copy, PartialEq, Eq, Debug)]
pub enum Class {
    Stranger,
    Letter,
    Digit,
    Blank,
    Symbol,
}

impl From<u8> for Class {
    ghost from_gives = { λ byte class. class ≡ class_of byte };

    fn from(byte: u8) -> Class {
        match byte as char {
            'a'..='z' | 'A'..='Z' | '_' => Class::Letter,
            '0'..='9' => Class::Digit,
            ' ' | '\t' | '\r' | '\n' => Class::Blank,
            ':' | ';' | '(' | ')' | '+' | '-' | '*' | '/' | '=' | '<' | '|' => Class::Symbol,
            _ => Class::Stranger,
        }
    }
}

// Whether a byte may stand in a word.
pub fn is_word(byte: u8) -> bool
    ensures { result ≡ is_word byte }
{
    matches!(Class::from(byte), Class::Letter | Class::Digit)
}

// Whether a byte is a digit.
pub fn is_digit(byte: u8) -> bool
    ensures { result ≡ is_digit byte }
{
    matches!(Class::from(byte), Class::Digit)
}

// Whether a byte is a blank.
pub fn is_blank(byte: u8) -> bool
    ensures { result ≡ is_blank byte }
{
    matches!(Class::from(byte), Class::Blank)
}
