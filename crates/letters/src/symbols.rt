// The symbols of one byte, and `:=`.
ghost use Rattle.std.specs.Prelude.{◌≡◌, Some, None, MatchResult};
ghost use Rattle.letters.specs.Symbols.{symbol_of, symbol_bytes};

#[derive(Clone, Copy, PartialEq, Eq, Debug)]
pub enum Symbol {
    Assign,
    Colon,
    Semicolon,
    Open,
    Close,
    Plus,
    Minus,
    Times,
    Over,
    Equals,
    Less,
    Bar,
}

// What a character is that alone is no symbol.
#[derive(Clone, Copy, PartialEq, Eq, Debug)]
pub struct NotASymbol;

// The symbol that a character alone is.
impl TryFrom<char> for Symbol {
    type Error = NotASymbol;

    ghost try_from_gives = { λ c told. MatchResult told (λ s. symbol_of c ≡ Some s) (λ _. symbol_of c ≡ None) };

    fn try_from(c: char) -> Result<Symbol, NotASymbol> {
        match c {
            ':' => Ok(Symbol::Colon),
            ';' => Ok(Symbol::Semicolon),
            '(' => Ok(Symbol::Open),
            ')' => Ok(Symbol::Close),
            '+' => Ok(Symbol::Plus),
            '-' => Ok(Symbol::Minus),
            '*' => Ok(Symbol::Times),
            '/' => Ok(Symbol::Over),
            '=' => Ok(Symbol::Equals),
            '<' => Ok(Symbol::Less),
            '|' => Ok(Symbol::Bar),
            _ => Err(NotASymbol),
        }
    }
}

impl Symbol {
    // How the symbol is written. Not by Display: who writes into lent places needs the bytes, and no formatter.
    pub fn text(self) -> &'static str
        ensures { result.now ≡ symbol_bytes self }
    {
        match self {
            Symbol::Assign => ":=",
            Symbol::Colon => ":",
            Symbol::Semicolon => ";",
            Symbol::Open => "(",
            Symbol::Close => ")",
            Symbol::Plus => "+",
            Symbol::Minus => "-",
            Symbol::Times => "*",
            Symbol::Over => "/",
            Symbol::Equals => "=",
            Symbol::Less => "<",
            Symbol::Bar => "|",
        }
    }
}
