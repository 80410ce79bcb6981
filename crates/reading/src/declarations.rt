// Declarations.
ghost use Rattle.std.specs.Prelude.{◌≡◌, ℕ, ◌-◌, ◌<◌, ◌≤◌, ◌||◌, List, [], ◌∷◌, ◌++◌, length, replicate, IfOk, MatchResult, nat_le};
ghost use Rattle.letters.specs.declared.symbols.Symbol.TheVariants as mark;
ghost use Rattle.letters.specs.Texts.{Piece, Ending};
ghost use Rattle.syntax.specs.Names.{among};
ghost use Rattle.reading.specs.Grammar.{symbol, numeral};
ghost use Rattle.reading.specs.Heard.{heard};
ghost use Rattle.reading.specs.Reads.{Ahead, Passed, Fails};
ghost use Rattle.reading.specs.Declares.{NewNameRead, DeclarationRead, DeclarationsRead, DeclarationsOver, NewNameFails, DeclarationFails, DeclarationsFail, levelled};

use super::cursor::Cursor;
use super::names::find;
use super::takes::Fixed;
use arrayvec::ArrayVec;
use letters::{Keyword, NAME_BYTES, Symbol, Token, next_token};
use lists::Places;
use refusals::{Reason, Refusal};
use syntax::{Declaration, Name, VARIABLES};

// The names that are declared, in the order of their declarations.
pub type Names<'a> = ArrayVec<&'a [u8], 256>;

// A name with zeros behind it; of a longer word, its first 15 bytes. No conversion of `Name`, which would have to turn longer words away.
fn name_of(word: &[u8]) -> Name
    ensures length { length word.now ≤ 15 → result.length ≡ length word.now }
    ensures bytes { length word.now ≤ 15 → result.bytes ≡ word.now ++ replicate (15 - length word.now) 0 }
{
    let count = word.len().min(NAME_BYTES);
    let mut bytes = [0u8; 15];
    bytes[..count].copy_from_slice(&word[..count]);
    Name {
        length: count as u8,
        bytes,
    }
}

// Whether no variable of that name may be declared: there is one, or there is no room for another.
fn is_taken(names: &Names<'_>, word: &[u8]) -> bool
    ensures { result ≡ (among word.now (heard names.now.items) || nat_le 256 (length (heard names.now.items))) }
{
    find(names.as_slice(), word).is_some() || names.len() >= VARIABLES
}

impl<'a> Cursor<'a> {
    // Goes behind a name that is not declared yet, with room for it, and answers it.
    fn take_new_name(&mut self, names: &Names<'_>) -> Result<&'a [u8], Refusal>
        ensures same { self.new.text ≡ self.old.text }
        ensures onward { IfOk result (λ _. (self.old.at < self.new.at) × (length names.now.items < 256)) }
        ensures read { (ps : List Piece) (f : Ending) → Ahead self.old.text.now self.old.at ps f → MatchResult result (λ x. NewNameRead self.old.text.now (heard names.now.items) x.now ps f self.new.at) (λ e. NewNameFails self.old.text.now (heard names.now.items) ps f e) }
    {
        let lexed = next_token(self.text, self.at)?;
        let Token::Name(word) = lexed.token else {
            return Err(Refusal::new(Reason::Unexpected, lexed.start));
        };
        if is_taken(names, word) {
            return Err(Refusal::new(Reason::BadDeclaration, lexed.start));
        }
        self.at = lexed.end;
        Ok(word)
    }

    // From behind the name of a declaration, goes behind its `;` and answers its level.
    fn take_level(&mut self) -> Result<u32, Refusal>
        ensures same { self.new.text ≡ self.old.text }
        ensures onward { IfOk result (λ _. self.old.at < self.new.at) }
        ensures read { (names : List (List ℕ)) (ps : List Piece) (f : Ending) → Ahead self.old.text.now self.old.at ps f → MatchResult result (λ x. Passed self.old.text.now names levelled (λ rest. symbol mark.Colon ∷ numeral x ∷ symbol mark.Semicolon ∷ rest) ps f self.new.at × (x ≤ 2147483647)) (λ e. Fails self.old.text.now names levelled ps f e) }
    {
        self.take(Symbol::Colon)?;
        let level = self.take_numeral()?;
        self.take(Symbol::Semicolon)?;
        Ok(level)
    }

    // From behind `var`, goes behind the `;` of a declaration and answers its name and what it declares.
    fn declaration(&mut self, names: &Names<'_>) -> Result<(&'a [u8], Declaration), Refusal>
        ensures same { self.new.text ≡ self.old.text }
        ensures onward { IfOk result (λ _. (self.old.at < self.new.at) × (length names.now.items < 256)) }
        ensures read { (ps : List Piece) (f : Ending) → Ahead self.old.text.now self.old.at ps f → MatchResult result (λ x. DeclarationRead self.old.text.now (heard names.now.items) x.0.now x.1 ps f self.new.at) (λ e. DeclarationFails self.old.text.now (heard names.now.items) ps f e) }
    {
        let word = self.take_new_name(names)?;
        let level = self.take_level()?;
        let name = name_of(word);
        Ok((word, Declaration { name, level }))
    }

    // From the front of a script, goes behind all declarations, and keeps their names.
    pub fn declare_all(
        &mut self,
        names: &mut Names<'a>,
        declarations: &mut Places<Declaration>,
    ) -> Result<(), Refusal>
        requires front { self.old.at ≡ 0 }
        requires none_named { names.old.items ≡ [] }
        requires none_written { declarations.old.used ≡ 0 }
        ensures same { (self.new.text ≡ self.old.text) × (declarations.new.cells.ghost_name ≡ declarations.old.cells.ghost_name) }
        ensures read { (ps : List Piece) (f : Ending) → Ahead self.old.text.now 0 ps f → MatchResult result (λ _. DeclarationsRead self.old.text.now (heard names.new.items) ps f declarations.old.cells.now declarations.new.cells.now self.new.at declarations.new.used × DeclarationsOver self.old.text.now (heard names.new.items) self.new.at f) (λ e. DeclarationsFail self.old.text.now ps f e) }
    {
        'each: loop {
            let lexed = next_token(self.text, self.at)?;
            if !Keyword::Var.is(lexed.token) {
                return Ok(());
            }
            self.at = lexed.end;
            let (word, declaration) = self.declaration(names)?;
            names.push(word);
            declarations.push(declaration);
        }
    }
}
