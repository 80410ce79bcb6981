// Checks of a list of declarations.
ghost use Rattle.std.specs.Prelude.{◌≡◌, ◌==◌};
ghost use Rattle.std.specs.List.{list_all};
ghost use Rattle.letters.specs.Classes.{is_digit, is_word};
ghost use Rattle.syntax.specs.Names.{padded, spelled, legal_name, legal_declaration, among, spellings, distinct, all_legal, well_declared};

use super::form::{Declaration, GREATEST, Name, VARIABLES};
use letters::{is_digit, is_word, keyword_of};

// Whether there are only letters and digits.
fn all_word(bytes: &[u8]) -> bool
    ensures { result ≡ list_all is_word bytes.now }
{
    bytes.iter().all(|&b| is_word(b))
}

// Whether there are only zeros.
fn all_zero(bytes: &[u8]) -> bool
    ensures { result ≡ list_all (λ b. b == 0) bytes.now }
{
    bytes.iter().all(|&b| b == 0)
}

// Whether `count` letters and digits stand first, and then zeros.
#[tactic(auto, using(crate::proofs::Spelled::padded_parts, crate::proofs::Spelled::padded_short))]
fn is_padded(bytes: &[u8; 15], count: usize) -> bool
    ensures { result ≡ padded count bytes.now }
{
    bytes
        .split_at_checked(count)
        .is_some_and(|(word, rest)| all_word(word) && all_zero(rest))
}

// Whether a name is legal, and zeros stand behind it.
fn is_legal_name(name: &Name) -> bool
    ensures { result ≡ legal_name name.now }
{
    name.length > 0
        && is_padded(&name.bytes, name.length as usize)
        && !is_digit(name.bytes[0])
        && keyword_of(name.spelling()).is_none()
}

// Whether the name is legal, and the level is not too large.
fn is_legal_declaration(declaration: &Declaration) -> bool
    ensures { result ≡ legal_declaration declaration.now }
{
    is_legal_name(&declaration.name) && declaration.level <= GREATEST
}

// Whether each declaration is legal.
fn all_legal(declarations: &[Declaration]) -> bool
    ensures { result ≡ all_legal declarations.now }
{
    declarations.iter().all(is_legal_declaration)
}

// Whether one of the declarations has that name.
fn is_among(name: &Name, declarations: &[Declaration]) -> bool
    ensures { result ≡ among (spelled name.now) (spellings declarations.now) }
{
    declarations
        .iter()
        .any(|d| name.spelling() == d.name.spelling())
}

// Whether no two declarations have one name: each is compared with those behind it.
fn all_distinct(declarations: &[Declaration]) -> bool
    ensures { result ≡ distinct (spellings declarations.now) }
{
    let mut rest = declarations;
    'each: while let [first, others @ ..] = rest {
        if is_among(&first.name, others) {
            return false;
        }
        rest = others;
    }
    true
}

// Whether these can be the declarations of a script.
pub fn declarations_stand(declarations: &[Declaration]) -> bool
    ensures { result ≡ well_declared declarations.now }
{
    declarations.len() <= VARIABLES && all_legal(declarations) && all_distinct(declarations)
}
