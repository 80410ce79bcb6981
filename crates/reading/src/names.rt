// The names that are declared, in the order of their declarations.
ghost use Rattle.std.specs.Prelude.{◌≡◌, ℕ, ◌<◌, ◌≤◌, true, false, [], length, MatchOption, slice_index_or};
ghost use Rattle.syntax.specs.Names.{among};
ghost use Rattle.reading.specs.Heard.{heard};

// The number of the variable with that name. Not over the table itself, which would carry its own limit: tried, and the borrows of a reader
// that holds the table beside its cursor were not proved.
pub fn find(names: &[&[u8]], word: &[u8]) -> Option<u8>
    requires { length names.now ≤ 256 }
    ensures { MatchOption result (among word.now (heard names.now) ≡ false) (λ k. (k < length names.now) × (slice_index_or (heard names.now) k [] ≡ word.now) × (among word.now (heard names.now) ≡ true)) }
{
    let place = names.iter().position(|name| *name == word)?;
    Some(place as u8)
}
