// What a family of levels is.
ghost use Rattle.std.specs.Prelude.{◌≡◌, ℕ, ◌<◌, Bool, true, pos, Some};
ghost use Rattle.levels.specs.Joins.{join_of, flows_to, joined_by};

// A family of levels, which may hold data: its codes lie within 0 to 65535, and any two of them have a join.
pub trait LevelFamily {
    // the number of the script operator that joins codes
    ghost OPERATOR: { ℕ };

    const OPERATOR: u8;

    // which numbers are codes
    ghost code: { Self → ℕ → Bool };

    // the join of two codes
    ghost joined: { Self → ℕ → ℕ → ℕ };

    fn is_code(&self, n: u32) -> bool
        ensures { result ≡ code self.now n };

    // The join of two codes. Of other numbers it may be anything.
    fn join_codes(&self, a: u32, b: u32) -> u32
        ensures { code self.now a ≡ true → code self.now b ≡ true → result ≡ joined self.now a b };

    // The join, or none where either number is no code.
    fn join(&self, a: u32, b: u32) -> Option<u32>
        ensures { result ≡ join_of (code self.now) (joined self.now) a b }
    {
        if self.is_code(a) && self.is_code(b) {
            Some(self.join_codes(a, b))
        } else {
            None
        }
    }

    ghost small: { (f : Self) (a : ℕ) → code f a ≡ true → a < 65536 };

    ghost bottom: { (f : Self) → code f 0 ≡ true };

    ghost neutral: { (f : Self) (a : ℕ) → code f a ≡ true → joined f 0 a ≡ a };

    ghost closed: { (f : Self) (a b : ℕ) → code f a ≡ true → code f b ≡ true → code f (joined f a b) ≡ true };

    ghost commutes: { (f : Self) (a b : ℕ) → code f a ≡ true → code f b ≡ true → joined f a b ≡ joined f b a };

    ghost groups: { (f : Self) (a b c : ℕ) → code f a ≡ true → code f b ≡ true → code f c ≡ true → joined f (joined f a b) c ≡ joined f a (joined f b c) };

    ghost same: { (f : Self) (a : ℕ) → code f a ≡ true → joined f a a ≡ a };

    // the script operator, at two codes, gives their join
    ghost applies: { (f : Self) (a b : ℕ) → code f a ≡ true → code f b ≡ true → joined_by OPERATOR a b ≡ Some (pos (joined f a b)) };
}

// Whether level a flows to b.
pub fn flows<F: LevelFamily>(family: &F, a: u32, b: u32) -> bool
    ensures { result ≡ flows_to (F.code family.now) (F.joined family.now) a b }
{
    family.join(a, b) == Some(b)
}

// The number by which a rewritten script names the joining operator.
pub fn join_number<F: LevelFamily>(family: &F) -> u8
    ensures number { result ≡ F.OPERATOR }
    ensures joins { (a b : ℕ) → F.code family.now a ≡ true → F.code family.now b ≡ true → joined_by result a b ≡ Some (pos (F.joined family.now a b)) }
{
    F::OPERATOR
}
