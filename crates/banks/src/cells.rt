// Cells: what a bank keeps its registers in, one cell or several to a register.
ghost use Rattle.std.specs.Prelude.{◌≡◌, ℕ, List, length, ℤ, nat_lt, slice_set};
ghost use Rattle.std.specs.List.{slice_get};

// A type of which a slice holds registers: `i32`, a register each, and `u8`, a register in each whole four.
pub trait Cell: Copy {
    // The registers that the cells hold, in order.
    ghost registers: { List Self → List ℤ };

    // The bytes at the end that are too few for a register.
    ghost spare: { List Self → List ℕ };

    // The cells once a value is written into a register: past the last they are as they were.
    ghost rewritten: { List Self → ℕ → ℤ → List Self };

    // How many registers there are.
    fn count(cells: &[Self]) -> usize
        ensures { result ≡ length (registers cells.now) };

    // Register k, or `None` past the last.
    fn read(cells: &[Self], k: usize) -> Option<i32>
        ensures { result ≡ slice_get (registers cells.now) k };

    // Sets register k to v, or changes nothing past the last, and tells which. The last clause says which cells stand afterwards.
    fn write(cells: &mut [Self], k: usize, v: i32) -> bool
        ensures told { result ≡ nat_lt k (length (registers cells.old)) }
        ensures after { registers cells.new ≡ slice_set (registers cells.old) k v }
        ensures spare { spare cells.new ≡ spare cells.old }
        ensures cells { cells.new ≡ rewritten cells.old k v };
}
