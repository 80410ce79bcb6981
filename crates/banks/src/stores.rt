// Who owns the cells of a bank: the bank itself, or whoever lent them.
ghost use Rattle.std.specs.Prelude.{◌≡◌, ℕ, List, length, nat_lt, slice_set};

use super::cells::Cell;
use std::convert::AsSlice;

// What keeps the cells of a bank: a `Vec` owns them, to a `&mut` slice they are lent. `as_slice` shows them.
pub trait Store: AsSlice<<Self as Store>::Item> {
    // The type of the cells.
    type Item: Cell;

    // Which memory is lent, by the name that the logic gives it: 0 where it is owned.
    ghost lent: { Self → ℕ };

    // Sets register k to v, or changes nothing past the last, and tells which. The same memory stays lent.
    fn write(&mut self, k: usize, v: i32) -> bool
        ensures told { result ≡ nat_lt k (length (Self.Item.registers (Self.items self.old))) }
        ensures after { Self.Item.registers (Self.items self.new) ≡ slice_set (Self.Item.registers (Self.items self.old)) k v }
        ensures spare { Self.Item.spare (Self.items self.new) ≡ Self.Item.spare (Self.items self.old) }
        ensures cells { Self.items self.new ≡ Self.Item.rewritten (Self.items self.old) k v }
        ensures same { lent self.new ≡ lent self.old };
}

impl<C: Cell> Store for Vec<C> {
    type Item = C;

    ghost lent = { λ _. 0 };

    fn write(&mut self, k: usize, v: i32) -> bool {
        C::write(self, k, v)
    }
}

impl<'a, C: Cell> Store for &'a mut [C] {
    type Item = C;

    ghost lent = { λ cells. cells.ghost_name };

    fn write(&mut self, k: usize, v: i32) -> bool {
        C::write(*self, k, v)
    }
}
