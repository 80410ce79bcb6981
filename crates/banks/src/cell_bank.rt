// Banks over cells: of bytes or of numbers, owned or lent.
ghost use Rattle.std.specs.Prelude.{◌≡◌, ℕ, List, length, nat_lt, slice_set};

use super::bank::Bank;
use super::cells::Cell;
use super::stores::Store;
use std::convert::AsSlice;

// A bank that keeps its registers in the cells of a store.
#[derive(Drop)]
pub struct CellBank<S> {
    cells: S,
}

// A bank that owns its bytes, with a register in each whole four.
pub type ByteBank = CellBank<Vec<u8>>;

// The same over bytes that are lent, in place.
pub type LentByteBank<'a> = CellBank<&'a mut [u8]>;

// A bank that owns its numbers, each a register.
pub type NumberBank = CellBank<Vec<i32>>;

// The same over numbers that are lent, in place.
pub type LentNumberBank<'a> = CellBank<&'a mut [i32]>;

impl<S: Store> CellBank<S> {
    // A bank whose registers are those that these cells hold.
    pub fn new(cells: S) -> CellBank<S>
        ensures { result.cells ≡ cells }
    {
        CellBank { cells }
    }
}

// What a bank that owns its cells can give back.
impl<C: Cell> CellBank<Vec<C>> {
    // The cells as they stand.
    pub fn cells(&self) -> &[C]
        ensures { result.now ≡ self.now.cells.items }
    {
        self.cells.as_slice()
    }

    // Ends the bank and gives its cells back.
    pub fn into_cells(self) -> Vec<C>
        ensures { result ≡ self.cells }
    {
        let CellBank { cells } = self;
        cells
    }
}

impl<S: Store> Bank for CellBank<S> {
    ghost registers = { λ bank. S.Item.registers (S.items bank.cells) };

    ghost frame = { λ bank. (S.lent bank.cells, S.Item.spare (S.items bank.cells)) };

    fn count(&self) -> usize {
        S::Item::count(self.cells.as_slice())
    }

    fn read(&self, k: usize) -> Option<i32> {
        S::Item::read(self.cells.as_slice(), k)
    }

    // The first three clauses are the trait's, written out; the last says which cells stand afterwards.
    fn write(&mut self, k: usize, v: i32) -> bool
        ensures told { result ≡ nat_lt k (length (S.Item.registers (S.items self.old.cells))) }
        ensures after { S.Item.registers (S.items self.new.cells) ≡ slice_set (S.Item.registers (S.items self.old.cells)) k v }
        ensures same { ◌≡◌ {A = ℕ × List ℕ} (S.lent self.new.cells, S.Item.spare (S.items self.new.cells)) (S.lent self.old.cells, S.Item.spare (S.items self.old.cells)) }
        ensures cells { S.items self.new.cells ≡ S.Item.rewritten (S.items self.old.cells) k v }
    {
        self.cells.write(k, v)
    }
}
