// Banks: the places where a run keeps its registers, in numbers or in bytes, owned or lent.
#![tactic(auto)]

mod bank;
mod bytes;
mod cell_bank;
mod cells;
mod laws;
mod numbers;
mod stores;
#[cfg(test)]
mod tests;

pub use bank::{Bank, reset};
pub use cell_bank::{ByteBank, CellBank, LentByteBank, LentNumberBank, NumberBank};
pub use cells::Cell;
pub use laws::bank_laws_stand;
pub use stores::Store;
