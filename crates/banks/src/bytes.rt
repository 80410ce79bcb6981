// Registers in bytes, four to a register, the highest first.
ghost use Rattle.banks.specs.Words.{words, left_over, written};

use super::cells::Cell;

#[tactic(auto, using(crate::proofs::Chunks::byte_registers))]
impl Cell for u8 {
    ghost registers = { λ bytes. words bytes };

    ghost spare = { λ bytes. left_over bytes };

    ghost rewritten = { λ bytes k v. written bytes k v };

    fn count(bytes: &[u8]) -> usize {
        bytes.len() / 4
    }

    fn read(bytes: &[u8], k: usize) -> Option<i32> {
        let (words, _) = bytes.as_chunks::<4>();
        let word = words.get(k)?;
        Some(i32::from_be_bytes(*word))
    }

    fn write(bytes: &mut [u8], k: usize, v: i32) -> bool {
        let there = k < u8::count(bytes);
        if there {
            // not by `as_chunks_mut`, of which std does not say what it leaves in the bytes
            bytes[4 * k..4 * k + 4].copy_from_slice(&v.to_be_bytes());
        }
        there
    }
}
