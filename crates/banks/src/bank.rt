// What every bank offers, and the one call that is written for all of them.
ghost use Rattle.std.specs.Prelude.{◌≡◌, ℕ, List, length, ℤ, nat_lt, slice_set};
ghost use Rattle.std.specs.List.{slice_get};
ghost use Rattle.banks.specs.Cleared.{cleared};

// A list of signed 32-bit registers, numbered from 0.
pub trait Bank {
    // The registers, in order.
    ghost registers: { Self → List ℤ };

    // What every call leaves as it is, in two parts: which memory is lent to the bank, by the name that the logic gives it
    // (0 where the bank owns its memory), and the bytes that are too few for a register.
    // Code that is written for all banks has to promise this of a `&mut` bank. Whoever lent the memory knows then that the
    // bank still lies in it, and so that its registers and the bytes left over are what stands in that memory afterwards.
    ghost frame: { Self → ℕ × List ℕ };

    // How many registers there are.
    fn count(&self) -> usize
        ensures { result ≡ length (registers self.now) };

    // The value of register k, or `None` where there is no such register.
    fn read(&self, k: usize) -> Option<i32>
        ensures { result ≡ slice_get (registers self.now) k };

    // Sets register k to v, and no other, and answers `true`. Where there is no such register it changes nothing, as
    // `slice_set` does past the end of a list, and answers `false`.
    fn write(&mut self, k: usize, v: i32) -> bool
        ensures told { result ≡ nat_lt k (length (registers self.old)) }
        ensures after { registers self.new ≡ slice_set (registers self.old) k v }
        ensures same { frame self.new ≡ frame self.old };
}

// Sets the first n registers to 0, or all of them where there are fewer, and no other.
#[tactic(auto, using(crate::proofs::Zeros::reset_steps))]
pub fn reset<B: Bank>(bank: &mut B, n: usize)
    ensures after { B.registers bank.new ≡ cleared n (B.registers bank.old) }
    ensures same { B.frame bank.new ≡ B.frame bank.old }
{
    let end = n.min(bank.count());
    'each: for k in 0..end {
        let _ = bank.write(k, 0);
    }
}
