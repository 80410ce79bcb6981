// Registers in numbers, one to a register.
ghost use Rattle.std.specs.Prelude.{[], slice_set};

use super::cells::Cell;

impl Cell for i32 {
    ghost registers = { λ numbers. numbers };

    ghost spare = { λ _. [] };

    ghost rewritten = { λ numbers k v. slice_set numbers k v };

    fn count(numbers: &[i32]) -> usize {
        numbers.len()
    }

    fn read(numbers: &[i32], k: usize) -> Option<i32> {
        numbers.get(k).copied()
    }

    fn write(numbers: &mut [i32], k: usize, v: i32) -> bool {
        let there = k < numbers.len();
        if there {
            // not by `get_mut`, of which std does not say what it leaves in a slice
            numbers[k] = v;
        }
        there
    }
}
