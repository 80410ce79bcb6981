// Lists that may be too short for what is written into them: what does not fit is dropped, and counting goes on.
#![tactic(auto)]

ghost use Rattle.std.specs.Prelude.{◌≡◌, ◌+◌, ◌-◌, ◌^◌, ◌<◌, min, [], ◌∷◌, ◌++◌, length, take, replicate};
ghost use Rattle.lists.specs.Overlay.{overlay, Laid};

// A list that is being written, and how many of its places are used, whether they found room or not: a count that may go past the end, as
// no list's own length can.
#[derive(Drop)]
pub struct Places<'a, T> {
    pub cells: &'a mut [T],
    pub used: usize,
}

impl<'a, T: Copy> Places<'a, T> {
    // A list of which no place is used yet.
    pub fn new(cells: &'a mut [T]) -> Places<'a, T>
        ensures { (result.cells ≡ cells.entry) × (result.used ≡ 0) }
    {
        Places { cells, used: 0 }
    }

    // Writes `x` at place `i`, or nothing where the list ends before it.
    pub fn set(&mut self, i: usize, x: T)
        ensures same { self.new.cells.ghost_name ≡ self.old.cells.ghost_name }
        ensures written { self.new.cells.now ≡ overlay self.old.cells.now i (x ∷ []) }
        ensures count { self.new.used ≡ self.old.used }
    {
        if i < self.cells.len() {
            self.cells[i] = x;
        }
    }

    // Leaves the next place as it is, and answers which that is. The count stops at the largest `usize`.
    pub fn leave(&mut self) -> usize
        ensures same { self.new.cells ≡ self.old.cells }
        ensures count { self.new.used ≡ min (self.old.used + 1) 18446744073709551615 }
        ensures told { result ≡ self.old.used }
    {
        let left = self.used;
        self.used = left.saturating_add(1);
        left
    }

    // Writes `x` at the next place. The count stops at the largest `usize`.
    pub fn push(&mut self, x: T)
        ensures same { self.new.cells.ghost_name ≡ self.old.cells.ghost_name }
        ensures written { self.new.cells.now ≡ overlay self.old.cells.now self.old.used (x ∷ []) }
        ensures count { self.new.used ≡ min (self.old.used + 1) 18446744073709551615 }
        ensures laid { self.old.used + 1 < 2 ^ 64 → Laid self.old.cells.now self.old.used (x ∷ []) self.new.cells.now self.new.used }
    {
        let at = self.leave();
        self.set(at, x);
    }
}

// Writes `x` into every place from `from` on. Not by `fill`, which asks that a clone can't fail, and so more of callers.
pub fn blank<T: Copy>(xs: &mut [T], from: usize, x: T)
    ensures { xs.new ≡ take from xs.old ++ replicate (length xs.old - from) x }
{
    'each: for at in from..xs.len() {
        xs[at] = x;
    }
}
