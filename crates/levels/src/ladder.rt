// The ladder: levels 0 to 15, one above the other.
ghost use Rattle.std.specs.Prelude.{max, nat_lt};
ghost use Rattle.std.proofs.Common.{rules};
ghost use Rattle.values.specs.Operators.{number_of};
ghost use Rattle.values.specs.declared.Operator.TheVariants.{Maximum};

use super::family::LevelFamily;
use values::Operator;

const RUNGS: u32 = 16;

#[derive(Clone, Copy, Debug)]
pub struct Ladder;

impl LevelFamily for Ladder {
    ghost OPERATOR = { number_of Maximum };

    const OPERATOR: u8 = Operator::Maximum as u8;

    ghost code = { λ _ a. nat_lt a 16 };

    ghost joined = { λ _ a b. max a b };

    ghost small = { Prim.search rules };

    ghost bottom = { Prim.search rules };

    ghost neutral = { Prim.search rules };

    ghost closed = { Prim.search rules };

    ghost commutes = { Prim.search rules };

    ghost groups = { Prim.search rules };

    ghost same = { Prim.search rules };

    ghost applies = { Prim.search rules };

    fn is_code(&self, n: u32) -> bool {
        n < RUNGS
    }

    fn join_codes(&self, a: u32, b: u32) -> u32 {
        a.max(b)
    }
}
