// The parties: a level is a set of up to 16 parties, one bit each. The join is the union, so a level flows to those that contain it.
ghost use Rattle.std.proofs.lemmas.Nat.{or_lt, or_comm};
ghost use Rattle.std.specs.Int.Bits.{or_self};
ghost use Rattle.std.specs.Prelude.{◌^◌, ◌<◌, Some, bit_or, nat_lt};
ghost use Rattle.std.proofs.Common.{ltb-true, lt-ltb, ap, arith, rules};
ghost use Rattle.values.proofs.Bitwise.{or_assoc};
ghost use Rattle.std.specs.Int.{w32};
ghost use Rattle.std.proofs.lemmas.Int.{to_z_pos};
ghost use Rattle.values.specs.Operators.{number_of};
ghost use Rattle.values.specs.declared.Operator.TheVariants.{Or};

use super::family::LevelFamily;
use values::Operator;

const SETS: u32 = 65536;

#[derive(Clone, Copy, Debug)]
pub struct Parties;

impl LevelFamily for Parties {
    ghost OPERATOR = { number_of Or };

    const OPERATOR: u8 = Operator::Or as u8;

    ghost code = { λ _ a. nat_lt a 65536 };

    ghost joined = { λ _ a b. bit_or a b };

    ghost small = { Prim.search rules };

    ghost bottom = { Prim.search rules };

    ghost neutral = { Prim.search rules };

    ghost closed = { λ f a b p q. lt-ltb (bit_or a b) 65536 (or_lt 16 a b (ltb-true a 65536 p) (ltb-true b 65536 q)) };

    ghost commutes = { λ f a b p q. or_comm a b };

    ghost groups = { λ f a b c p q r. or_assoc a b c };

    ghost same = { λ f a p. or_self a };

    ghost applies = { λ f a b p q.
        let h : bit_or a b < 2 ^ 16 = or_lt 16 a b (ltb-true a 65536 p) (ltb-true b 65536 q) in
        ap Some (to_z_pos w32 (bit_or a b) (omega arith)) };

    fn is_code(&self, n: u32) -> bool {
        n < SETS
    }

    fn join_codes(&self, a: u32, b: u32) -> u32 {
        a | b
    }
}
