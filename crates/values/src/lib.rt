// Signed 32-bit values and the eight operators of a script.
#![tactic(auto)]

ghost use Rattle.std.specs.Prelude.{◌≡◌, Some};
ghost use Rattle.values.specs.Operators.{operate, quotient, number_of, OperatorOrUnknown, shown_unknown};
ghost use Rattle.values.specs.Laws.{OperatorLaws};

use std::error::Error;
use std::fmt;

// The operators `+ - * / = < max |`, in the order of their numbers.
#[derive(Clone, Copy, PartialEq, Eq, Debug)]
pub enum Operator {
    Add,
    Subtract,
    Multiply,
    Divide,
    Equal,
    Less,
    Maximum,
    Or,
}

// A number that no operator has.
#[derive(Clone, Copy, PartialEq, Eq, Debug)]
pub struct UnknownOperator(pub u8);

// The operator's number, 0 to 7.
impl From<Operator> for u8 {
    ghost from_gives = { λ operator number. number ≡ number_of operator };

    fn from(operator: Operator) -> u8 {
        operator as u8
    }
}

// The operator with this number.
impl TryFrom<u8> for Operator {
    type Error = UnknownOperator;

    ghost try_from_gives = { OperatorOrUnknown };

    fn try_from(number: u8) -> Result<Operator, UnknownOperator> {
        match number {
            0 => Ok(Operator::Add),
            1 => Ok(Operator::Subtract),
            2 => Ok(Operator::Multiply),
            3 => Ok(Operator::Divide),
            4 => Ok(Operator::Equal),
            5 => Ok(Operator::Less),
            6 => Ok(Operator::Maximum),
            7 => Ok(Operator::Or),
            _ => Err(UnknownOperator(number)),
        }
    }
}

// By hand, so that a clause says what is printed.
impl fmt::Display for UnknownOperator {
    ghost output = { λ e. Some (shown_unknown e) };

    fn fmt<W: fmt::Write>(&self, f: &mut fmt::Formatter<W>) -> fmt::Result {
        write!(f, "no operator has number {}", self.0)
    }
}

impl Error for UnknownOperator {}

impl Operator {
    // What the operator gives at two values.
    pub fn apply(self, a: i32, b: i32) -> i32
        ensures { result ≡ operate self a b }
    {
        match self {
            Operator::Add => a.wrapping_add(b),
            Operator::Subtract => a.wrapping_sub(b),
            Operator::Multiply => a.wrapping_mul(b),
            Operator::Divide => divide(a, b),
            Operator::Equal => i32::from(a == b),
            Operator::Less => i32::from(a < b),
            Operator::Maximum => a.max(b),
            Operator::Or => a | b,
        }
    }
}

// The quotient without its fraction; 0 for a zero divisor; the least number over -1 is the least number.
pub fn divide(a: i32, b: i32) -> i32
    ensures { result ≡ quotient a b }
{
    if b == 0 {
        return 0;
    }
    a.wrapping_div(b)
}

// The laws of the operators in the words of the language, for whoever reads or uses the definitions.
pub fn operator_laws()
    ensures { OperatorLaws }
{}

#[cfg(test)]
mod tests {
    use super::*;
    use std::test::Fail;

    const LEAST: i32 = -2147483648;

    const MOST: i32 = 2147483647;

    #[test]
    fn sums_wrap(rt: HostRuntime) {
        assert_eq!(rt; Operator::Add.apply(MOST, 1), LEAST);
        assert_eq!(rt; Operator::Subtract.apply(LEAST, 1), MOST);
        assert_eq!(rt; Operator::Multiply.apply(65536, 65536), 0);
    }

    #[test]
    fn quotients_drop_the_fraction(rt: HostRuntime) {
        assert_eq!(rt; divide(-7, 2), -3);
        assert_eq!(rt; divide(7, -2), -3);
        assert_eq!(rt; divide(5, 0), 0);
        assert_eq!(rt; divide(LEAST, -1), LEAST);
    }

    #[test]
    fn comparisons_and_bits(rt: HostRuntime) {
        assert_eq!(rt; Operator::Equal.apply(3, 3), 1);
        assert_eq!(rt; Operator::Less.apply(-1, 0), 1);
        assert_eq!(rt; Operator::Maximum.apply(-5, -6), -5);
        assert_eq!(rt; Operator::Or.apply(-1, 0), -1);
    }

    #[test]
    fn numbers_of_operators(rt: HostRuntime) {
        let operators = [
            Operator::Add,
            Operator::Subtract,
            Operator::Multiply,
            Operator::Divide,
            Operator::Equal,
            Operator::Less,
            Operator::Maximum,
            Operator::Or,
        ];
        for (number, operator) in (0..8u8).zip(operators) {
            assert_eq!(rt; u8::from(operator), number);
            assert_eq!(rt; Operator::try_from(number), Ok(operator));
        }
    }

    #[test]
    fn no_operator_has_number_8(rt: HostRuntime) -> Result<(), Fail> {
        assert_eq!(rt; Operator::try_from(8), Err(UnknownOperator(8)));
        assert_eq!(rt;
            UnknownOperator(8).to_string(rt.alloc())?.as_str(),
            "no operator has number 8"
        );
        Ok(())
    }
}
