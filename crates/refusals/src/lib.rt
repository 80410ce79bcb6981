// Refusals: why a call turned its input away, and where.
#![tactic(auto)]

ghost use Rattle.std.specs.Prelude.{◌≡◌, Some};
ghost use Rattle.refusals.specs.Reasons.{reason_number, reason_layer, shown_refusal, NumbersDiffer};

use std::fmt;

// The part of the product that a refusal comes from.
#[derive(Clone, Copy, PartialEq, Eq, Debug)]
pub enum Layer {
    Letters,
    Grammar,
    Names,
    Levels,
    Forms,
    Run,
    State,
}

// Why something was refused, with the number by which it is known.
#[derive(Clone, Copy, Debug, PartialEq, Eq)]
pub enum Reason {
    // a byte that begins no token
    StrayByte = 1,
    // a numeral or a name against its rule
    Malformed = 2,
    // a token that is not allowed here, or the text ended
    Unexpected = 3,
    // a name that is not declared
    Undeclared = 4,
    // a name declared twice, or a 257th declaration
    BadDeclaration = 5,
    // nesting or depth above 20
    TooDeep = 6,
    // a list or a buffer too short
    NoRoom = 7,
    // a text too long
    TextTooLong = 8,
    // a number that is no code of the family
    NotACode = 9,
    // `stop`, or a name that begins with `_`, in a script to rewrite
    Reserved = 10,
    // more than 64 variables, or nesting or depth above 16, in a script to rewrite
    TooLarge = 11,
    // a bank with fewer registers than variables
    BankTooSmall = 12,
    // lists that are no program's form
    NotAForm = 13,
    // no such variable, or its name begins with `_`
    NoSuchVariable = 14,
    // finishing while there is more to do
    MoreToDo = 21,
    // a line at or beyond the count
    NoSuchLine = 22,
    // a bank with too few registers, or a sheet shorter than the lines kept
    TooShort = 23,
}

impl Reason {
    // The number by which the reason is known. A method beside `layer`: a conversion would not say which of the two
    // it gives.
    pub fn number(self) -> u8
        ensures { result ≡ reason_number self }
    {
        self as u8
    }

    // The layer that the reason belongs to.
    pub fn layer(self) -> Layer
        ensures { result ≡ reason_layer self }
    {
        match self {
            Reason::StrayByte => Layer::Letters,
            Reason::Malformed => Layer::Letters,
            Reason::TextTooLong => Layer::Letters,
            Reason::Unexpected => Layer::Grammar,
            Reason::TooDeep => Layer::Grammar,
            Reason::NoRoom => Layer::Grammar,
            Reason::Undeclared => Layer::Names,
            Reason::BadDeclaration => Layer::Names,
            Reason::NotACode => Layer::Levels,
            Reason::Reserved => Layer::Levels,
            Reason::TooLarge => Layer::Levels,
            Reason::NotAForm => Layer::Forms,
            Reason::BankTooSmall => Layer::Run,
            Reason::NoSuchVariable => Layer::Run,
            Reason::MoreToDo => Layer::State,
            Reason::NoSuchLine => Layer::State,
            Reason::TooShort => Layer::State,
        }
    }
}

// A reason, and the place that it points at: a byte offset, a position, or 0 where a reason has no place.
#[derive(Clone, Copy, PartialEq, Eq, Debug)]
pub struct Refusal {
    pub reason: Reason,
    pub place: usize,
}

impl Refusal {
    pub fn new(reason: Reason, place: usize) -> Refusal
        ensures { (result.reason ≡ reason) × (result.place ≡ place) }
    {
        Refusal { reason, place }
    }

    // The number of the reason.
    pub fn number(self) -> u8
        ensures { result ≡ reason_number self.reason }
    {
        self.reason.number()
    }

    // The layer of the reason.
    pub fn layer(self) -> Layer
        ensures { result ≡ reason_layer self.reason }
    {
        self.reason.layer()
    }
}

// `refused N at P`
impl fmt::Display for Refusal {
    ghost output = { λ x. Some (shown_refusal x) };

    fn fmt<W: fmt::Write>(&self, f: &mut fmt::Formatter<W>) -> fmt::Result {
        let number = self.reason.number();
        let place = self.place;
        write!(f, "refused {number} at {place}")
    }
}

// One reason a number: a number alone tells why.
pub fn refusal_numbers_differ()
    ensures { NumbersDiffer }
{}

#[cfg(test)]
mod tests {
    use super::*;
    use std::test::Fail;

    #[test]
    fn a_refusal_is_shown(rt: HostRuntime) -> Result<(), Fail> {
        let refusal = Refusal::new(Reason::Malformed, 8);
        assert_eq!(rt; refusal.layer(), Layer::Letters);
        assert_eq!(rt; refusal.to_string(rt.alloc())?.as_str(), "refused 2 at 8");
        Ok(())
    }
}
