// The value of a numeral.
ghost use Rattle.std.specs.Prelude.{◌≡◌};
ghost use Rattle.letters.specs.Numerals.{numeral_of};

use super::classes::is_digit;

// the largest value
const MOST: u64 = 2147483647;

// The value of digits that are a numeral: decimal, up to 2147483647, no leading zero except `0` itself. Not by `parse`, which takes a sign and
// leading zeros.
pub fn numeral_value(digits: &[u8]) -> Option<u32>
    ensures { result ≡ numeral_of digits.now }
{
    if digits.len() > 1 && digits[0] == b'0' {
        return None;
    }
    if digits.len() == 0 {
        return None;
    }
    let mut sum: u64 = 0;
    for d in digits {
        if !is_digit(*d) {
            return None;
        }
        sum = sum * 10 + (*d - b'0') as u64;
        if sum > MOST {
            return None;
        }
    }
    Some(sum as u32)
}
