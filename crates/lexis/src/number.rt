// The value of a number token.
ghost use Rattle.std.specs.Prelude.{◌≡◌, ◌+◌, ◌*◌, ◌-◌};
ghost use Rattle.lexis.specs.Number.{capped, decimal};

use texts::sizes::MOST_NUMBER;

// The value of every number that is over its size.
pub const OVER_NUMBER: u64 = 1_000_000_001;

// What a digit says.
fn digit_value(digit: u8) -> u64
    ensures { result ≡ digit - 48 }
{
    u64::from(digit.saturating_sub(b'0'))
}

// A number with one digit more, which is over its size where the number was.
#[tactic(auto, unfolding(crate::specs::Number::capped))]
fn with_digit(number: u64, digit: u8) -> u64
    ensures { result ≡ capped (number * 10 + (digit - 48)) }
{
    if MOST_NUMBER < number {
        return OVER_NUMBER;
    }
    let longer = number * 10 + digit_value(digit);
    if MOST_NUMBER < longer {
        return OVER_NUMBER;
    }
    longer
}

// What the digits say, however many, or `OVER_NUMBER` where that is more than `MOST_NUMBER`.
pub fn value(digits: &[u8]) -> u64
    ensures { result ≡ capped (decimal digits.now) }
{
    let mut number = 0;
    for digit in digits {
        number = with_digit(number, *digit);
    }
    number
}
