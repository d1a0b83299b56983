//! Numbers as digits spell them.

ghost use Rattle.std.specs.Prelude.{◌≡◌, ◌^◌, min};
ghost use Rattle.meaning.specs.Characters.{number_of};

/// The number that digits spell (ANSI X3.9-1978, 4.3), or 4294967296 where it is more.
pub fn number(digits: &[u8]) -> u64
    ensures { result ≡ min (number_of digits.now) (2 ^ 32) }
{
    let mut value: u64 = 0;
    for digit in digits {
        value = (10 * value + u64::from(digit.saturating_sub(48))).min(1 << 32);
    }
    value
}
