// Numbers in a line.
ghost use Rattle.std.specs.Prelude.{◌≡◌, ℕ, ◌≤◌, IfSome};
ghost use Rattle.front.specs.Numbers.{number_up_to};

use std::str;

/// No number of 32 bits has more digits.
const MOST_DIGITS: usize = 10;

/// The number from 1 to `most` whose decimal text this is.
pub fn number_up_to(most: u32, text: &[u8]) -> Option<u32>
    ensures value { result ≡ number_up_to most text.now }
    ensures ranged { IfSome result (λ n. (1 ≤ n) × (n ≤ most)) }
{
    // A longer text is not read at all.
    if text.len() > MOST_DIGITS {
        return None;
    }
    // Neither a sign nor a zero stands first.
    let first = *text.first()?;
    if !(b'1'..=b'9').contains(&first) {
        return None;
    }
    let digits = str::from_utf8(text).ok()?;
    let number = digits.parse::<u32>().ok()?;
    (number <= most).then_some(number)
}
