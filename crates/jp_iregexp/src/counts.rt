//! Quantifiers (RFC 9485, section 3).

ghost use Rattle.std.specs.Prelude.{◌≡◌, option_map};
ghost use Rattle.jp_model.specs.Pattern.Reading.{then_read, up_to, bound_value, count_in, with_rest};
ghost use Rattle.jp_iregexp.specs.Tokens.{count_of_pair};

use crate::items::cut;

/// No bound is above this one.
const GREATEST: u32 = 999_999_999;

/// The value of a bound, or `None` where the scalars spell none.
fn bound(digits: &[char]) -> Option<u32>
    ensures { result ≡ bound_value digits.now }
{
    if digits.is_empty() {
        return None;
    }
    let mut value: u32 = 0;
    let mut left = digits;
    while let [digit, rest @ ..] = left {
        let digit = digit.to_digit(10)?;
        let next = u64::from(value) * 10 + u64::from(digit);
        if next > u64::from(GREATEST) {
            return None;
        }
        value = next as u32;
        left = rest;
    }
    Some(value)
}

/// The bounds that are between braces, the second not below the first: the least number, and how many may follow.
fn bounds(inside: &[char]) -> Option<(u32, Option<u32>)>
    ensures { option_map count_of_pair result ≡ count_in inside.now (up_to 0x2C inside.now) }
{
    match cut(',', inside) {
        None => {
            let exact = bound(inside)?;
            Some((exact, Some(0)))
        }
        Some((first, second)) => {
            let least = bound(first)?;
            if second.is_empty() {
                return Some((least, None));
            }
            let most = bound(second)?;
            if least <= most {
                Some((least, Some(most - least)))
            } else {
                None
            }
        }
    }
}

/// The least number after `{` and how many may follow it, and what is after `}`.
pub(crate) fn read_bounds(text: &[char]) -> Option<((u32, Option<u32>), &[char])>
    ensures { option_map (λ p. (count_of_pair p.0, p.1.now)) result ≡ then_read (up_to 0x7D text.now) (λ inside rest. with_rest rest (count_in inside (up_to 0x2C inside))) }
{
    let (inside, rest) = cut('}', text)?;
    let counts = bounds(inside)?;
    Some((counts, rest))
}
