//! Numbers of a text.
ghost use Rattle.std.specs.Prelude.{◌≡◌, ◌≤◌, ◌<◌, ◌^◌, ◌++◌, ℕ, MatchOption, OnOk};
ghost use Rattle.std.specs.Fmt.{decimal};
ghost use Rattle.sws_text.specs.Numbers.{space_number};

use itoa::Buffer;
use std::alloc::AllocError;

/// The most digits of a number below 2^64.
const MAX_DIGITS: usize = 20;

/// Adds a space, and the decimal digits of a number.
pub fn push_spaced(text: &mut Vec<u8>, number: u64) -> Result<(), AllocError>
    ensures { OnOk result (text.new.items ≡ text.old.items ++ space_number number) }
{
    text.push(b' ')?;
    text.extend_from_slice(Buffer::new().format(number).as_bytes())?;
    Ok(())
}

/// The number that a word writes in decimal digits without leading zeros, at most `high`.
///
/// It is `None` where the word writes no such number: where it is empty or has a byte
/// that is no digit, where it begins with `0` and isn't `0` alone, and where its
/// number is greater than `high`.
pub fn read_decimal(word: &[u8], high: u64) -> Option<u64>
    ensures { MatchOption result ((n : ℕ) → word.now ≡ decimal n → n ≤ high → ⊥)
        (λ n. (word.now ≡ decimal n) × (n ≤ high)) }
{
    let value = digits_value(word)?;
    if value <= u128::from(high) {
        Some(value as u64)
    } else {
        None
    }
}

/// The value of one to twenty decimal digits without leading zeros.
fn digits_value(word: &[u8]) -> Option<u128>
    ensures { MatchOption result ((n : ℕ) → word.now ≡ decimal n → n < 2 ^ 64 → ⊥)
        (λ n. (n < 2 ^ 64 → word.now ≡ decimal n)
        × ((m : ℕ) → word.now ≡ decimal m → m < 2 ^ 64 → m ≡ n)) }
{
    if word.is_empty() || word.len() > MAX_DIGITS {
        return None;
    }
    if word.len() > 1 && word[0] == b'0' {
        return None;
    }
    let mut value = 0;
    for digit in word {
        if !digit.is_ascii_digit() {
            return None;
        }
        value = value * 10 + u128::from(*digit - b'0');
    }
    Some(value)
}
