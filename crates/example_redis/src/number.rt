//! Values that are numbers.
ghost use Rattle.std.specs.Prelude.{◌≡◌};
ghost use Rattle.example_redis.specs.Numbers.{number_of};

use itoa::Buffer;

/// The number that a text says, if it is written as numbers are.
pub fn number(text: &[u8]) -> Option<i64>
    ensures { result ≡ number_of text.now }
{
    let Ok(word) = str::from_utf8(text) else {
        return None;
    };
    let Ok(number) = word.parse::<i64>() else {
        return None;
    };
    let mut digits = Buffer::new();
    if digits.format(number).as_bytes() == text {
        Some(number)
    } else {
        None
    }
}
