//! Numbers of lines.
ghost use Rattle.sws_script.specs.Lines.{ReadsNumber};

use sws_text::read_decimal;

/// The number that a word writes in decimal digits without leading zeros, within these bounds.
pub fn number(word: &[u8], low: u64, high: u64) -> Option<u64>
    ensures { ReadsNumber low high word.now result }
{
    let value = read_decimal(word, high)?;
    if low <= value { Some(value) } else { None }
}
