//! Looking fields up.
ghost use Rattle.std.specs.Prelude.{◌≡◌, ◌<◌, ◌==◌, length, Some, slice_get, reverse};
ghost use Rattle.std.specs.Str.{str_eq_ignore_ascii_case};
ghost use Rattle.std.specs.List.{list_any};
ghost use Rattle.sws_answer.specs.Fields.{values_of, has_field, is_blank, without_front, trim_blanks, is_member, has_member};

use sws_request::RequestRef;

/// Whether two words are the same without regard to ASCII case.
pub fn is_same_word(word: &[u8], other: &[u8]) -> bool
    ensures { result ≡ str_eq_ignore_ascii_case word.now other.now }
{
    word.eq_ignore_ascii_case(other)
}

/// How many fields of this name there are.
pub fn count_of(request: &RequestRef<'_, '_>, name: &[u8]) -> usize
    ensures { result ≡ length (values_of name.now request.now.fields) }
{
    let mut count = 0;
    for i in 0..request.fields() {
        let (field_name, _) = request.field(i);
        if is_same_word(field_name, name) {
            count += 1;
        }
    }
    count
}

/// Whether there is a field of this name.
pub fn has(request: &RequestRef<'_, '_>, name: &[u8]) -> bool
    ensures { result ≡ has_field name.now request.now.fields }
{
    for i in 0..request.fields() {
        let (field_name, _) = request.field(i);
        if is_same_word(field_name, name) {
            return true;
        }
    }
    false
}

/// Whether the byte is a space or a horizontal tab.
fn is_space(byte: u8) -> bool
    ensures { result ≡ is_blank byte }
{
    byte == b' ' || byte == b'\t'
}

/// The text without the blanks at its front.
fn trim_start(text: &[u8]) -> &[u8]
    ensures { result.now ≡ without_front text.now }
{
    for (i, byte) in text.iter().enumerate() {
        if !is_space(*byte) {
            return &text[i..];
        }
    }
    &text[text.len()..]
}

/// The text without the blanks at its end.
fn trim_end(text: &[u8]) -> &[u8]
    ensures { result.now ≡ reverse (without_front (reverse text.now)) }
{
    let mut end = text.len();
    while end > 0 && is_space(text[end - 1]) {
        end -= 1;
    }
    &text[..end]
}

/// The text without the blanks at its ends.
pub fn trim(text: &[u8]) -> &[u8]
    ensures { result.now ≡ trim_blanks text.now }
{
    trim_end(trim_start(text))
}

/// Whether a part of a list is this word.
fn is_part(part: &[u8], word: &[u8]) -> bool
    ensures { result ≡ is_member word.now part.now }
{
    is_same_word(trim(part), word)
}

/// Whether the list has this word as a member.
pub fn lists(value: &[u8], word: &[u8]) -> bool
    ensures { result ≡ has_member word.now value.now }
{
    value
        .split(|byte| *byte == b',')
        .any(|part| is_part(part, word))
}
