//! The words and the values of header fields.
ghost use Rattle.std.specs.Prelude.{◌≡◌};
ghost use Rattle.std.specs.List.{list_all};
ghost use Rattle.sws_site.specs.HeaderFields.{is_token_byte, is_token, is_visible, is_value_byte, is_field_value};

/// Whether it is a byte of a token (RFC 9110, section 5.6.2).
fn is_token_byte(byte: u8) -> bool
    ensures { result ≡ is_token_byte byte }
{
    byte.is_ascii_alphanumeric() || b"!#$%&'*+-.^_`|~".contains(&byte)
}

/// Whether each byte is one of a token.
fn are_token_bytes(word: &[u8]) -> bool
    ensures { result ≡ list_all is_token_byte word.now }
{
    for byte in word {
        if !is_token_byte(*byte) {
            return false;
        }
    }
    true
}

/// Whether the word is a token.
pub(crate) fn is_token(word: &[u8]) -> bool
    ensures { result ≡ is_token word.now }
{
    !word.is_empty() && are_token_bytes(word)
}

/// Whether the byte is seen.
fn is_visible(byte: u8) -> bool
    ensures { result ≡ is_visible byte }
{
    byte >= 33 && byte <= 126
}

/// Whether it is a byte of a value.
fn is_value_byte(byte: u8) -> bool
    ensures { result ≡ is_value_byte byte }
{
    is_visible(byte) || byte == b' ' || byte == b'\t'
}

/// Whether each byte is one of a value.
fn are_value_bytes(value: &[u8]) -> bool
    ensures { result ≡ list_all is_value_byte value.now }
{
    for byte in value {
        if !is_value_byte(*byte) {
            return false;
        }
    }
    true
}

/// Whether these are the bytes of a value (RFC 9110, section 5.5).
pub(crate) fn is_field_value(value: &[u8]) -> bool
    ensures { result ≡ is_field_value value.now }
{
    if value.is_empty() {
        return false;
    }
    are_value_bytes(value) && is_visible(value[0]) && is_visible(value[value.len() - 1])
}
