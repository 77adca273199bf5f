//! Whether what stands between a client and this server may read a request otherwise than it does.
ghost use Rattle.std.specs.Prelude.{◌≡◌};
ghost use Rattle.std.specs.List.{list_any, list_all};
ghost use Rattle.sws_answer.specs.Framing.{is_ambiguous, is_bad_field, is_bad_host_field, is_bad_length_field, is_digit, is_host_byte, is_length_doubtful, is_number};

use crate::fields::{count_of, has, is_same_word};
use sws_request::RequestRef;

/// Whether a host, or the port behind it, may have the byte (RFC 3986, section 3.2.2).
fn is_host_byte(byte: u8) -> bool
    ensures { result ≡ is_host_byte byte }
{
    byte.is_ascii_alphanumeric() || b"-._~!$&'()*+,;=%:[]".contains(&byte)
}

/// Whether each byte is one of a host.
fn are_host_bytes(value: &[u8]) -> bool
    ensures { result ≡ list_all is_host_byte value.now }
{
    for byte in value {
        if !is_host_byte(*byte) {
            return false;
        }
    }
    true
}

/// Whether the field is a Host with a byte that no host has.
fn misnames_host(name: &[u8], value: &[u8]) -> bool
    ensures { result ≡ is_bad_host_field (name.now, value.now) }
{
    is_same_word(name, b"host") && !are_host_bytes(value)
}

/// Whether each byte is a digit.
fn are_digits(value: &[u8]) -> bool
    ensures { result ≡ list_all is_digit value.now }
{
    for byte in value {
        if !(*byte >= b'0' && *byte <= b'9') {
            return false;
        }
    }
    true
}

/// Whether the value is one or more digits.
fn is_length(value: &[u8]) -> bool
    ensures { result ≡ is_number value.now }
{
    !value.is_empty() && are_digits(value)
}

/// Whether the field is a Content-Length that is no number.
fn misstates_length(name: &[u8], value: &[u8]) -> bool
    ensures { result ≡ is_bad_length_field (name.now, value.now) }
{
    is_same_word(name, b"content-length") && !is_length(value)
}

/// Whether no client may send the field so.
fn is_bad(name: &[u8], value: &[u8]) -> bool
    ensures { result ≡ is_bad_field (name.now, value.now) }
{
    misnames_host(name, value) || misstates_length(name, value)
}

/// Whether the request has a field that no client may send so.
fn has_bad_field(request: &RequestRef<'_, '_>) -> bool
    ensures { result ≡ list_any is_bad_field request.now.fields }
{
    for i in 0..request.fields() {
        let (name, value) = request.field(i);
        if is_bad(name, value) {
            return true;
        }
    }
    false
}

/// Whether the length of the content is given twice, or beside a coding that says where it ends.
fn has_doubtful_length(request: &RequestRef<'_, '_>) -> bool
    ensures { result ≡ is_length_doubtful request.now.fields }
{
    match count_of(request, b"content-length") {
        0 => false,
        1 => has(request, b"transfer-encoding"),
        _ => true,
    }
}

/// Whether the request may be read in two ways.
pub fn is_read_in_two_ways(request: &RequestRef<'_, '_>) -> bool
    ensures { result ≡ is_ambiguous request.now.fields }
{
    has_bad_field(request) || has_doubtful_length(request)
}
