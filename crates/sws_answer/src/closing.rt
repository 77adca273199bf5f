//! Whether a request lets its connection be used again.
ghost use Rattle.std.specs.Prelude.{◌≡◌, ◌==◌};
ghost use Rattle.std.specs.List.{list_all};
ghost use Rattle.sws_answer.specs.Closing.{is_zero, is_closing, is_option_field, is_length_field, is_last_by_version, has_option, has_content_length};

use crate::fields::{has, is_same_word, lists};
use sws_request::RequestRef;
use sws_site::SiteOptions;

/// Whether each byte is a digit 0.
fn has_only_zeros(value: &[u8]) -> bool
    ensures { result ≡ list_all (λ byte. byte == 48) value.now }
{
    value.iter().all(|byte| *byte == b'0')
}

/// Whether the value is one or more digits 0.
fn is_zero_length(value: &[u8]) -> bool
    ensures { result ≡ is_zero value.now }
{
    !value.is_empty() && has_only_zeros(value)
}

/// Whether the field is a Connection with this option.
fn has_in_field(name: &[u8], value: &[u8], option: &[u8]) -> bool
    ensures { result ≡ is_option_field option.now (name.now, value.now) }
{
    is_same_word(name, b"connection") && lists(value, option)
}

/// Whether the field gives a length other than 0.
fn says_length(name: &[u8], value: &[u8]) -> bool
    ensures { result ≡ is_length_field (name.now, value.now) }
{
    is_same_word(name, b"content-length") && !is_zero_length(value)
}

/// Whether some Connection field has this option.
fn has_option(request: &RequestRef<'_, '_>, option: &[u8]) -> bool
    ensures { result ≡ has_option option.now request.now.fields }
{
    for i in 0..request.fields() {
        let (name, value) = request.field(i);
        if has_in_field(name, value, option) {
            return true;
        }
    }
    false
}

/// Whether the request is the last one of its connection by its version.
fn is_last_by_version(options: &SiteOptions, request: &RequestRef<'_, '_>) -> bool
    ensures { result ≡ is_last_by_version options.now request.now }
{
    request.minor() == 0 && !(options.keeps_alive && has_option(request, b"keep-alive"))
}

/// Whether a length other than 0 is given.
fn has_length(request: &RequestRef<'_, '_>) -> bool
    ensures { result ≡ has_content_length request.now.fields }
{
    for i in 0..request.fields() {
        let (name, value) = request.field(i);
        if says_length(name, value) {
            return true;
        }
    }
    false
}

/// Whether the connection ends after the response of a site with these options, whatever that is.
pub fn closes_connection(options: &SiteOptions, request: &RequestRef<'_, '_>) -> bool
    ensures { result ≡ is_closing options.now request.now }
{
    is_last_by_version(options, request)
        || has_option(request, b"close")
        || has(request, b"transfer-encoding")
        || has_length(request)
}
