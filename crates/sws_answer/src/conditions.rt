//! Whether a file was not modified since the date that a request names.
ghost use Rattle.std.specs.Prelude.{◌≡◌, ◌↔◌, IsTrue, option_copied};
ghost use Rattle.sws_answer.specs.Fields.{values_of};
ghost use Rattle.sws_answer.specs.Conditions.{NamesDateFrom, is_not_before, is_unmodified, one_of};

use crate::fields::{has, is_same_word};
use httpdate::HttpDate;
use sws_request::RequestRef;

/// Whether the value is a date that is not before the given one.
fn is_not_earlier(value: &[u8], date: &HttpDate) -> bool
    ensures test { result ≡ is_not_before date.now value.now }
    ensures date { IsTrue result ↔ NamesDateFrom date.now value.now }
{
    match HttpDate::parse_ascii(value) {
        Ok(named) => date.unix_secs() <= named.unix_secs(),
        Err(_) => false,
    }
}

/// The value of the field of this name, if there is exactly one.
pub fn sole_value<'b>(request: &RequestRef<'b, '_>, name: &[u8]) -> Option<&'b [u8]>
    ensures { option_copied result ≡ one_of (values_of name.now request.now.fields) }
{
    let mut found = None;
    for i in 0..request.fields() {
        let (field_name, value) = request.field(i);
        if is_same_word(field_name, name) {
            if found.is_some() {
                return None;
            }
            found = Some(value);
        }
    }
    found
}

/// Whether a site of this date was not modified since the request's date.
pub fn is_not_modified(date: &Option<HttpDate>, request: &RequestRef<'_, '_>) -> bool
    ensures { result ≡ is_unmodified date.now request.now.fields }
{
    let Some(date) = date else {
        return false;
    };
    if has(request, b"if-none-match") {
        return false;
    }
    match sole_value(request, b"if-modified-since") {
        Some(value) => is_not_earlier(value, date),
        None => false,
    }
}
