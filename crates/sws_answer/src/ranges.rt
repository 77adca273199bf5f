//! The part of a file that a request asks for.
ghost use Rattle.std.specs.Prelude.{◌≡◌, ◌≤◌, true, length, option_and_then};
ghost use Rattle.std.specs.List.{position_or_len};
ghost use Rattle.std.specs.Str.{all_ascii_digits};
ghost use Rattle.std.specs.Str.Parse.{digits_value};
ghost use Rattle.sws_answer.specs.declared.ranges.RangeSpec.TheVariants.{Suffix};
ghost use Rattle.sws_answer.specs.Ranges.{number_in, range_between, spec_of, is_dash, spec_in, spec_in_value, is_text_of, is_date_named, is_range_kept, may_ask_range, asked_range, part_from, selection_of, selection_in, IsWithin};

use crate::conditions::sole_value;
use crate::fields::{has, is_same_word, trim};
use httpdate::HttpDate;
use sws_request::RequestRef;
use sws_site::Site;

/// The most digits of a number in a range. So it fits 64 bits.
const MAX_DIGITS: usize = 18;

/// A range as a request writes it. Bytes are counted from 0.
#[derive(Clone, Copy, Debug, PartialEq, Eq)]
pub enum RangeSpec {
    /// From the first of these bytes to the second, which is not before it.
    Between(u64, u64),
    /// From this byte to the last one.
    Onward(u64),
    /// So many bytes at the end.
    Suffix(u64),
}

/// What is sent of a file.
#[derive(Clone, Copy, Debug, PartialEq, Eq)]
pub enum Selection {
    /// The file: no part of it was asked for.
    Whole,
    /// The bytes from the first of these to the second, both of which the file has.
    Part(usize, usize),
    /// Nothing: the file has no such bytes as were asked for.
    Unsatisfied,
}

/// Whether each byte is a decimal digit.
fn are_digits(text: &[u8]) -> bool
    ensures { result ≡ all_ascii_digits text.now }
{
    for byte in text {
        if !byte.is_ascii_digit() {
            return false;
        }
    }
    true
}

/// The number that the digits write.
fn value_of(digits: &[u8]) -> u64
    requires digits { all_ascii_digits digits.now ≡ true }
    requires few { length digits.now ≤ MAX_DIGITS }
    ensures { result ≡ digits_value 10 digits.now }
{
    let mut value = 0u64;
    for digit in digits {
        value = value * 10 + u64::from(*digit - b'0');
    }
    value
}

/// The number of 1 to 18 decimal digits.
fn read_number(digits: &[u8]) -> Option<u64>
    ensures { result ≡ number_in digits.now }
{
    if digits.is_empty() || digits.len() > MAX_DIGITS || !are_digits(digits) {
        return None;
    }
    Some(value_of(digits))
}

/// The range from one byte to another, which is not before it.
fn read_between(before: &[u8], behind: &[u8]) -> Option<RangeSpec>
    ensures { result ≡ option_and_then (λ first. option_and_then (λ last.
        range_between first last) (number_in behind.now)) (number_in before.now) }
{
    let first = read_number(before)?;
    let last = read_number(behind)?;
    if first > last {
        return None;
    }
    Some(RangeSpec::Between(first, last))
}

/// The range that is said by what stands before and behind its dash.
fn read_parts(before: &[u8], behind: &[u8]) -> Option<RangeSpec>
    ensures { result ≡ spec_of before.now behind.now }
{
    if before.is_empty() {
        return read_number(behind).map(RangeSpec::Suffix);
    }
    if behind.is_empty() {
        return read_number(before).map(RangeSpec::Onward);
    }
    read_between(before, behind)
}

/// Where the first dash stands, or the length where there is none.
fn dash_place(text: &[u8]) -> usize
    ensures place { result ≡ position_or_len is_dash text.now }
    ensures within { result ≤ length text.now }
{
    for (i, byte) in text.iter().enumerate() {
        if *byte == b'-' {
            return i;
        }
    }
    text.len()
}

/// The one range that the text is.
fn read_spec(text: &[u8]) -> Option<RangeSpec>
    ensures { result ≡ spec_in text.now }
{
    let dash = dash_place(text);
    if dash == text.len() {
        return None;
    }
    read_parts(&text[..dash], &text[dash + 1..])
}

/// The one range of bytes that the value of a field says.
fn read_value(value: &[u8]) -> Option<RangeSpec>
    ensures { result ≡ spec_in_value value.now }
{
    let text = trim(value);
    if text.len() < 6 || !is_same_word(&text[..6], b"bytes=") {
        return None;
    }
    read_spec(&text[6..])
}

/// Whether the value is the date, as responses have it.
fn is_text_of(date: &Option<HttpDate>, value: &[u8]) -> bool
    ensures { result ≡ is_text_of date.now value.now }
{
    match date {
        Some(date) => value == date.to_bytes().as_slice(),
        None => false,
    }
}

/// Whether the one condition on a range names the date of the site, which reads such conditions.
fn is_date_named(site: &Site, request: &RequestRef<'_, '_>) -> bool
    ensures { result ≡ is_date_named site.now request.now.fields }
{
    if !site.options().reads_if_range {
        return false;
    }
    match sole_value(request, b"if-range") {
        Some(value) => is_text_of(site.http_date(), value),
        None => false,
    }
}

/// Whether no condition on a range is given, or the one that is given holds.
fn is_range_kept(site: &Site, request: &RequestRef<'_, '_>) -> bool
    ensures { result ≡ is_range_kept site.now request.now.fields }
{
    !has(request, b"if-range") || is_date_named(site, request)
}

/// Whether the request may ask the site for a range.
fn may_ask_range(site: &Site, request: &RequestRef<'_, '_>) -> bool
    ensures { result ≡ may_ask_range site.now request.now }
{
    request.method() == b"GET".as_slice() && is_range_kept(site, request)
}

/// The range that the request asks the site for, if it asks for one.
fn read_request(site: &Site, request: &RequestRef<'_, '_>) -> Option<RangeSpec>
    ensures { result ≡ asked_range site.now request.now }
{
    if !may_ask_range(site, request) {
        return None;
    }
    match sole_value(request, b"range") {
        Some(value) => read_value(value),
        None => None,
    }
}

/// The part from one byte to another, or to the last byte where the file is shorter.
fn select_from(len: usize, first: u64, last: u64) -> Selection
    ensures { result ≡ part_from len first last }
{
    if first >= len as u64 {
        return Selection::Unsatisfied;
    }
    Selection::Part(first as usize, last.min(len as u64 - 1) as usize)
}

/// The last bytes, as many as these, or all where the file is shorter.
fn select_last(len: usize, count: u64) -> Selection
    ensures { result ≡ selection_of len (Suffix count) }
{
    if count == 0 {
        return Selection::Unsatisfied;
    }
    if len == 0 {
        return Selection::Whole;
    }
    Selection::Part((len as u64).saturating_sub(count) as usize, len - 1)
}

/// What a range selects of a file of so many bytes.
fn select(len: usize, spec: RangeSpec) -> Selection
    ensures { result ≡ selection_of len spec }
{
    match spec {
        RangeSpec::Between(first, last) => select_from(len, first, last),
        RangeSpec::Onward(first) => select_from(len, first, (len as u64).saturating_sub(1)),
        RangeSpec::Suffix(count) => select_last(len, count),
    }
}

/// What the request selects of a file of the site of so many bytes.
pub fn select_part(site: &Site, request: &RequestRef<'_, '_>, len: usize) -> Selection
    ensures selected { result ≡ selection_in site.now request.now len }
    ensures within { IsWithin len result }
{
    match read_request(site, request) {
        Some(spec) => select(len, spec),
        None => Selection::Whole,
    }
}
