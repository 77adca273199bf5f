//! The media types that the owner of a site adds to those that it knows.
ghost use Rattle.std.specs.Prelude.{◌≡◌, ◌≤◌, ◌++◌, ◌∷◌, [], true, false, None, IfNone, OnOk, OnErr, IfOk, IfErr, length, map, ℕ, List, Bool, if◌then◌else◌};
ghost use Rattle.std.specs.List.{list_all};
ghost use Rattle.std.specs.Char.{is_ascii_alphanumeric};
ghost use Rattle.sws_site.specs.ContentTypes.{type_or};
ghost use Rattle.sws_site.specs.OwnTypes.{place_of, is_pair, without_space, is_media_type, is_extension, are_short_types, type_limit, type_fault, rows_of, IsTypeFault};

use crate::content_types::is_same_extension;
use crate::heads::MAX_MEDIA_TYPE;
use crate::tokens::is_token;
use crate::type_faults::TypeFault;
use std::alloc::{AllocError, Global};
use std::marker::Model;

/// Where the first such byte stands, or how many bytes there are.
fn place_of(sought: u8, bytes: &[u8]) -> usize
    ensures place { result ≡ place_of sought bytes.now }
    ensures within { result ≤ length bytes.now }
{
    for (i, byte) in bytes.iter().enumerate() {
        if *byte == sought {
            return i;
        }
    }
    bytes.len()
}

/// Whether they are two tokens with this byte between them.
fn is_pair(between: u8, bytes: &[u8]) -> bool
    ensures { result ≡ is_pair between bytes.now }
{
    let place = place_of(between, bytes);
    if place == bytes.len() {
        return false;
    }
    is_token(&bytes[..place]) && is_token(&bytes[place + 1..])
}

/// The bytes without a space at their beginning.
fn without_space(bytes: &[u8]) -> &[u8]
    ensures { result.now ≡ without_space bytes.now }
{
    if bytes.starts_with(b" ") {
        return &bytes[1..];
    }
    bytes
}

/// Whether it is a media type, with one parameter at most.
fn is_media_type(bytes: &[u8]) -> bool
    ensures { result ≡ is_media_type bytes.now }
{
    let end = place_of(b';', bytes);
    if !is_pair(b'/', &bytes[..end]) {
        return false;
    }
    end == bytes.len() || is_pair(b'=', without_space(&bytes[end + 1..]))
}

/// Whether each byte is a letter or a digit.
fn are_letters_or_digits(bytes: &[u8]) -> bool
    ensures { result ≡ list_all is_ascii_alphanumeric bytes.now }
{
    for byte in bytes {
        if !byte.is_ascii_alphanumeric() {
            return false;
        }
    }
    true
}

/// Why a type can't be added, if it can't.
fn type_fault(extension: &[u8], media_type: &[u8]) -> Option<TypeFault>
    ensures fault { result ≡ type_fault extension.now media_type.now }
    ensures short { IfNone result (length media_type.now ≤ type_limit) }
{
    if extension.is_empty() || !are_letters_or_digits(extension) {
        return Some(TypeFault::BadExtension);
    }
    if media_type.len() > MAX_MEDIA_TYPE || !is_media_type(media_type) {
        return Some(TypeFault::BadType);
    }
    None
}

/// Media types of at most 80 bytes, each behind its extension.
#[derive(Drop)]
pub struct OwnTypes {
    rows: Vec<(Vec<u8>, Vec<u8>)>,
}

impl Model for OwnTypes {
    ghost use Rattle.std.specs.Prelude.{ℕ, List};

    ghost Value = { List (List ℕ × List ℕ) };

    ghost use Rattle.std.specs.Prelude.{◌≡◌, true};
    ghost use Rattle.sws_site.specs.OwnTypes.{are_short_types, rows_of};

    ghost view = { λ types. rows_of types.rows.items };

    ghost invariant = { λ types. are_short_types (rows_of types.rows.items) ≡ true };
}

impl OwnTypes {
    /// No type.
    pub fn none(alloc: Global) -> OwnTypes
        ensures { result ≡ [] }
    {
        OwnTypes {
            rows: Vec::new(alloc),
        }
    }

    /// Read for contracts: no type is long, which its type keeps.
    fn are_short(&self)
        ensures { are_short_types self.now ≡ true }
    {
        let _ = &self.rows;
    }

    /// Adds the type of an extension behind the others. Of two for one extension the first holds.
    ///
    /// # Errors
    ///
    /// The first cause that holds, in the order `BadExtension`, `BadType`; or `Memory`, where an
    /// allocation was refused. Then the types are as before.
    pub fn add(
        &mut self,
        alloc: Global,
        extension: &[u8],
        media_type: &[u8],
    ) -> Result<(), TypeFault>
        ensures added { OnOk result (self.new ≡ self.old ++ (extension.now, media_type.now) ∷ []) }
        ensures short { are_short_types self.new ≡ true }
        ensures sound { OnOk result (type_fault extension.now media_type.now ≡ None) }
        ensures kept { OnErr result (self.new ≡ self.old) }
        ensures cause { IfErr result (IsTypeFault (type_fault extension.now media_type.now)) }
    {
        self.are_short();
        if let Some(fault) = type_fault(extension, media_type) {
            return Err(fault);
        }
        let extension = Vec::from_slice(alloc, extension)?;
        let media_type = Vec::from_slice(alloc, media_type)?;
        match self.rows.push((extension, media_type)) {
            Ok(()) => Ok(()),
            Err(_) => Err(TypeFault::Memory),
        }
    }

    /// The first type of an extension, or else the other type.
    pub(crate) fn type_or<'t>(&'t self, otherwise: &'t [u8], extension: &[u8]) -> &'t [u8]
        ensures { result.now ≡ type_or self.now otherwise.now extension.now }
    {
        own_type_or(&self.rows, otherwise, extension)
    }

    /// The same types once more.
    pub fn copy(&self, alloc: Global) -> Result<OwnTypes, AllocError>
        ensures { IfOk result (λ copied. copied ≡ self.now) }
    {
        Ok(OwnTypes {
            rows: copy_rows(alloc, &self.rows)?,
        })
    }
}

/// The same rows once more.
fn copy_rows(
    alloc: Global,
    rows: &[(Vec<u8>, Vec<u8>)],
) -> Result<Vec<(Vec<u8>, Vec<u8>)>, AllocError>
    ensures { IfOk result (λ copied. rows_of copied.items ≡ rows_of rows.now) }
{
    let mut copied = Vec::new(alloc);
    for (extension, media_type) in rows {
        let extension = Vec::from_slice(alloc, extension)?;
        let media_type = Vec::from_slice(alloc, media_type)?;
        copied.push((extension, media_type))?;
    }
    Ok(copied)
}

/// The type in the first row of this extension, or else the other type.
fn own_type_or<'t>(
    rows: &'t [(Vec<u8>, Vec<u8>)],
    otherwise: &'t [u8],
    extension: &[u8],
) -> &'t [u8]
    ensures { result.now ≡ type_or (rows_of rows.now) otherwise.now extension.now }
{
    for (known, media_type) in rows {
        if is_same_extension(extension, known) {
            return media_type;
        }
    }
    otherwise
}
