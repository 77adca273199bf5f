//! A file as a site stores it.
ghost use Rattle.std.specs.Prelude.{◌≡◌, IfOk, MatchOption};
ghost use Rattle.sws_site.specs.Stored.{HasHeads, HasNotModified, file_of};

use crate::built_responses::BuiltResponse;
use crate::content_types::media_type_of;
use crate::folders::redirect;
use crate::options::SiteOptions;
use crate::own_ages::age_of;
use crate::statuses::Status;
use httpdate::HttpDate;
use std::alloc::{AllocError, Global};

/// The name of a file, and the response that sends the file.
#[derive(Drop)]
pub(crate) struct StoredFile {
    pub(crate) name: Vec<u8>,
    pub(crate) response: BuiltResponse,
    /// For how many seconds the file may be kept, if that is said.
    pub(crate) max_age: Option<u32>,
    /// The response that the file was not modified, where its name has an age of its own; else that
    /// of the site stands for it.
    pub(crate) not_modified: Option<BuiltResponse>,
    /// The response that redirects to the folder whose index the file is, where the site does so.
    pub(crate) redirect: Option<BuiltResponse>,
}

/// The response that a file of this name was not modified, where the name has an age of its own.
fn own_not_modified(
    alloc: Global,
    options: &SiteOptions,
    date: &Option<HttpDate>,
    name: &[u8],
) -> Result<Option<BuiltResponse>, AllocError>
    ensures { IfOk result (HasNotModified options.now date.now name.now) }
{
    if options.added.ages.longest(name).is_none() {
        return Ok(None);
    }
    let response = BuiltResponse::new(
        alloc,
        options,
        Status::NotModified,
        age_of(options, name),
        date,
        b"",
        Vec::new(alloc),
    )?;
    Ok(Some(response))
}

/// The response of the file's own, or else the one of all others.
pub(crate) fn own_or<'r>(
    own: &'r Option<BuiltResponse>,
    other: &'r BuiltResponse,
) -> &'r BuiltResponse
    ensures { MatchOption own.now (result.now ≡ other.now) (λ response. result.now ≡ response) }
{
    match own {
        Some(response) => response,
        None => other,
    }
}

impl StoredFile {
    /// The file of this name and these contents, of a site with these options and of this date.
    pub(crate) fn new(
        alloc: Global,
        options: &SiteOptions,
        date: &Option<HttpDate>,
        name: &[u8],
        contents: Vec<u8>,
    ) -> Result<StoredFile, AllocError>
        ensures heads { IfOk result (HasHeads options.now date.now) }
        ensures file { IfOk result (λ stored. file_of stored ≡ (name.now, contents.items)) }
    {
        let max_age = age_of(options, name);
        let media_type = media_type_of(options, name);
        let response = BuiltResponse::new(
            alloc,
            options,
            Status::Success,
            max_age,
            date,
            media_type,
            contents,
        )?;
        let not_modified = own_not_modified(alloc, options, date, name)?;
        let redirect = redirect(alloc, options, name)?;
        let name = Vec::from_slice(alloc, name)?;
        Ok(StoredFile {
            name,
            response,
            max_age,
            not_modified,
            redirect,
        })
    }
}
