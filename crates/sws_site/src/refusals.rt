//! The responses that refuse: those that are the same whatever a site is asked for.
ghost use Rattle.std.specs.Prelude.{◌≡◌, IfOk, IsTrue, None, Option, option_map};
ghost use Rattle.sws_site.specs.declared.options.SiteOptions.{SiteOptions as OptionsValue};
ghost use Rattle.sws_site.specs.BuiltResponses.{IsBuilt};
ghost use Rattle.sws_site.specs.Files.{File};
ghost use Rattle.sws_site.specs.Fixed.{is_fixed, fixed_body, plain_text, page_for};
ghost use Rattle.sws_site.specs.ContentTypes.{media_type_of};
ghost use Rattle.sws_site.specs.Refusals.{IsRefusal, AreRefusals};
ghost use Rattle.sws_site.specs.Stored.{file_of};

use crate::built_responses::BuiltResponse;
use crate::content_types::media_type_of;
use crate::options::SiteOptions;
use crate::statuses::Status;
use crate::stored::StoredFile;
use std::alloc::{AllocError, Global};

/// The responses that refuse, by their status.
#[derive(Drop)]
pub(crate) struct Refusals {
    bad_request: BuiltResponse,
    not_found: BuiltResponse,
    method_not_allowed: BuiltResponse,
    header_fields_too_large: BuiltResponse,
    not_implemented: BuiltResponse,
}

/// The page that tells this status, where this one tells that no file has a name.
fn page_for<'f>(page: Option<&'f StoredFile>, status: Status) -> Option<&'f StoredFile>
    ensures { option_map (λ file. file_of file.now) result
        ≡ page_for (option_map (λ file. file_of file.now) page.entry) status }
{
    match status {
        Status::NotFound => page,
        Status::Success
        | Status::PartialContent
        | Status::MovedPermanently
        | Status::NotModified
        | Status::BadRequest
        | Status::MethodNotAllowed
        | Status::RangeNotSatisfiable
        | Status::HeaderFieldsTooLarge
        | Status::NotImplemented => None,
    }
}

/// The response of this status whose body is a line that tells it.
fn line(alloc: Global, options: &SiteOptions, status: Status) -> Result<BuiltResponse, AllocError>
    ensures body { IfOk result (λ response. response.body.items ≡ fixed_body status) }
    ensures heads { IfOk result (IsBuilt options.now status None None plain_text) }
{
    let mut body = Vec::new(alloc);
    body.extend_from_slice(status.row().text)?;
    body.extend_from_slice(b"\n")?;
    body.shrink_to_fit();
    let response = BuiltResponse::new(alloc, options, status, None, &None, b"text/plain", body)?;
    Ok(response)
}

/// The response of this status whose body is a copy of the page.
fn copy(
    alloc: Global,
    options: &SiteOptions,
    page: &StoredFile,
    status: Status,
) -> Result<BuiltResponse, AllocError>
    ensures body { IfOk result (λ response. response.body.items ≡ (file_of page.now).1) }
    ensures heads { IfOk result (IsBuilt options.now status None None
        (media_type_of options.now (file_of page.now).0)) }
{
    let media_type = media_type_of(options, &page.name);
    let body = Vec::from_slice(alloc, &page.response.body)?;
    let response = BuiltResponse::new(alloc, options, status, None, &None, media_type, body)?;
    Ok(response)
}

/// The response that refuses with this status, in a site with these options. Where it says that no
/// file has a name, its body is this page, if there is one.
fn refusal(
    alloc: Global,
    options: &SiteOptions,
    page: Option<&StoredFile>,
    status: Status,
) -> Result<BuiltResponse, AllocError>
    ensures { IfOk result
        (IsRefusal options.now (option_map (λ file. file_of file.now) page.entry) status) }
{
    match page_for(page, status) {
        Some(page) => copy(alloc, options, page, status),
        None => line(alloc, options, status),
    }
}

impl Refusals {
    /// The responses of a site with these options, and with this page for names that no file has.
    pub(crate) fn new(
        alloc: Global,
        options: &SiteOptions,
        page: Option<&StoredFile>,
    ) -> Result<Refusals, AllocError>
        ensures { IfOk result
            (AreRefusals options.now (option_map (λ file. file_of file.now) page.entry)) }
    {
        Ok(Refusals {
            bad_request: refusal(alloc, options, page, Status::BadRequest)?,
            not_found: refusal(alloc, options, page, Status::NotFound)?,
            method_not_allowed: refusal(alloc, options, page, Status::MethodNotAllowed)?,
            header_fields_too_large: refusal(alloc, options, page, Status::HeaderFieldsTooLarge)?,
            not_implemented: refusal(alloc, options, page, Status::NotImplemented)?,
        })
    }

    /// The response of this status.
    pub(crate) fn of(&self, status: Status) -> &BuiltResponse
        requires { IsTrue (is_fixed status) }
        ensures { (options : OptionsValue) (page : Option File) → AreRefusals options page self.now
            → IsRefusal options page status result.now }
    {
        match status {
            Status::BadRequest => &self.bad_request,
            Status::NotFound => &self.not_found,
            Status::MethodNotAllowed => &self.method_not_allowed,
            Status::HeaderFieldsTooLarge => &self.header_fields_too_large,
            Status::NotImplemented => &self.not_implemented,
            Status::Success
            | Status::PartialContent
            | Status::MovedPermanently
            | Status::NotModified
            | Status::RangeNotSatisfiable => unreachable!(),
        }
    }
}
