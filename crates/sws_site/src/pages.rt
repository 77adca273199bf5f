//! One file of a site.
ghost use Rattle.std.specs.Prelude.{◌≡◌, ◌≤◌, ◌<◌, ◌^◌, Option, length, option_map};
ghost use Rattle.std.specs.Option.{ForSome};
ghost use Rattle.sws_site.specs.Ages.{age_of};
ghost use Rattle.sws_site.specs.ContentTypes.{media_type_of};
ghost use Rattle.sws_site.specs.Folders.{redirect_of};
ghost use Rattle.sws_site.specs.Limits.{size_limit};
ghost use Rattle.sws_site.specs.Site.{page_head};

use crate::built_responses::BuiltResponse;
use crate::content_types::media_type_of;
use crate::head_kinds::HeadKind;
use crate::heads::MAX_MEDIA_TYPE;
use crate::options::SiteOptions;
use crate::stored::{StoredFile, own_or};
use httpdate::HttpDate;
use std::marker::Model;

/// One file of a site, with the heads of the responses about it. All of it is lent for
/// `'s`, the life of the site.
#[derive(Drop)]
pub struct Page<'s> {
    pub(crate) file: &'s StoredFile,
    pub(crate) not_modified: &'s BuiltResponse,
    pub(crate) date: Option<HttpDate>,
    pub(crate) options: &'s SiteOptions,
}

impl<'s> Model for Page<'s> {
    ghost use Rattle.sws_site.specs.Page.{PageState};

    ghost Value = { PageState };

    ghost use Rattle.sws_site.specs.StoredPages.{state_of, IsOfSite};

    ghost view = { state_of };

    ghost invariant = { IsOfSite };
}

impl<'s> Page<'s> {
    /// The contents of the file, of at most 8,589,934,592 bytes.
    pub fn body(&self) -> &'s [u8]
        ensures contents { result.now ≡ self.now.file.1 }
        ensures within { length result.now ≤ size_limit }
    {
        &self.file.response.body
    }

    /// The media type of the file, by its name.
    pub fn media_type(&self) -> &'s [u8]
        ensures media_type { result.now ≡ media_type_of self.now.options self.now.file.0 }
        ensures short { length result.now ≤ MAX_MEDIA_TYPE }
    {
        media_type_of(self.options, &self.file.name)
    }

    /// For how many seconds the file may be kept, by the end of its name, if that is said.
    pub fn max_age(&self) -> Option<u32>
        ensures age { result ≡ age_of self.now.options self.now.file.0 }
        ensures short { ForSome result (λ seconds. seconds < 2 ^ 32) }
    {
        self.file.max_age
    }

    /// The head of the response to a request for the file.
    pub fn head(&self, kind: HeadKind) -> &'s [u8]
        ensures { result.now ≡ page_head self.now kind.changed kind.closes }
    {
        if kind.changed {
            return self.file.response.head(kind.closes);
        }
        own_or(&self.file.not_modified, self.not_modified).head(kind.closes)
    }

    /// The head and the body of the response that redirects to the folder whose index this file is,
    /// where the site does so: the file is named `NAME/index.html`, and `NAME` is not empty and
    /// begins with no slash.
    pub fn redirect(&self, closes: bool) -> Option<(&'s [u8], &'s [u8])>
        ensures { option_map (λ parts. (parts.0.now, parts.1.now)) result
            ≡ redirect_of self.now closes }
    {
        match &self.file.redirect {
            Some(response) => Some((response.head(closes), &response.body)),
            None => None,
        }
    }
}
