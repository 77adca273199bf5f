//! A response that is built once and sent many times.
ghost use Rattle.std.specs.Prelude.{◌≡◌, ◌≤◌, ◌<◌, ◌^◌, IfOk, length};
ghost use Rattle.std.specs.Option.{ForSome};
ghost use Rattle.sws_site.specs.BuiltResponses.{IsBuilt, built_head};

use crate::heads::{HeadParts, MAX_MEDIA_TYPE, write_head};
use crate::options::SiteOptions;
use crate::statuses::Status;
use httpdate::HttpDate;
use std::alloc::{AllocError, Global};

/// The body of a response, and its head for a connection that stays open and for one that ends.
#[derive(Drop)]
pub(crate) struct BuiltResponse {
    pub(crate) body: Vec<u8>,
    pub(crate) open_head: Vec<u8>,
    pub(crate) closing_head: Vec<u8>,
}

impl BuiltResponse {
    /// The response of this status with a body of this media type, which may be kept for so many
    /// seconds, of a site with these options and of this date.
    pub(crate) fn new(
        alloc: Global,
        options: &SiteOptions,
        status: Status,
        max_age: Option<u32>,
        date: &Option<HttpDate>,
        media_type: &[u8],
        body: Vec<u8>,
    ) -> Result<BuiltResponse, AllocError>
        requires age { ForSome max_age (λ seconds. seconds < 2 ^ 32) }
        requires media_type { length media_type.now ≤ MAX_MEDIA_TYPE }
        ensures built { IfOk result (IsBuilt options.now status max_age date.now media_type.now) }
        ensures body { IfOk result (λ response. response.body.items ≡ body.items) }
    {
        let open = HeadParts {
            options,
            status,
            closes: false,
            date,
            max_age,
            range: None,
            media_type,
            len: body.len(),
        };
        let closing = HeadParts {
            closes: true,
            ..open
        };
        let open_head = Vec::from_slice(alloc, write_head(&open).bytes())?;
        let closing_head = Vec::from_slice(alloc, write_head(&closing).bytes())?;
        Ok(BuiltResponse {
            body,
            open_head,
            closing_head,
        })
    }

    /// The head for a connection that ends, or for one that stays open.
    pub(crate) fn head(&self, closes: bool) -> &[u8]
        ensures { result.now ≡ built_head self.now closes }
    {
        if closes {
            return &self.closing_head;
        }
        &self.open_head
    }
}
