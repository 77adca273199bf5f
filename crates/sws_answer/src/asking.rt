//! What a client asks by a head: a request, or what is refused before it is one.
ghost use Rattle.std.specs.Prelude.{◌≡◌};
ghost use Rattle.sws_answer.specs.Asked.{asked_by};
ghost use Rattle.sws_answer.specs.AnswerValues.{asked_value};
ghost use Rattle.sws_answer.specs.Answers.{target_of};

use sws_request::{RequestView, view};

/// What stands for the target where there is no request.
pub(crate) const NO_TARGET: &[u8] = b"-";

/// What a client asks by a head.
#[derive(Drop)]
pub enum Asked<'b> {
    /// The head is this request.
    Request(RequestView<'b>),
    /// The head is none.
    NotARequest,
    /// The bytes are too many for a head, and none has ended.
    TooLong,
}

/// What a whole head asks.
pub fn ask(head: &[u8]) -> Asked<'_>
    ensures { asked_value result ≡ asked_by head.now }
{
    match view(head) {
        Ok(request) => Asked::Request(request),
        Err(_) => Asked::NotARequest,
    }
}

/// The target that was asked for, byte for byte as the request line has it (RFC 9112, section 3.2),
/// or the one byte `-` where there is no request.
pub fn target<'b>(asked: &Asked<'b>) -> &'b [u8]
    ensures { result.now ≡ target_of (asked_value asked.now) }
{
    match asked {
        Asked::Request(request) => request.target(),
        Asked::NotARequest | Asked::TooLong => NO_TARGET,
    }
}
