//! The answer to one head.
ghost use Rattle.std.specs.Prelude.{◌≡◌, ◌≤◌, ◌<◌, ◌∷◌, IsTrue, Bool, true, false, not, ◌||◌, length, [], codes, if◌then◌else◌, Option, None, Some, option_map};
ghost use Rattle.sws_site.specs.declared.statuses.Status.{Status as StatusValue};
ghost use Rattle.sws_answer.specs.Cases.{lacks_host, is_malformed, is_one_of, file_methods, other_methods};
ghost use Rattle.sws_answer.specs.Answers.{is_head_request, response, request_answer, answer_of, target_of};
ghost use Rattle.sws_answer.specs.Asked.{asked_by};
ghost use Rattle.sws_site.specs.Files.{File};
ghost use Rattle.sws_site.specs.Folders.{folder_index};
ghost use Rattle.sws_answer.specs.FileAnswers.{file_answer, folder_answer, name_answer, redirect_parts as parts_to};
ghost use Rattle.sws_answer.specs.declared.ranges.Selection.{Selection as SelectionValue};
ghost use Rattle.sws_answer.specs.declared.ranges.Selection.TheVariants.{Whole, Part, Unsatisfied};
ghost use Rattle.sws_site.specs.Fixed.{is_fixed};
ghost use Rattle.sws_answer.specs.Targets.{slash, name_said_by};
ghost use Rattle.sws_answer.specs.AnswerValues.{asked_value, IsPageOf, Sends, sent_as};
ghost use Rattle.sws_answer.specs.Closing.{is_closing};

use crate::answers::{Answer, Answered};
use crate::asking::{Asked, NO_TARGET};
use crate::closing::closes_connection;
use crate::conditions::is_not_modified;
use crate::fields::count_of;
use crate::framing::is_read_in_two_ways;
use crate::path_room::PathRoom;
use crate::ranges::{Selection, select_part};
use crate::targets::{behind_first_slash, path_part, write_name};
use sws_parts::Parts;
use sws_request::{FieldRoom, RequestRef, view_in};
use sws_site::{ContentRange, HeadKind, HeadParts, Page, Site, Status, write_head};

/// Whether the request has not the one field Host that it needs.
fn is_without_host(request: &RequestRef<'_, '_>) -> bool
    ensures { result ≡ lacks_host request.now }
{
    let hosts = count_of(request, b"host");
    hosts > 1 || hosts == 0 && request.minor() == 1
}

/// Whether the site refuses the request whatever it asks.
fn is_refused(site: &Site, request: &RequestRef<'_, '_>) -> bool
    ensures { result ≡ is_malformed site.now request.now }
{
    is_without_host(request) || site.options().refuses_ambiguous && is_read_in_two_ways(request)
}

/// Whether the method is known, and no method of a file.
fn is_other_method(method: &[u8]) -> bool
    ensures { result ≡ is_one_of other_methods method.now }
{
    method == b"OPTIONS".as_slice()
        || method == b"POST".as_slice()
        || method == b"PUT".as_slice()
        || method == b"DELETE".as_slice()
        || method == b"PATCH".as_slice()
        || method == b"TRACE".as_slice()
        || method == b"CONNECT".as_slice()
}

/// Whether a file has the method.
fn is_file_method(method: &[u8]) -> bool
    ensures { result ≡ is_one_of file_methods method.now }
{
    method == b"GET".as_slice() || method == b"HEAD".as_slice()
}

/// Whether the content is left out of the response.
fn leaves_content_out(request: &RequestRef<'_, '_>) -> bool
    ensures { result ≡ is_head_request request.now }
{
    request.method() == b"HEAD".as_slice()
}

/// The content of a response, which may be left out.
fn content<'s>(body: &'s [u8], is_head: bool) -> &'s [u8]
    ensures { result.now ≡ (if is_head then [] else body.now) }
{
    if is_head {
        return b"";
    }
    body
}

/// The response that refuses with this status: its content says the status, in one line.
fn refuse<'s>(
    site: &'s Site,
    status: Status,
    closes: bool,
    is_head: bool,
    parts: &mut Parts<'s>,
) -> Answered
    requires { IsTrue (is_fixed status) }
    ensures { Sends (sent_as result parts.new) (response site.now status None Whole closes is_head) }
{
    let (head, body) = site.refusal(status, closes);
    parts.lend(head, content(body, is_head));
    Answered {
        closes,
        code: status.code(),
    }
}

/// The response that sends a file whole.
fn send_file<'s>(
    site: &'s Site,
    page: &Page<'s>,
    closes: bool,
    is_head: bool,
    parts: &mut Parts<'s>,
) -> Answered
    requires { IsPageOf site.now page.now }
    ensures { Sends (sent_as result parts.new) (response site.now StatusValue.Success
        (Some page.now.file) Whole closes is_head) }
{
    let head = page.head(HeadKind {
        changed: true,
        closes,
    });
    parts.lend(head, content(page.body(), is_head));
    Answered {
        closes,
        code: Status::Success.code(),
    }
}

/// The response that a file was not modified, whatever part of it is asked for.
fn say_not_modified<'s>(
    site: &'s Site,
    page: &Page<'s>,
    closes: bool,
    is_head: bool,
    parts: &mut Parts<'s>,
) -> Answered
    requires { IsPageOf site.now page.now }
    ensures { (selection : SelectionValue)
        → Sends (sent_as result parts.new) (response site.now StatusValue.NotModified
        (Some page.now.file) selection closes is_head) }
{
    let head = page.head(HeadKind {
        changed: false,
        closes,
    });
    parts.lend(head, content(b"", is_head));
    Answered {
        closes,
        code: Status::NotModified.code(),
    }
}

/// The response that sends a part of a file, from its first to its last byte, which the file has.
fn send_part<'s>(
    site: &'s Site,
    page: &Page<'s>,
    first: usize,
    last: usize,
    closes: bool,
    is_head: bool,
    parts: &mut Parts<'s>,
) -> Answered
    requires page { IsPageOf site.now page.now }
    requires part { (first ≤ last) × (last < length page.now.file.1) }
    ensures { Sends (sent_as result parts.new) (response site.now StatusValue.PartialContent
        (Some page.now.file) (Part first last) closes is_head) }
{
    let body = page.body();
    let part = &body[first..last + 1];
    let head = write_head(&HeadParts {
        options: site.options(),
        status: Status::PartialContent,
        closes,
        date: site.http_date(),
        max_age: page.max_age(),
        range: Some(ContentRange::Selected {
            first: first as u64,
            last: last as u64,
            len: body.len() as u64,
        }),
        media_type: page.media_type(),
        len: part.len(),
    });
    parts.own(head, content(part, is_head));
    Answered {
        closes,
        code: Status::PartialContent.code(),
    }
}

/// The content of the response that a file has no such part.
const NO_SUCH_PART: &[u8] = b"416 Range Not Satisfiable\n";

/// The response that a file has no such part as the request asks for.
fn refuse_range<'s>(
    site: &'s Site,
    page: &Page<'s>,
    closes: bool,
    is_head: bool,
    parts: &mut Parts<'s>,
) -> Answered
    ensures { Sends (sent_as result parts.new) (response site.now StatusValue.RangeNotSatisfiable
        (Some page.now.file) Unsatisfied closes is_head) }
{
    let head = write_head(&HeadParts {
        options: site.options(),
        status: Status::RangeNotSatisfiable,
        closes,
        date: site.http_date(),
        max_age: None,
        range: Some(ContentRange::NoSuch {
            len: page.body().len() as u64,
        }),
        media_type: b"text/plain",
        len: NO_SUCH_PART.len(),
    });
    parts.own(head, content(NO_SUCH_PART, is_head));
    Answered {
        closes,
        code: Status::RangeNotSatisfiable.code(),
    }
}

/// The answer to a request whose target names a file.
fn answer_file<'s>(
    site: &'s Site,
    request: &RequestRef<'_, '_>,
    page: &Page<'s>,
    closes: bool,
    is_head: bool,
    parts: &mut Parts<'s>,
) -> Answered
    requires { IsPageOf site.now page.now }
    ensures { (index : Option File) → Sends (sent_as result parts.new)
        (file_answer site.now request.now (Some page.now.file) index closes is_head) }
{
    if is_not_modified(site.http_date(), request) {
        return say_not_modified(site, page, closes, is_head, parts);
    }
    match select_part(site, request, page.body().len()) {
        Selection::Whole => send_file(site, page, closes, is_head, parts),
        Selection::Part(first, last) => send_part(site, page, first, last, closes, is_head, parts),
        Selection::Unsatisfied => refuse_range(site, page, closes, is_head, parts),
    }
}

/// The head and the body of the redirect to the folder whose name is in the room, where the site
/// redirects to it.
fn redirect_parts<'s>(
    site: &'s Site,
    closes: bool,
    room: &mut PathRoom,
) -> Option<(&'s [u8], &'s [u8])>
    ensures { option_map (λ parts. (parts.0.now, parts.1.now)) result
        ≡ option_map (parts_to site.now.options closes) (folder_index site.now room.old) }
{
    if !site.options().redirects_to_folders {
        return None;
    }
    if !room.put(b"/index.html") {
        site.limits();
        return None;
    }
    match site.lookup(room.bytes()) {
        Some(page) => page.redirect(closes),
        None => None,
    }
}

/// The answer to a request whose name, which is in the room, no file has: a redirect where a folder
/// has it.
fn answer_folder<'s>(
    site: &'s Site,
    closes: bool,
    is_head: bool,
    room: &mut PathRoom,
    parts: &mut Parts<'s>,
) -> Answered
    ensures { Sends (sent_as result parts.new)
        (folder_answer site.now (folder_index site.now room.old) closes is_head) }
{
    match redirect_parts(site, closes, room) {
        Some((head, body)) => {
            parts.lend(head, content(body, is_head));
            Answered {
                closes,
                code: Status::MovedPermanently.code(),
            }
        }
        None => refuse(site, Status::NotFound, closes, is_head, parts),
    }
}

/// The answer to a request for the path, which stands without its first slash.
fn answer_path<'s>(
    site: &'s Site,
    request: &RequestRef<'_, '_>,
    path: &[u8],
    closes: bool,
    is_head: bool,
    room: &mut PathRoom,
    parts: &mut Parts<'s>,
) -> Answered
    ensures { Sends (sent_as result parts.new) (name_answer site.now request.now
        (name_said_by site.now.options (slash ∷ path.now)) closes is_head) }
{
    if !write_name(site.options(), path, room) {
        site.limits();
        return refuse(site, Status::NotFound, closes, is_head, parts);
    }
    match site.lookup(room.bytes()) {
        Some(page) => answer_file(site, request, &page, closes, is_head, parts),
        None => answer_folder(site, closes, is_head, room, parts),
    }
}

/// Whether the connection ends after the response, unless that closes by itself.
fn closes_after(site: &Site, request: &RequestRef<'_, '_>, last: bool) -> bool
    ensures { result ≡ (is_closing site.now.options request.now || last) }
{
    closes_connection(site.options(), request) || last
}

/// The answer to a request: the first case that holds of it says the status, in the
/// order of the definition.
fn answer_request<'s>(
    site: &'s Site,
    request: &RequestRef<'_, '_>,
    last: bool,
    room: &mut PathRoom,
    parts: &mut Parts<'s>,
) -> Answered
    ensures { Sends (sent_as result parts.new) (request_answer site.now request.now last) }
{
    let closes = closes_after(site, request, last);
    let is_head = leaves_content_out(request);
    if is_refused(site, request) {
        return refuse(site, Status::BadRequest, true, is_head, parts);
    }
    if is_other_method(request.method()) {
        return refuse(site, Status::MethodNotAllowed, closes, is_head, parts);
    }
    if !is_file_method(request.method()) {
        return refuse(site, Status::NotImplemented, closes, is_head, parts);
    }
    match behind_first_slash(request.target()) {
        Some(rest) => answer_path(site, request, path_part(rest), closes, is_head, room, parts),
        None => refuse(site, Status::BadRequest, true, is_head, parts),
    }
}

/// Puts the answer to what was asked into the parts of a connection. With `last` it is the last one
/// of its connection, and closes it.
///
/// `room` serves for the name of the file; what was in it before does not matter. Nothing of the
/// answer is moved: whoever answers many heads keeps one value of [`Parts`].
pub fn answer_into<'s>(
    site: &'s Site,
    asked: &Asked<'_>,
    last: bool,
    room: &mut PathRoom,
    parts: &mut Parts<'s>,
) -> Answered
    ensures { Sends (sent_as result parts.new) (answer_of site.now (asked_value asked.now) last) }
{
    match asked {
        Asked::Request(request) => answer_request(site, &request.by_ref(), last, room, parts),
        Asked::NotARequest => refuse(site, Status::BadRequest, true, false, parts),
        Asked::TooLong => refuse(site, Status::HeaderFieldsTooLarge, true, false, parts),
    }
}

/// The answer to what was asked, as that of [`answer_into`], in a value of its own.
pub fn answer<'s>(site: &'s Site, asked: &Asked<'_>, last: bool, room: &mut PathRoom) -> Answer<'s>
    ensures { Sends result (answer_of site.now (asked_value asked.now) last) }
{
    let mut parts = Parts::new(b"", b"");
    let Answered { closes, code } = answer_into(site, asked, last, room, &mut parts);
    Answer {
        parts,
        closes,
        code,
    }
}

/// Puts the answer to a whole head into the parts, as [`answer_into`] does with what
/// [`ask`](crate::ask) says of it, and gives the target that was asked for beside it. A request is
/// read where it lies, as the places of its fields take 2 KiB, which no answer needs to move.
pub fn answer_head<'s, 'b>(
    site: &'s Site,
    head: &'b [u8],
    last: bool,
    room: &mut PathRoom,
    parts: &mut Parts<'s>,
) -> (Answered, &'b [u8])
    ensures answer { Sends (sent_as result.0 parts.new)
        (answer_of site.now (asked_by head.now) last) }
    ensures target { result.1.now ≡ target_of (asked_by head.now) }
{
    let mut fields = FieldRoom::new();
    match &view_in(head, &mut fields) {
        Ok(request) => {
            let answered = answer_request(site, request, last, room, parts);
            (answered, request.target())
        }
        Err(_) => {
            let answered = refuse(site, Status::BadRequest, true, false, parts);
            (answered, NO_TARGET)
        }
    }
}
