//! The status of a response.
ghost use Rattle.std.specs.Prelude.{◌≡◌};
ghost use Rattle.sws_site.specs.Statuses.{code_of, plain_row, row_of, row_value};

/// The status of a response (RFC 9110, section 15; RFC 6585, section 5).
#[derive(Clone, Copy, Debug, PartialEq, Eq)]
pub enum Status {
    /// 200: the file is sent.
    Success,
    /// 206: the part of the file is sent that the request asks for.
    PartialContent,
    /// 301: the path names a folder, whose path has a slash at its end.
    MovedPermanently,
    /// 304: the file was not modified since the date that the request names.
    NotModified,
    /// 400: what came is not a request that can be answered.
    BadRequest,
    /// 404: no file has the name.
    NotFound,
    /// 405: no file has the method.
    MethodNotAllowed,
    /// 416: the file has no such part as the request asks for.
    RangeNotSatisfiable,
    /// 431: the head is too long.
    HeaderFieldsTooLarge,
    /// 501: the method is not known.
    NotImplemented,
}

/// What the content of a response is, as it is sent to `GET`.
#[derive(Clone, Copy, Debug, PartialEq, Eq)]
pub enum Body {
    /// There is none.
    Nothing,
    /// The file.
    WholeFile,
    /// A part of the file.
    PartOfFile,
    /// The code and the reason phrase, in one line.
    StatusText,
}

/// What the responses of one status have.
#[derive(Clone, Copy, Debug)]
pub struct StatusRow {
    /// The code of three digits.
    pub code: u16,
    /// The code, a space and the reason phrase, as the status line has them.
    pub text: &'static [u8],
    /// The head says when the site was last modified, if that is known.
    pub is_dated: bool,
    /// The head says which methods a file has.
    pub lists_methods: bool,
    /// The head says which part of the file is sent, or that the file has none such.
    pub has_range: bool,
    /// The head says where what is asked for is to be found.
    pub has_location: bool,
    /// What the content is.
    pub body: Body,
    /// The connection ends with the response, whatever the request says.
    pub closes: bool,
}

/// A status that has no line of its own, and that its content tells.
fn plain(code: u16, text: &'static [u8]) -> StatusRow
    ensures { row_value result ≡ plain_row code text.now }
{
    StatusRow {
        code,
        text,
        is_dated: false,
        lists_methods: false,
        has_range: false,
        has_location: false,
        body: Body::StatusText,
        closes: false,
    }
}

impl Status {
    /// The row of this status in the table of all.
    pub fn row(self) -> StatusRow
        ensures { row_value result ≡ row_of self }
    {
        match self {
            Status::Success => StatusRow {
                is_dated: true,
                body: Body::WholeFile,
                ..plain(200, b"200 OK")
            },
            Status::PartialContent => StatusRow {
                is_dated: true,
                has_range: true,
                body: Body::PartOfFile,
                ..plain(206, b"206 Partial Content")
            },
            Status::MovedPermanently => StatusRow {
                has_location: true,
                ..plain(301, b"301 Moved Permanently")
            },
            Status::NotModified => StatusRow {
                is_dated: true,
                body: Body::Nothing,
                ..plain(304, b"304 Not Modified")
            },
            Status::BadRequest => StatusRow {
                closes: true,
                ..plain(400, b"400 Bad Request")
            },
            Status::NotFound => plain(404, b"404 Not Found"),
            Status::MethodNotAllowed => StatusRow {
                lists_methods: true,
                ..plain(405, b"405 Method Not Allowed")
            },
            Status::RangeNotSatisfiable => StatusRow {
                has_range: true,
                ..plain(416, b"416 Range Not Satisfiable")
            },
            Status::HeaderFieldsTooLarge => StatusRow {
                closes: true,
                ..plain(431, b"431 Request Header Fields Too Large")
            },
            Status::NotImplemented => plain(501, b"501 Not Implemented"),
        }
    }

    /// The code of three digits.
    pub fn code(self) -> u16
        ensures { result ≡ code_of self }
    {
        self.row().code
    }
}
