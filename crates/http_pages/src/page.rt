//! A page, as it is at one moment.
ghost use Rattle.std.specs.Prelude.{◌≡◌};
ghost use Rattle.http_pages.specs.Answer.{status_code};

use crate::content::ContentType;
use bytes::Bytes;
use http::StatusCode;

/// How a page answers a request.
#[derive(Clone, Copy, Debug, PartialEq, Eq)]
pub enum Status {
    /// 200: the page is what was asked for.
    Shown,
    /// 400: the query is wrong, and the page says why.
    BadRequest,
    /// 503: there is nothing to show yet, and the browser may ask again.
    Unavailable,
}

impl Status {
    /// Returns the number of the status.
    pub fn code(self) -> StatusCode
        ensures { result ≡ status_code self }
    {
        match self {
            Status::Shown => StatusCode::OK,
            Status::BadRequest => StatusCode::BAD_REQUEST,
            Status::Unavailable => StatusCode::SERVICE_UNAVAILABLE,
        }
    }
}

/// A page, as it is at one moment.
#[derive(Drop)]
pub struct Page {
    pub status: Status,
    pub content: ContentType,
    pub bytes: Bytes,
}
