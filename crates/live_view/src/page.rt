//! The bytes of pages.
ghost use Rattle.std.specs.Prelude.{◌≡◌, IfOk};
ghost use Rattle.live_view.specs.Page.{page_of};

use bytes::Bytes;
use http_pages::{ContentType, Page, Status};
use std::alloc::{AllocError, Global};

/// What is answered to a wrong query.
pub const WRONG_QUERY: &str = "The query is none of this page.\n";

/// What is answered while the frames of the last tick were not made.
pub const NOT_YET: &str = "There is no picture yet.\n";

/// Returns the page of a file that is shown.
pub fn shown_page(content: ContentType, file: Vec<u8>) -> Result<Option<Page>, AllocError>
    ensures { IfOk result (λ page. page ≡ page_of Status.Shown content file.items) }
{
    let bytes = Bytes::from_vec(file)?;
    Ok(Some(Page {
        status: Status::Shown,
        content,
        bytes,
    }))
}

/// Returns the page of a text.
pub fn text_page(
    alloc: Global,
    status: Status,
    content: ContentType,
    text: &str,
) -> Result<Option<Page>, AllocError>
    ensures { IfOk result (λ page. page ≡ page_of status content text.now) }
{
    let bytes = Bytes::copy_from_slice(alloc, text.as_bytes())?;
    Ok(Some(Page {
        status,
        content,
        bytes,
    }))
}
