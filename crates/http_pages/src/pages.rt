//! What a program shows.
ghost use Rattle.std.specs.Prelude.{List, ℕ, IfOk, Option, option_copied};
ghost use Rattle.http_pages.specs.declared.page.Page.{Page};

use crate::page::Page;
use std::alloc::{AllocError, Global};

/// What a program shows. Each connection has a value of its own, which may share with the others what changes.
pub trait Pages: Send + Drop + 'static {
    // this page, or none, is what is shown at a path for a query
    ghost shows: { Self → List ℕ → Option (List ℕ) → Option Page → Type 0 };

    /// Returns the page at a path, which begins with `/`, for the text after the first `?` of the target, or `None` if there is no
    /// such page. Neither is decoded. The error is for memory alone, and ends the connection.
    fn page(
        &self,
        alloc: Global,
        path: &str,
        query: Option<&str>,
    ) -> Result<Option<Page>, AllocError>
        ensures { IfOk result (λ page. shows self.now path.now (option_copied query.entry) page) };

    /// Returns another value that shows the same, for a further connection.
    fn share(&self) -> Result<Self, AllocError>
    where
        Self: Sized,
        ensures { IfOk result (λ other. (path : List ℕ) (query : Option (List ℕ)) (page : Option Page)
            → shows other path query page → shows self.now path query page) };
}
