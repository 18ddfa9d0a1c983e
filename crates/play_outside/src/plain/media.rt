//! A folder that never fails.
ghost use Rattle.std.specs.Prelude.{◌≡◌, None, IsOkAnd, []};

use crate::{FileFault, MediaDir};
use std::alloc::Global;

/// A folder in which every file is empty, and none is listed. It never fails, and does not expose what it holds.
#[derive(Clone, Copy)]
pub struct PlainMedia;

impl MediaDir for PlainMedia {
    ghost state = { λ _. record { files = None; faults = 0 } };

    fn config(&mut self, alloc: Global, path: &str) -> Result<Vec<u8>, FileFault>
        ensures { IsOkAnd result (λ bytes. bytes.items ≡ []) }
    {
        Ok(Vec::new(alloc))
    }

    fn names(&mut self, alloc: Global, folder: &str) -> Result<Vec<String>, FileFault>
        ensures { IsOkAnd result (λ names. names.items ≡ []) }
    {
        Ok(Vec::new(alloc))
    }

    fn bytes(&mut self, alloc: Global, folder: &str, name: &str) -> Result<Vec<u8>, FileFault>
        ensures { IsOkAnd result (λ bytes. bytes.items ≡ []) }
    {
        Ok(Vec::new(alloc))
    }
}
