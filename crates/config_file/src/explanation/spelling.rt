//! Names that are misspelled.

use std::alloc::Global;
use strsim::osa_distance;

/// The longest name that is compared with others, in bytes.
const LONGEST: usize = 40;

/// Of the names that were offered so far, the one that is nearest to another name, if one is near.
#[derive(Clone, Copy)]
pub(crate) struct Nearest<'a> {
    alloc: Global,
    found: Option<&'a str>,
    /// How many characters of `found` have to be inserted, deleted, changed, or exchanged with the next one.
    edits: usize,
}

impl<'a> Nearest<'a> {
    /// Returns the state in which no name was offered.
    pub(crate) fn new(alloc: Global) -> Nearest<'a> {
        Nearest {
            alloc,
            found: None,
            edits: usize::MAX,
        }
    }

    /// Takes a name in place of the nearest one so far, if it is nearer to `wanted`, and if the edits between both are at most
    /// a third of the bytes of the longer one. The name is passed over if either is longer than `LONGEST` or memory runs out.
    pub(crate) fn offer(&mut self, wanted: &str, name: &'a str) {
        let longer = wanted.len().max(name.len());
        if longer > LONGEST {
            return;
        }
        if let Ok(edits) = osa_distance(self.alloc, wanted, name) {
            if edits < self.edits && edits.saturating_mul(3) <= longer {
                self.found = Some(name);
                self.edits = edits;
            }
        }
    }

    /// Returns the nearest name.
    pub(crate) fn name(&self) -> Option<&'a str> {
        self.found
    }
}
