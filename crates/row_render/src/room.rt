//! The memory for making a row.
ghost use Rattle.std.specs.Prelude.{◌≡◌, IfOk};

use crate::kept::Kept;
use std::alloc::{AllocError, Global};
use std::marker::Model;

/// Scratch space for making rows of pixels up to a width. Only [`RowRoom::new`] allocates.
#[derive(Drop)]
pub struct RowRoom {
    pub(crate) rows: SpareRows,
    pub(crate) kept: Kept,
}

impl Model for RowRoom {
    ghost use Rattle.std.specs.Prelude.{ℕ};

    ghost Value = { ℕ };

    ghost view = { λ r. r.rows };
}

impl RowRoom {
    /// Creates room for rows of up to `width` pixels.
    pub fn new(alloc: Global, width: u16) -> Result<RowRoom, AllocError>
        ensures { IfOk result (λ room. room ≡ width) }
    {
        let rows = SpareRows::new(alloc, width)?;
        let kept = Kept::new(alloc, width)?;
        Ok(RowRoom { rows, kept })
    }
}

/// Four rows of pixels up to a width: that of a layer, that of a keyer, and those of a raster and of the other picture of a mix.
#[derive(Drop)]
pub(crate) struct SpareRows {
    width: u16,
    pub(crate) bytes: Vec<u8>,
}

impl Model for SpareRows {
    ghost use Rattle.std.specs.Prelude.{◌≡◌, ℕ, ◌*◌, vec_len};

    ghost Value = { ℕ };

    ghost view = { λ r. r.width };

    ghost invariant = { λ r. vec_len r.bytes ≡ 16 * r.width };
}

impl SpareRows {
    /// Creates four rows of `width` pixels.
    pub(crate) fn new(alloc: Global, width: u16) -> Result<SpareRows, AllocError>
        ensures { IfOk result (λ rows. rows ≡ width) }
    {
        let bytes = vec![in alloc; 0; 16 * usize::from(width)]?;
        Ok(SpareRows { width, bytes })
    }
}
