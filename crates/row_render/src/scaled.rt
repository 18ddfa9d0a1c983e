//! Rows of pictures that were brought to the width of a raster, kept for the rows that show them again.
ghost use Rattle.std.specs.Prelude.{◌≡◌, ℕ, ◌+◌, ◌*◌, ◌%◌, ◌≤◌, true, length, IfOk};
ghost use Rattle.lane_blend.specs.Rows.{AreLowered, IsRow, width_of};
ghost use Rattle.row_render.specs.inner.Sources.{IsPicture, scaled_pixel};
ghost use Rattle.row_render.specs.inner.Scaled.{ScaledView};

use crate::scaling::scale_columns;
use std::alloc::{AllocError, Global};
use std::marker::Model;

/// The row of a picture that was scaled last, and the row that it was scaled to. Contracts see the row of the picture and the width.
/// Only [`ScaledRow::new`] allocates.
#[derive(Drop)]
pub(crate) struct ScaledRow {
    // The first `count` bytes are the row of the picture.
    source: Vec<u8>,
    count: usize,
    // The first `width` pixels are the scaled row.
    row: Vec<u8>,
    width: u16,
}

impl Model for ScaledRow {
    ghost use Rattle.std.specs.Prelude.{◌≡◌, ◌*◌, ◌≤◌, vec_len, take};
    ghost use Rattle.lane_blend.specs.Rows.{IsRow};
    ghost use Rattle.row_render.specs.inner.Sources.{scaled_pixel};
    ghost use Rattle.row_render.specs.inner.Scaled.{ScaledView};

    ghost Value = { ScaledView };

    ghost view = { λ s. record { source = take s.count s.source.items; width = s.width; room = vec_len s.source } };

    ghost invariant = { λ s. (vec_len s.row ≡ vec_len s.source) × (s.count ≤ vec_len s.source)
        × IsRow s.width (scaled_pixel (take s.count s.source.items) s.width) (take (4 * s.width) s.row.items) };
}

impl ScaledRow {
    /// Creates room for rows of up to `width` pixels, with an empty row.
    pub(crate) fn new(alloc: Global, width: u16) -> Result<ScaledRow, AllocError> {
        let bytes = 4 * usize::from(width);
        Ok(ScaledRow {
            source: vec![in alloc; 0; bytes]?,
            count: 0,
            row: vec![in alloc; 0; bytes]?,
            width: 0,
        })
    }

    /// Writes the columns from `first` on of a raster of `width` columns that shows the row of a picture. It gathers pixels only
    /// if the row is not the one that is kept.
    pub(crate) fn scale_columns(&mut self, source: &[u8], width: u16, first: u16, row: &mut [u8])
        requires picture { IsPicture source.now }
        requires whole { length row.old % 4 ≡ 0 }
        requires fits { first + width_of row.old ≤ width }
        ensures row { IsRow (width_of row.old) (λ i. scaled_pixel source.now width (first + i)) row.new }
        ensures lowered { AreLowered row.new }
    {
        if self.is_of(source, width) {
            self.copy_columns(first, row);
        } else if self.has_room(source, width) {
            self.keep(source);
            self.scale(width);
            self.copy_columns(first, row);
        } else {
            scale_columns(source, width, first, row);
        }
    }

    /// Returns whether the kept row is this row of a picture at this width.
    fn is_of(&self, source: &[u8], width: u16) -> bool
        ensures source { result ≡ true → self.now.source ≡ source.now }
        ensures width { result ≡ true → self.now.width ≡ width }
    {
        self.width == width
            && self.count == source.len()
            && are_equal(source, &self.source[..self.count])
    }

    /// Returns whether the row of a picture and the raster of this width can be kept.
    fn has_room(&self, source: &[u8], width: u16) -> bool
        ensures source { result ≡ true → length source.now ≤ self.now.room }
        ensures width { result ≡ true → 4 * width ≤ self.now.room }
    {
        source.len() <= self.source.len() && 4 * usize::from(width) <= self.row.len()
    }

    /// Keeps the row of a picture, not scaled yet.
    fn keep(&mut self, source: &[u8])
        requires { length source.now ≤ self.old.room }
        ensures source { self.new.source ≡ source.now }
        ensures room { self.new.room ≡ self.old.room }
    {
        let count = source.len();
        self.source[0..count].copy_from_slice(source);
        self.count = count;
        self.width = 0;
    }

    /// Scales the kept row of a picture to a width.
    fn scale(&mut self, width: u16)
        requires picture { IsPicture self.old.source }
        requires width { 4 * width ≤ self.old.room }
        ensures source { self.new.source ≡ self.old.source }
        ensures width { self.new.width ≡ width }
    {
        let bytes = 4 * usize::from(width);
        let source = &self.source[..self.count];
        scale_columns(source, width, 0, &mut self.row[0..bytes]);
        self.width = width;
    }

    /// Copies the columns of the scaled row from `first` on.
    fn copy_columns(&self, first: u16, row: &mut [u8])
        requires whole { length row.old % 4 ≡ 0 }
        requires fits { first + width_of row.old ≤ self.now.width }
        ensures { IsRow (width_of row.old) (λ i. scaled_pixel self.now.source self.now.width (first + i)) row.new }
    {
        let at = 4 * usize::from(first);
        row.copy_from_slice(&self.row[at..at + row.len()]);
    }
}

/// Returns whether two rows of the same length have the same bytes. It compares all of them, many at a time.
fn are_equal(one: &[u8], other: &[u8]) -> bool
    requires { length one.now ≡ length other.now }
    ensures { result ≡ true → one.now ≡ other.now }
{
    let mut same = true;
    let mut at = 0;
    'bytes: while at < one.len() {
        if one[at] != other[at] {
            same = false;
        }
        at += 1;
    }
    same
}
