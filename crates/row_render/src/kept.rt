//! Fades, mixes and scaled rows, kept from row to row.
ghost use Rattle.std.specs.Prelude.{◌≡◌, ℕ, ◌+◌, ◌<◌, ◌≤◌, ◌%◌, length};
ghost use Rattle.pixel_math.specs.Arithmetic.{fade, mix};
ghost use Rattle.lane_blend.specs.Rows.{AreLowered, IsRow, pixel_at, width_of};
ghost use Rattle.row_render.specs.inner.Sources.{IsPicture, scaled_pixel};
ghost use Rattle.row_render.specs.declared.kept.TheConstants.{SCALED_ROWS};

use crate::scaled::ScaledRow;
use crate::scaling::scale_columns;
use lane_blend::{RowFade, RowMix};
use play_types::Still;
use std::alloc::{AllocError, Global};
use std::marker::Model;

/// How many fades are kept at most, and how many mixes.
const PLACES: usize = 61;

/// How many scaled rows are kept at most.
const SCALED_ROWS: usize = 8;

/// Fades and mixes that rows were made with, and scaled rows, each at the index that its numbers give. Another one with the same
/// index replaces it. Only [`Kept::new`] allocates.
#[derive(Drop)]
pub(crate) struct Kept {
    fades: Vec<Option<RowFade>>,
    mixes: Vec<Option<RowMix>>,
    scaled: Vec<ScaledRow>,
}

impl Model for Kept {
    ghost use Rattle.std.specs.Prelude.{◌≡◌, vec_len};
    ghost use Rattle.row_render.specs.declared.kept.TheConstants.{PLACES, SCALED_ROWS};

    ghost Value = { Unit {0} };

    ghost view = { λ k. tt };

    ghost invariant = { λ k. (vec_len k.fades ≡ PLACES) × (vec_len k.mixes ≡ PLACES) × (vec_len k.scaled ≡ SCALED_ROWS) };
}

impl Kept {
    /// Creates empty room for fades and mixes, and for scaled rows of up to `width` pixels.
    pub(crate) fn new(alloc: Global, width: u16) -> Result<Kept, AllocError> {
        let mut fades = Vec::with_capacity(alloc, PLACES)?;
        fades.resize_with(PLACES, || None)?;
        let mut mixes = Vec::with_capacity(alloc, PLACES)?;
        mixes.resize_with(PLACES, || None)?;
        let mut scaled = Vec::with_capacity(alloc, SCALED_ROWS)?;
        for _place in 0..SCALED_ROWS {
            scaled.push(ScaledRow::new(alloc, width)?)?;
        }
        Ok(Kept {
            fades,
            mixes,
            scaled,
        })
    }

    /// Writes the columns from `first` on of a raster of `width` columns that shows the row of a still's picture, as
    /// [`scale_columns`] does.
    pub(crate) fn scale_columns(
        &mut self,
        still: Still,
        source: &[u8],
        width: u16,
        first: u16,
        row: &mut [u8],
    )
        requires picture { IsPicture source.now }
        requires whole { length row.old % 4 ≡ 0 }
        requires fits { first + width_of row.old ≤ width }
        ensures row { IsRow (width_of row.old) (λ i. scaled_pixel source.now width (first + i)) row.new }
        ensures lowered { AreLowered row.new }
    {
        if source.len() < 4 * usize::from(width) {
            self.scaled[place_of(still)].scale_columns(source, width, first, row);
        } else {
            scale_columns(source, width, first, row);
        }
    }

    /// Fades each pixel of a row to an opacity in millionths, at most 1,000,000, as [`lane_blend::fade_row`] does.
    pub(crate) fn fade_row(&mut self, row: &mut [u8], opacity: u32)
        requires opacity { opacity ≤ 1000000 }
        requires whole { length row.old % 4 ≡ 0 }
        requires lowered { AreLowered row.old }
        ensures row { IsRow (width_of row.old) (λ i. fade (pixel_at row.old i) opacity) row.new }
        ensures lowered { AreLowered row.new }
    {
        let place = opacity as usize % PLACES;
        if let Some(kept) = &self.fades[place] {
            if kept.opacity() == opacity {
                kept.apply(row);
                return;
            }
        }
        let found = RowFade::new(opacity);
        found.apply(row);
        self.fades[place] = Some(found);
    }

    /// Mixes each pixel of a row with the one of `new` at the same place, at step `j` of `d`, as [`lane_blend::mix_row`] does.
    pub(crate) fn mix_row(&mut self, new: &[u8], old_in_out: &mut [u8], j: u32, d: u32)
        requires after { 0 < j }
        requires before { j < d }
        requires lengths { length new.now ≡ length old_in_out.old }
        requires whole { length old_in_out.old % 4 ≡ 0 }
        requires new { AreLowered new.now }
        requires old { AreLowered old_in_out.old }
        ensures row { IsRow (width_of old_in_out.old) (λ i. mix (pixel_at old_in_out.old i) (pixel_at new.now i) j d) old_in_out.new }
        ensures lowered { AreLowered old_in_out.new }
    {
        let place = (j as usize + d as usize) % PLACES;
        if let Some(kept) = &self.mixes[place] {
            if kept.is_step(j, d) {
                kept.apply(new, old_in_out);
                return;
            }
        }
        let found = RowMix::new(j, d);
        found.apply(new, old_in_out);
        self.mixes[place] = Some(found);
    }
}

/// Returns the index of the scaled row of a still.
fn place_of(still: Still) -> usize
    ensures { result < SCALED_ROWS }
{
    match still {
        Still::Nothing | Still::Colour(_) => 0,
        Still::Frame(clip, _) => clip as usize % SCALED_ROWS,
        Still::Channel(channel) => usize::from(channel) % SCALED_ROWS,
    }
}
