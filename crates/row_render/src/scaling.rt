//! Rows of pictures, brought to the width of a raster.
ghost use Rattle.std.specs.Prelude.{◌≡◌, ℕ, ◌+◌, ◌*◌, ◌/◌, ◌%◌, ◌<◌, ◌≤◌, ◌^◌, length};
ghost use Rattle.lane_blend.specs.Rows.{AreLowered, IsRow, pixel_at, width_of};
ghost use Rattle.row_render.specs.inner.Sources.{IsPicture, scaled_pixel};

use crate::columns::copy_pixel;

/// Writes the columns from `first` on of a raster of `width` columns that shows the row of a picture.
pub(crate) fn scale_columns(source: &[u8], width: u16, first: u16, row: &mut [u8])
    requires picture { IsPicture source.now }
    requires whole { length row.old % 4 ≡ 0 }
    requires fits { first + width_of row.old ≤ width }
    ensures row { IsRow (width_of row.old) (λ i. scaled_pixel source.now width (first + i)) row.new }
    ensures lowered { AreLowered row.new }
{
    let columns = source.len() / 4;
    if columns == usize::from(width) {
        let at = 4 * usize::from(first);
        row.copy_from_slice(&source[at..at + row.len()]);
    } else if !row.is_empty() {
        let number = (2 * u64::from(first) + 1) * columns as u64;
        gather_row(
            source,
            number,
            2 * columns as u64,
            2 * u64::from(width),
            row,
        );
    }
}

/// Writes at each column `i` the pixel of `source` at column `(number + i * step) / divisor`, rounded down.
pub(crate) fn gather_row(source: &[u8], number: u64, step: u64, divisor: u64, row: &mut [u8])
    requires some { 0 < divisor }
    requires divisor { divisor < 2 ^ 60 }
    requires step { step < 2 ^ 60 }
    requires few { length source.now < 2 ^ 30 }
    requires whole { length row.old % 4 ≡ 0 }
    requires within { (i : ℕ) → i < width_of row.old → (number + i * step) / divisor < width_of source.now }
    ensures { IsRow (width_of row.old) (λ i. pixel_at source.now ((number + i * step) / divisor)) row.new }
{
    let (whole, part) = (step / divisor, step % divisor);
    let mut column = number / divisor;
    let mut rest = number % divisor;
    let mut x = 0;
    'columns: while x < row.len() / 4 {
        copy_pixel(source, column as usize, row, x);
        column += whole;
        rest += part;
        if rest >= divisor {
            rest -= divisor;
            column += 1;
        }
        x += 1;
    }
}
