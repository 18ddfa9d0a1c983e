//! The pixels of a frame, scaled down.
ghost use Rattle.std.specs.Prelude.{◌≡◌, ℕ, ◌*◌, ◌/◌, ◌<◌, ◌≤◌, ◌++◌, OnOk, length};
ghost use Rattle.frame_bitmap.specs.inner.Parts.{column_of, pieces, shown_row};

use crate::dimensions::Size;
use std::alloc::AllocError;

/// Returns the column of a frame of `width` columns that is shown at column x of `columns`. Rows have the ratio of the columns.
fn nearest(x: u16, width: u16, columns: u16) -> usize
    requires { 1 ≤ columns }
    ensures { result ≡ x * width / columns }
{
    (u32::from(x) * u32::from(width) / u32::from(columns)) as usize
}

/// Appends the row of `columns` pixels that is made of a row of `width` pixels.
fn push_row(out: &mut Vec<u8>, row: &[u8], width: u16, columns: u16) -> Result<(), AllocError>
    requires some { 1 ≤ columns }
    requires down { columns ≤ width }
    requires bytes { length row.now ≡ 4 * width }
    ensures { OnOk result (out.new.items ≡ out.old.items ++ pieces (column_of width columns row.now) columns) }
{
    for x in 0..columns {
        let column = nearest(x, width, columns);
        let at = 4 * column;
        out.extend_from_slice(&row[at..at + 4])?;
    }
    Ok(())
}

/// Appends the rows of the picture of a frame of this size.
pub fn push_rows(out: &mut Vec<u8>, frame: &[u8], size: Size, shown: Size) -> Result<(), AllocError>
    requires some { 1 ≤ shown.width }
    requires down { shown.width ≤ size.width }
    requires bytes { length frame.now ≡ 4 * (size.width * size.height) }
    requires inside { (y : ℕ) → y < shown.height → y * size.width / shown.width < size.height }
    ensures { OnOk result (out.new.items ≡ out.old.items ++ pieces (shown_row size.width shown.width frame.now) shown.height) }
{
    let row_bytes = 4 * size.width as usize;
    for y in 0..shown.height {
        let row = nearest(y, size.width, shown.width);
        let at = row_bytes * row;
        push_row(out, &frame[at..at + row_bytes], size.width, shown.width)?;
    }
    Ok(())
}
