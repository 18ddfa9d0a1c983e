//! The BMP file of a frame.
ghost use Rattle.std.specs.Prelude.{◌≡◌, IfOk};
ghost use Rattle.frame_bitmap.specs.Bitmap.{IsBitmap, shown_pixel};
ghost use Rattle.frame_bitmap.specs.Size.{IsFrame, shown};

use crate::dimensions::{Size, shown_size};
use crate::header::{HEADER_BYTES, push_header};
use crate::scaling::push_rows;
use std::alloc::{AllocError, Global};

/// Returns the BMP file of a frame of this size. If a width is asked for that is smaller than that of the frame, the picture is
/// scaled down to it: its pixels are the nearest ones of the frame, to the left and above. It fails only if memory runs out.
pub fn bitmap(
    alloc: Global,
    frame: &[u8],
    size: Size,
    width: Option<u16>,
) -> Result<Vec<u8>, AllocError>
    requires { IsFrame size frame.now }
    ensures { IfOk result (λ file. IsBitmap file.items (shown size width) (shown_pixel size.width frame.now (shown size width).width)) }
{
    let shown = shown_size(size, width);
    let pixels = 4 * usize::from(shown.width) * usize::from(shown.height);
    let mut file = Vec::with_capacity(alloc, HEADER_BYTES as usize + pixels)?;
    push_header(&mut file, shown)?;
    push_rows(&mut file, frame, size, shown)?;
    Ok(file)
}
