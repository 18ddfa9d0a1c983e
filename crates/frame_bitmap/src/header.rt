//! The header of a BMP file.
ghost use Rattle.std.specs.Prelude.{◌≡◌, ◌+◌, ◌*◌, ◌^◌, ◌<◌, ◌≤◌, ◌++◌, OnOk, codes, length};
ghost use Rattle.frame_bitmap.specs.inner.Parts.{header_of, number_at, pieces};

use crate::dimensions::Size;
use std::alloc::AllocError;

/// How many bytes stand before the pixels.
pub const HEADER_BYTES: u32 = 54;

/// How many bytes a `BITMAPINFOHEADER` has.
const INFO_BYTES: u32 = 40;

/// One plane in the lower two bytes, and 32 bits a pixel in the upper two.
const PLANES_AND_BITS: u32 = 0x20_0001;

/// The pixels of a metre at 72 pixels an inch.
const PIXELS_PER_METRE: u32 = 2_835;

/// Appends numbers of four bytes, of each the lowest byte first.
fn push_numbers(out: &mut Vec<u8>, numbers: &[u32]) -> Result<(), AllocError>
    ensures { OnOk result (out.new.items ≡ out.old.items ++ pieces (number_at numbers.now) (length numbers.now)) }
{
    for number in numbers {
        out.extend_from_slice(&number.to_le_bytes())?;
    }
    Ok(())
}

/// Appends the header of the file of a picture of this size.
pub fn push_header(out: &mut Vec<u8>, size: Size) -> Result<(), AllocError>
    requires some { 1 ≤ size.height }
    requires fits { 54 + 4 * (size.width * size.height) < 2 ^ 32 }
    ensures { OnOk result (out.new.items ≡ (out.old.items ++ codes "BM") ++ header_of size.width size.height) }
{
    let pixel_bytes = 4 * (u32::from(size.width) * u32::from(size.height));
    let numbers = [
        HEADER_BYTES + pixel_bytes,
        0,
        HEADER_BYTES,
        INFO_BYTES,
        u32::from(size.width),
        u32::MAX - u32::from(size.height) + 1,
        PLANES_AND_BITS,
        0,
        pixel_bytes,
        PIXELS_PER_METRE,
        PIXELS_PER_METRE,
        0,
        0,
    ];
    out.extend_from_slice(b"BM")?;
    push_numbers(out, &numbers)
}
