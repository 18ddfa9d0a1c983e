//! The size of a frame, and of the picture that is shown of it.
ghost use Rattle.std.specs.Prelude.{◌≡◌, ◌≤◌};
ghost use Rattle.frame_bitmap.specs.Size.{shown};

/// How many columns and rows a picture has.
#[derive(Clone, Copy, Debug, PartialEq, Eq)]
pub struct Size {
    pub width: u16,
    pub height: u16,
}

/// Returns the size of the picture of a frame of this size, if `width` is the width that is asked for. A width above that of the
/// frame changes nothing, and 0 counts as 1. The ratio of the sides stays, but there is at least one row.
pub fn shown_size(frame: Size, width: Option<u16>) -> Size
    requires { 1 ≤ frame.width }
    ensures { result ≡ shown frame width }
{
    let columns = match width {
        Some(width) => width.clamp(1, frame.width),
        None => frame.width,
    };
    let rows = u32::from(frame.height) * u32::from(columns) / u32::from(frame.width);
    Size {
        width: columns,
        height: (rows as u16).max(1),
    }
}
