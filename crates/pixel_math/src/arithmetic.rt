//! The formulas on pixels. Each applies one formula on bytes to blue, green, red and alpha.
ghost use Rattle.std.specs.Prelude.{◌≡◌, ◌<◌, ◌≤◌};
ghost use Rattle.pixel_math.specs.Arithmetic.{fade, key, mix, over};

use crate::byte::{fade_byte, mix_byte, over_byte, scaled};
use crate::pixel::Pixel;

/// Lays the upper pixel `s` over the lower pixel `d`: what the alpha of `s` leaves free shows `d`.
pub fn over(s: Pixel, d: Pixel) -> Pixel
    ensures { result ≡ over s d }
{
    Pixel::new(
        over_byte(s.b(), d.b(), s.a()),
        over_byte(s.g(), d.g(), s.a()),
        over_byte(s.r(), d.r(), s.a()),
        over_byte(s.a(), d.a(), s.a()),
    )
}

/// Fades a pixel to an opacity in millionths, 0 to 1,000,000: 0 hides it, 1,000,000 shows it whole.
pub fn fade(p: Pixel, opacity: u32) -> Pixel
    requires { opacity ≤ 1000000 }
    ensures { result ≡ fade p opacity }
{
    Pixel::new(
        fade_byte(p.b(), opacity),
        fade_byte(p.g(), opacity),
        fade_byte(p.r(), opacity),
        fade_byte(p.a(), opacity),
    )
}

/// Keys a pixel by `k` 255ths: 0 hides it, 255 shows it whole.
pub fn key(p: Pixel, k: u8) -> Pixel
    ensures { result ≡ key p k }
{
    Pixel::new(
        scaled(p.b(), k),
        scaled(p.g(), k),
        scaled(p.r(), k),
        scaled(p.a(), k),
    )
}

/// Mixes two pixels: returns the pixel at step `j` of `d` on the way from `old` to `new`.
pub fn mix(old: Pixel, new: Pixel, j: u32, d: u32) -> Pixel
    requires after { 0 < j }
    requires before { j < d }
    ensures { result ≡ mix old new j d }
{
    Pixel::new(
        mix_byte(old.b(), new.b(), j, d),
        mix_byte(old.g(), new.g(), j, d),
        mix_byte(old.r(), new.r(), j, d),
        mix_byte(old.a(), new.a(), j, d),
    )
}
