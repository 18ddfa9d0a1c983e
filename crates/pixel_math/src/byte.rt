//! The formulas on one byte.
ghost use Rattle.std.specs.Prelude.{◌≡◌, ◌<◌, ◌≤◌};
ghost use Rattle.pixel_math.specs.Arithmetic.{fade_byte, mix_byte, over_byte};
ghost use Rattle.pixel_math.specs.Pixel.{scaled, straight};

/// Multiplies `value` by `by` 255ths, rounded to the nearest byte.
pub fn scaled(value: u8, by: u8) -> u8
    ensures value { result ≡ scaled value by }
    ensures below { result ≤ by }
{
    ((u32::from(value) * u32::from(by) + 127) / 255) as u8
}

/// Returns the colour byte that gives `colour` when it is multiplied by `alpha`: 0 if the alpha is 0, and else the nearest byte to
/// `colour * 255 / alpha`.
pub fn straight(colour: u8, alpha: u8) -> u8
    requires { colour ≤ alpha }
    ensures value { result ≡ straight colour alpha }
    ensures back { scaled result alpha ≡ colour }
{
    if alpha == 0 {
        return 0;
    }
    let alpha = u32::from(alpha);
    ((u32::from(colour) * 255 + alpha / 2) / alpha) as u8
}

/// Lays the byte `upper`, of a pixel with this alpha, over `lower`.
pub(crate) fn over_byte(upper: u8, lower: u8, alpha: u8) -> u8
    requires { upper ≤ alpha }
    ensures { result ≡ over_byte upper lower alpha }
{
    upper + ((u32::from(lower) * u32::from(255 - alpha) + 127) / 255) as u8
}

/// Fades `value` to an opacity in millionths.
pub(crate) fn fade_byte(value: u8, opacity: u32) -> u8
    requires { opacity ≤ 1000000 }
    ensures { result ≡ fade_byte value opacity }
{
    ((u32::from(value) * opacity + 500_000) / 1_000_000) as u8
}

/// Returns the byte at step `j` of `d` on the way from `old` to `new`.
pub(crate) fn mix_byte(old: u8, new: u8, j: u32, d: u32) -> u8
    requires after { 0 < j }
    requires before { j < d }
    ensures { result ≡ mix_byte old new j d }
{
    let sum = u64::from(old) * u64::from(d - j) + u64::from(new) * u64::from(j);
    ((sum + u64::from(d / 2)) / u64::from(d)) as u8
}
