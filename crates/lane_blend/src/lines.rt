//! Opacities as linear functions of bytes, in sixteen bits.
ghost use Rattle.std.specs.Prelude.{◌≡◌, ◌≤◌, true, IfSome};
ghost use Rattle.pixel_math.specs.Arithmetic.{fade_byte};
ghost use Rattle.lane_blend.specs.Lines.{IsFadeLine, line_byte};

/// A line: it makes of a byte `v` the byte `(v * slope + base) / 65536`. Both numbers have 16 bits and are kept as their
/// upper and lower bytes, so that each step fits 16 bits.
#[derive(Clone, Copy, Debug, PartialEq, Eq)]
pub(crate) struct FadeLine {
    slope_high: u8,
    slope_low: u8,
    base_high: u8,
    base_low: u8,
}

impl FadeLine {
    /// Returns a line that fades every byte to an opacity in millionths, and `None` if none of the lines tried does. Each opacity
    /// below 1,000,000 has one; that is not proved, so each line is tried on every byte.
    pub(crate) fn find(opacity: u32) -> Option<FadeLine>
        requires { opacity ≤ 1000000 }
        ensures { IfSome result (IsFadeLine opacity) }
    {
        let slope = ((u64::from(opacity) << 16) / 1_000_000 & 0xffff_ffff) as u32;
        for above in 0..6u32 {
            let line = FadeLine::candidate(opacity, slope.wrapping_add(above).wrapping_sub(2));
            if line.fades(opacity) {
                return Some(line);
            }
        }
        None
    }

    /// Returns the line of a slope with the least base that can work. It may still not fade every byte as the opacity does.
    fn candidate(opacity: u32, slope: u32) -> FadeLine {
        let mut base = 0u32;
        for v in 0..256u32 {
            let faded = v.wrapping_mul(opacity).wrapping_add(500_000) / 1_000_000;
            base = base.max(
                faded
                    .wrapping_mul(65536)
                    .saturating_sub(v.wrapping_mul(slope)),
            );
        }
        let [slope_low, slope_high, _, _] = slope.to_le_bytes();
        let [base_low, base_high, _, _] = base.to_le_bytes();
        FadeLine {
            slope_high,
            slope_low,
            base_high,
            base_low,
        }
    }

    /// Returns whether the line fades every byte to an opacity in millionths.
    fn fades(self, opacity: u32) -> bool
        requires { opacity ≤ 1000000 }
        ensures { result ≡ true → IsFadeLine opacity self }
    {
        'bytes: for value in 0..256u16 {
            let v = value as u8;
            if self.byte(v) != fade_byte(v, opacity) {
                return false;
            }
        }
        true
    }

    /// Returns the byte that the line makes of `v`.
    fn byte(self, v: u8) -> u8
        ensures { result ≡ line_byte self v }
    {
        let low = (u16::from(v) * u16::from(self.slope_low) + u16::from(self.base_low)) / 256;
        let high = u16::from(v) * u16::from(self.slope_high) + u16::from(self.base_high);
        ((high + low) / 256) as u8
    }

    /// Returns the byte `v` at the opacity of the line.
    pub(crate) fn faded(self, v: u8, opacity: u32) -> u8
        requires { IsFadeLine opacity self }
        ensures { result ≡ fade_byte v opacity }
    {
        self.byte(v)
    }
}

/// Fades `value` to an opacity in millionths.
pub(crate) fn fade_byte(value: u8, opacity: u32) -> u8
    requires { opacity ≤ 1000000 }
    ensures { result ≡ fade_byte value opacity }
{
    ((u32::from(value) * opacity + 500_000) / 1_000_000) as u8
}
