//! Laws of the formulas. Each is a function that does nothing, and its contract is the law.
ghost use Rattle.std.specs.Prelude.{◌≡◌, ℕ, ◌<◌, ◌≤◌};
ghost use Rattle.pixel_math.specs.Arithmetic.{fade, key, mix, over};
ghost use Rattle.pixel_math.specs.Pixel.{IsPixel, PixelView, colour_pixel, colour_value, lowered, multiplied, pixel_of, scaled, straight, transparent};

/// What each formula gives is a pixel.
pub fn results_are_pixels()
    ensures lowered { (b g r a : ℕ) → a < 256 → IsPixel (lowered b g r a) }
    ensures multiplied { (b g r a : ℕ) → b < 256 → g < 256 → r < 256 → a < 256 → IsPixel (multiplied b g r a) }
    ensures colour { (value : ℕ) → IsPixel (colour_pixel value) }
    ensures over { (s d : PixelView) → IsPixel s → IsPixel d → IsPixel (over s d) }
    ensures fade { (p : PixelView) (opacity : ℕ) → opacity ≤ 1000000 → IsPixel p → IsPixel (fade p opacity) }
    ensures key { (p : PixelView) (k : ℕ) → k < 256 → IsPixel p → IsPixel (key p k) }
    ensures mix { (old new : PixelView) (j d : ℕ) → j < d → IsPixel old → IsPixel new → IsPixel (mix old new j d) }
{}

/// A pixel has no colour to cut.
pub fn lowered_pixel()
    ensures { (p : PixelView) → IsPixel p → lowered p.b p.g p.r p.a ≡ p }
{}

/// A colour keeps its bytes in their order, multiplied by its alpha: at FF they stay, at 00 nothing is left.
pub fn colour_by_alpha()
    ensures bytes { (a r g b : ℕ) → a < 256 → r < 256 → g < 256 → b < 256
        → colour_pixel (colour_value a r g b) ≡ pixel_of (scaled b a) (scaled g a) (scaled r a) a }
    ensures opaque { (r g b : ℕ) → r < 256 → g < 256 → b < 256 → colour_pixel (colour_value 255 r g b) ≡ pixel_of b g r 255 }
    ensures clear { (r g b : ℕ) → r < 256 → g < 256 → b < 256 → colour_pixel (colour_value 0 r g b) ≡ transparent }
{}

/// The straight form of a colour byte is a byte, and gives the colour byte again when it is multiplied.
pub fn multiplied_straight_byte()
    ensures byte { (colour alpha : ℕ) → colour ≤ alpha → straight colour alpha < 256 }
    ensures back { (colour alpha : ℕ) → colour ≤ alpha → alpha < 256 → scaled (straight colour alpha) alpha ≡ colour }
{}

/// A transparent pixel changes nothing, above another or below it.
pub fn over_transparent()
    ensures upper { (p : PixelView) → over transparent p ≡ p }
    ensures lower { (p : PixelView) → over p transparent ≡ p }
{}

/// An opaque pixel hides what is below it.
pub fn over_opaque()
    ensures { (s d : PixelView) → s.a ≡ 255 → over s d ≡ s }
{}

/// Full opacity changes nothing, and opacity 0 leaves nothing.
pub fn fade_at_ends()
    ensures whole { (p : PixelView) → fade p 1000000 ≡ p }
    ensures nothing { (p : PixelView) → fade p 0 ≡ transparent }
{}

/// The key 255 changes nothing, and the key 0 leaves nothing.
pub fn key_at_ends()
    ensures whole { (p : PixelView) → key p 255 ≡ p }
    ensures nothing { (p : PixelView) → key p 0 ≡ transparent }
{}

/// A pixel that is mixed with itself stays as it is, at every step.
pub fn mix_of_equals()
    ensures { (p : PixelView) (j d : ℕ) → 0 < j → j < d → mix p p j d ≡ p }
{}
