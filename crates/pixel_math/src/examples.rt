//! Worked examples of the formulas. Each is a function that does nothing, and its contract is the example. Bytes are in the order
//! blue, green, red, alpha.
ghost use Rattle.std.specs.Prelude.{◌≡◌, ◌<◌, [], ◌∷◌};
ghost use Rattle.pixel_math.specs.Arithmetic.{fade, key, mix, over};
ghost use Rattle.pixel_math.specs.Pixel.{colour_pixel, lowered, multiplied, pixel_bytes, pixel_of, straight, transparent};

/// A colour byte above its alpha becomes the alpha.
pub fn lowered_bytes()
    ensures some { lowered 200 100 50 100 ≡ pixel_of 100 100 50 100 }
    ensures all { lowered 255 255 1 0 ≡ transparent }
    ensures none { lowered 0 127 128 128 ≡ pixel_of 0 127 128 128 }
{}

/// Each colour byte is multiplied by its alpha and rounded to the nearest byte.
pub fn colours()
    ensures half_red { colour_pixel 0x80FF0000 ≡ pixel_of 0 0 128 128 }
    ensures opaque { colour_pixel 0xFF0A80FF ≡ pixel_of 255 128 10 255 }
    ensures quarter { colour_pixel 0x40C08020 ≡ pixel_of 8 32 48 64 }
    ensures rounded { colour_pixel 0x01FF7F80 ≡ pixel_of 1 0 1 1 }
    ensures clear { colour_pixel 0x00FFFFFF ≡ transparent }
{}

/// A straight pixel of half opacity is multiplied, and its colours are found again. A pixel without opacity has none.
pub fn straight_colours()
    ensures multiplied { multiplied 0 0 255 128 ≡ pixel_of 0 0 128 128 }
    ensures whole { straight 128 128 ≡ 255 }
    ensures rounded_up { straight 2 3 ≡ 170 }
    ensures half_up { straight 1 2 ≡ 128 }
    ensures rounded_down { straight 1 7 ≡ 36 }
    ensures opaque { straight 77 255 ≡ 77 }
    ensures clear { straight 0 0 ≡ 0 }
{}

/// A frame has blue first and alpha last.
pub fn bytes_of_colours()
    ensures red { pixel_bytes (colour_pixel 0xFFFF0000) ≡ 0 ∷ 0 ∷ 255 ∷ 255 ∷ [] }
    ensures blue { pixel_bytes (colour_pixel 0xFF0000FF) ≡ 255 ∷ 0 ∷ 0 ∷ 255 ∷ [] }
{}

/// Half red over opaque blue and over half blue, and half blue over half red.
pub fn pixels_over_pixels()
    ensures opaque_blue { over (pixel_of 0 0 128 128) (pixel_of 255 0 0 255) ≡ pixel_of 127 0 128 255 }
    ensures half_blue { over (pixel_of 0 0 128 128) (pixel_of 128 0 0 128) ≡ pixel_of 64 0 128 192 }
    ensures blue_above { over (pixel_of 128 0 0 128) (pixel_of 0 0 128 128) ≡ pixel_of 128 0 64 192 }
{}

/// Red at half opacity, blue at a quarter, and the least byte on both sides of a half.
pub fn faded_pixels()
    ensures half { fade (pixel_of 0 0 255 255) 500000 ≡ pixel_of 0 0 128 128 }
    ensures quarter { fade (pixel_of 255 0 0 255) 250000 ≡ pixel_of 64 0 0 64 }
    ensures below { fade (pixel_of 1 1 1 1) 499999 ≡ transparent }
    ensures above { fade (pixel_of 1 1 1 1) 500000 ≡ pixel_of 1 1 1 1 }
{}

/// Red under a key of 128, a pixel under a fifth, and one under the least key.
pub fn keyed_pixels()
    ensures half { key (pixel_of 0 0 255 255) 128 ≡ pixel_of 0 0 128 128 }
    ensures fifth { key (pixel_of 40 80 100 200) 51 ≡ pixel_of 8 16 20 40 }
    ensures least { key (pixel_of 127 128 0 200) 1 ≡ pixel_of 0 1 0 1 }
{}

/// From blue to red at step 1 of 2, at steps 1 and 3 of 4, and from nothing to white at step 1 of 3.
pub fn mixed_pixels()
    ensures middle { mix (pixel_of 255 0 0 255) (pixel_of 0 0 255 255) 1 2 ≡ pixel_of 128 0 128 255 }
    ensures first { mix (pixel_of 255 0 0 255) (pixel_of 0 0 255 255) 1 4 ≡ pixel_of 191 0 64 255 }
    ensures last { mix (pixel_of 255 0 0 255) (pixel_of 0 0 255 255) 3 4 ≡ pixel_of 64 0 191 255 }
    ensures third { mix transparent (pixel_of 255 255 255 255) 1 3 ≡ pixel_of 85 85 85 85 }
{}
