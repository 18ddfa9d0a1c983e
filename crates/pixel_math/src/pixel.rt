//! Pixels.
ghost use Rattle.std.specs.Prelude.{◌≡◌};
ghost use Rattle.pixel_math.specs.Pixel.{IsPixel, colour_pixel, lowered, multiplied, pixel_bytes, pixel_of, transparent};

use crate::byte::scaled;
use std::marker::Model;

/// Blue, green, red and alpha, the colours multiplied by the alpha: no colour is above the alpha.
#[derive(Clone, Copy, Debug, PartialEq, Eq)]
pub struct Pixel {
    b: u8,
    g: u8,
    r: u8,
    a: u8,
}

impl Model for Pixel {
    ghost use Rattle.pixel_math.specs.Pixel.{PixelView, IsPixel, pixel_of};

    ghost Value = { PixelView };

    ghost view = { λ p. pixel_of p.b p.g p.r p.a };

    ghost invariant = { λ p. IsPixel (pixel_of p.b p.g p.r p.a) };

    ghost inverse = { λ v. record { b = v.b; g = v.g; r = v.r; a = v.a } };
}

impl Pixel {
    /// Returns the pixel of nothing: all four bytes are 0.
    pub fn transparent() -> Pixel
        ensures { result ≡ transparent }
    {
        Pixel {
            b: 0,
            g: 0,
            r: 0,
            a: 0,
        }
    }

    /// Makes the pixel of these bytes, of which no colour is above the alpha.
    pub(crate) fn new(b: u8, g: u8, r: u8, a: u8) -> Pixel
        requires { IsPixel (pixel_of b g r a) }
        ensures { result ≡ pixel_of b g r a }
    {
        Pixel { b, g, r, a }
    }

    /// Makes the pixel of these bytes, with each colour above the alpha cut to the alpha.
    pub fn lowered(b: u8, g: u8, r: u8, a: u8) -> Pixel
        ensures { result ≡ lowered b g r a }
    {
        Pixel {
            b: b.min(a),
            g: g.min(a),
            r: r.min(a),
            a,
        }
    }

    /// Makes the pixel of these bytes, with each colour multiplied by the alpha.
    pub fn multiplied(b: u8, g: u8, r: u8, a: u8) -> Pixel
        ensures { result ≡ multiplied b g r a }
    {
        Pixel {
            b: scaled(b, a),
            g: scaled(g, a),
            r: scaled(r, a),
            a,
        }
    }

    /// Makes the pixel of a colour `0xAARRGGBB`, whose red, green and blue are not yet multiplied by its alpha.
    pub fn colour(value: u32) -> Pixel
        ensures { result ≡ colour_pixel value }
    {
        let [a, r, g, b] = value.to_be_bytes();
        Pixel::multiplied(b, g, r, a)
    }

    /// Returns blue, green, red and alpha, the order of a frame's bytes.
    pub fn bytes(self) -> [u8; 4]
        ensures { result ≡ pixel_bytes self }
    {
        [self.b, self.g, self.r, self.a]
    }

    /// Returns the blue, multiplied by the alpha.
    pub fn b(self) -> u8
        ensures value { result ≡ self.b }
        ensures range { IsPixel self }
    {
        self.b
    }

    /// Returns the green, multiplied by the alpha.
    pub fn g(self) -> u8
        ensures value { result ≡ self.g }
        ensures range { IsPixel self }
    {
        self.g
    }

    /// Returns the red, multiplied by the alpha.
    pub fn r(self) -> u8
        ensures value { result ≡ self.r }
        ensures range { IsPixel self }
    {
        self.r
    }

    /// Returns the alpha: 0 is transparent, 255 opaque.
    pub fn a(self) -> u8
        ensures value { result ≡ self.a }
        ensures range { IsPixel self }
    {
        self.a
    }
}
