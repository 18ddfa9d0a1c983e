//! Worked sounds, which the checker computes: the bytes of each pair, left and right, the lower byte first. Clip 0 has the pairs
//! 1000 and -1000, 32767 and -32768.
ghost use Rattle.std.specs.Prelude.{◌≡◌, ◌∷◌, [], pos, true, replicate};
ghost use Rattle.play_types.specs.declared.drawn.Still.TheVariants.{Channel, Colour, Frame, Nothing};
ghost use Rattle.play_sound.specs.Worked.{bytes_of, layer, tone, wipe};

/// A clip gives its own pairs and is silent in the others. A colour, nothing, a clip that is not there and a scene without
/// layers are silent.
pub fn stills()
    ensures clip { bytes_of 3 (tone 1000000 ∷ [])
        ≡ 0xE8 ∷ 0x03 ∷ 0x18 ∷ 0xFC ∷ 0xFF ∷ 0x7F ∷ 0x00 ∷ 0x80 ∷ 0 ∷ 0 ∷ 0 ∷ 0 ∷ [] }
    ensures fewer_pairs { bytes_of 1 (tone 1000000 ∷ []) ≡ 0xE8 ∷ 0x03 ∷ 0x18 ∷ 0xFC ∷ [] }
    ensures no_pairs { bytes_of 0 (tone 1000000 ∷ []) ≡ [] }
    ensures silent { bytes_of 2 (layer (Colour 0xFFFF0000) (pos 1000000) ∷ layer Nothing (pos 1000000) ∷ layer (Frame 1 0) (pos 1000000) ∷ [])
        ≡ replicate 8 0 }
    ensures no_layers { bytes_of 2 [] ≡ replicate 8 0 }
    ensures channel { bytes_of 4 (layer (Channel 1) (pos 1000000) ∷ [])
        ≡ 0x01 ∷ 0x00 ∷ 0xFF ∷ 0xFF ∷ 0x00 ∷ 0x01 ∷ 0x00 ∷ 0xFF ∷ 0xFF ∷ 0x7F ∷ 0x00 ∷ 0x80 ∷ 0 ∷ 0 ∷ 0 ∷ 0 ∷ [] }
{}

/// Two layers, one at half volume: 1500 and -1500, and sums that are clamped to 16 bits. Samples at a volume of a third are rounded
/// toward zero, and a volume of two makes a sample that is clamped.
pub fn volumes()
    ensures half_and_whole { bytes_of 3 (tone 500000 ∷ tone 1000000 ∷ [])
        ≡ 0xDC ∷ 0x05 ∷ 0x24 ∷ 0xFA ∷ 0xFF ∷ 0x7F ∷ 0x00 ∷ 0x80 ∷ 0 ∷ 0 ∷ 0 ∷ 0 ∷ [] }
    ensures third { bytes_of 2 (tone 333333 ∷ []) ≡ 0x4D ∷ 0x01 ∷ 0xB3 ∷ 0xFE ∷ 0xAA ∷ 0x2A ∷ 0x56 ∷ 0xD5 ∷ [] }
    ensures twice { bytes_of 2 (tone 2000000 ∷ []) ≡ 0xD0 ∷ 0x07 ∷ 0x30 ∷ 0xF8 ∷ 0xFF ∷ 0x7F ∷ 0x00 ∷ 0x80 ∷ [] }
{}

/// A wipe mixes the sounds: at step 1 of 4 three quarters of the old one are left, rounded toward zero. A keyer is heard.
pub fn transitions_and_keyers()
    ensures wipe { bytes_of 2 (record (layer Nothing (pos 1000000)) { old = Frame 0 0; trans = wipe; step = 1 } ∷ [])
        ≡ 0xEE ∷ 0x02 ∷ 0x12 ∷ 0xFD ∷ 0xFF ∷ 0x5F ∷ 0x00 ∷ 0xA0 ∷ [] }
    ensures ended { bytes_of 2 (record (layer Nothing (pos 1000000)) { old = Frame 0 0; trans = wipe; step = 4 } ∷ [])
        ≡ replicate 8 0 }
    ensures keyer { bytes_of 1 (record (tone 1000000) { keyer = true } ∷ []) ≡ 0xE8 ∷ 0x03 ∷ 0x18 ∷ 0xFC ∷ [] }
{}
