//! Worked pictures, computed by the checker, on rasters of one row: mostly the red of each pixel. Clip 0 has one frame of the
//! columns 10, 20, 30 and 40, and clip 1 has the frames 0, 80 and 160 of one pixel each.
ghost use Rattle.std.specs.Prelude.{◌≡◌, ◌∷◌, [], true};
ghost use Rattle.play_types.specs.declared.take.Spec.TheVariants.{Clip, Colour, RouteChannel};
ghost use Rattle.play_types.specs.declared.drawn.Still.TheVariants as still;
ghost use Rattle.play_scene.specs.Frames.{pixels_of, with_piece, with_pixels};
ghost use Rattle.play_scene.specs.Worked.{bars, bytes_of, frame_before, frame_beside, played, reds, reds_of, row_of, steps};

pub mod scenes;

/// Four columns on a raster of another width: each column shows the one in which its middle lies.
pub fn columns_of_a_clip()
    ensures one { row_of bars 0 1 ≡ 30 ∷ [] }
    ensures two { row_of bars 0 2 ≡ 20 ∷ 40 ∷ [] }
    ensures three { row_of bars 0 3 ≡ 10 ∷ 30 ∷ 40 ∷ [] }
    ensures five { row_of bars 0 5 ≡ 10 ∷ 20 ∷ 30 ∷ 30 ∷ 40 ∷ [] }
    ensures eight { row_of bars 0 8 ≡ 10 ∷ 10 ∷ 20 ∷ 20 ∷ 30 ∷ 30 ∷ 40 ∷ 40 ∷ [] }
{}

/// A clip goes on by one frame a tick, from its seek on. It ends on the last frame that is played, or begins anew.
pub fn frames_of_a_clip()
    ensures first { row_of steps 0 1 ≡ 0 ∷ [] }
    ensures third { row_of steps 2 1 ≡ 160 ∷ [] }
    ensures ended { row_of steps 9 1 ≡ 160 ∷ [] }
    ensures looped { row_of (record steps { looped = true }) 4 1 ≡ 80 ∷ [] }
    ensures sought { row_of (played (Clip 1) 1 2) 0 1 ≡ 80 ∷ [] }
    ensures shortened { row_of (played (Clip 1) 0 2) 9 1 ≡ 80 ∷ [] }
{}

/// A colour fills every column. A frame that the clip does not have, a file that is not readable, a number without a clip and a
/// route are transparent.
pub fn other_pictures()
    ensures colour { row_of (played (Colour 0xFF400000) 0 0) 5 2 ≡ 64 ∷ 64 ∷ [] }
    ensures no_frame { row_of (played (Clip 1) 2 2) 1 1 ≡ 0 ∷ [] }
    ensures unreadable { row_of (played (Clip 2) 0 1) 0 1 ≡ 0 ∷ [] }
    ensures no_clip { row_of (played (Clip 3) 0 1) 0 1 ≡ 0 ∷ [] }
    ensures route { row_of (played (RouteChannel 1) 0 0) 0 1 ≡ 0 ∷ [] }
{}

/// A layer lies over those before it, by its alpha: blue, green, red and alpha of one pixel. A layer that shows nothing, and a
/// scene without layers, change nothing.
pub fn colours_over_one_another()
    ensures nothing { bytes_of [] 1 ≡ 0 ∷ 0 ∷ 0 ∷ 0 ∷ [] }
    ensures half_red_above { bytes_of (still.Colour 0xFF0000FF ∷ still.Colour 0x80FF0000 ∷ []) 1 ≡ 127 ∷ 0 ∷ 128 ∷ 255 ∷ [] }
    ensures blue_above { bytes_of (still.Colour 0x80FF0000 ∷ still.Colour 0xFF0000FF ∷ []) 1 ≡ 255 ∷ 0 ∷ 0 ∷ 255 ∷ [] }
    ensures two_halves { bytes_of (still.Colour 0x800000FF ∷ still.Colour 0x80FF0000 ∷ []) 1 ≡ 64 ∷ 0 ∷ 128 ∷ 192 ∷ [] }
    ensures nothing_above { bytes_of (still.Colour 0x80FF0000 ∷ still.Nothing ∷ []) 1 ≡ 0 ∷ 0 ∷ 128 ∷ 128 ∷ [] }
{}

/// A clip shines through a translucent colour above it, and hides an opaque one below it.
pub fn clip_and_colours()
    ensures below { reds_of (still.Frame 0 0 ∷ still.Colour 0x80FF0000 ∷ []) 4 ≡ 133 ∷ 138 ∷ 143 ∷ 148 ∷ [] }
    ensures above { reds_of (still.Colour 0xFFFF0000 ∷ still.Frame 0 0 ∷ []) 4 ≡ 10 ∷ 20 ∷ 30 ∷ 40 ∷ [] }
    ensures no_frame { reds_of (still.Colour 0xFFFF0000 ∷ still.Frame 0 1 ∷ []) 2 ≡ 255 ∷ 255 ∷ [] }
{}

/// The frame of a channel at the tick before has its own width.
pub fn frame_of_a_channel()
    ensures wider { reds_of (still.Channel 1 ∷ []) 4 ≡ 50 ∷ 50 ∷ 60 ∷ 60 ∷ [] }
    ensures narrower { reds_of (still.Channel 1 ∷ []) 1 ≡ 60 ∷ [] }
{}

/// A piece replaces the bytes where it is put.
pub fn piece_of_bytes()
    ensures { with_piece 2 (7 ∷ 8 ∷ []) (0 ∷ 1 ∷ 2 ∷ 3 ∷ 4 ∷ []) ≡ 0 ∷ 1 ∷ 7 ∷ 8 ∷ 4 ∷ [] }
{}

/// Frames of two columns and of one get the pixels of both, one after another.
pub fn pixels_of_frames()
    ensures parted { with_pixels (reds (1 ∷ 2 ∷ 3 ∷ [])) (frame_before ∷ frame_beside ∷ [])
        ≡ record frame_before { bytes = reds (1 ∷ 2 ∷ []) } ∷ record frame_beside { bytes = reds (3 ∷ []) } ∷ [] }
    ensures joined { pixels_of (frame_before ∷ frame_beside ∷ []) ≡ reds (50 ∷ 60 ∷ 70 ∷ []) }
{}
