//! Placing by the default values.
ghost use Rattle.std.specs.Prelude.{◌≡◌, ℕ, ◌<◌, pos, Some};
ghost use Rattle.play_types.specs.declared.geometry.Geometry.{Geometry};
ghost use Rattle.play_types.specs.declared.setting.TheConstants.{MICROS_PER_UNIT};
ghost use Rattle.play_types.specs.declared.setting.Prop.TheVariants.{Clip, Fill};
ghost use Rattle.pixel_math.specs.Pixel.{PixelView};
ghost use Rattle.history_model.specs.pictures.Placing.{placed_pixel, visible_column};
ghost use Rattle.history_model.specs.stage.Value.{default_of};

/// With the default fill and clip every column and row of a frame shows the raster's column and row of its number, at every
/// size, and at full opacity a placed pixel is the raster's.
pub fn default_placing()
    ensures columns { (width x : ℕ) → x < width → visible_column width (default_of Fill) (default_of Clip) 0 x ≡ Some x }
    ensures rows { (height y : ℕ) → y < height → visible_column height (default_of Fill) (default_of Clip) 1 y ≡ Some y }
    ensures pixel { (frame : Geometry) (raster : ℕ → ℕ → PixelView) (x y : ℕ) → x < frame.width → y < frame.height →
        placed_pixel frame (record { fill = default_of Fill; clip = default_of Clip; opacity = MICROS_PER_UNIT }) raster x y ≡ raster x y }
{}
