//! A row of the picture of a scene.
ghost use Rattle.std.specs.Prelude.{◌≡◌, ◌*◌, ◌<◌, ◌≤◌, length, flat_map, All};
ghost use Rattle.std.specs.List.{range_with_len};
ghost use Rattle.play_types.specs.Scene.{NamesConfigured};
ghost use Rattle.pixel_math.specs.Pixel.{pixel_bytes};
ghost use Rattle.history_model.specs.pictures.Frame.{scene_pixel};
ghost use Rattle.history_model.specs.pictures.Raster.{Pictures};
ghost use Rattle.play_scene.specs.Frames.{ArePictures, ArePixels};
ghost use Rattle.lane_blend.specs.Rows.{AreLowered, IsRow};

use crate::composition::compose_row;
use crate::kept::Kept;
use crate::room::{RowRoom, SpareRows};
use crate::view::View;
use clip_format::MediaTable;
use play_scene::Frames;
use play_types::{Geometry, Scene};

/// Writes row `y` of a frame of this size that shows a scene, by the frames of the tick before and the clips: at each column the
/// pixel that `play_scene::pixel` composes. No colour byte of the row is above its alpha. The room was made for at least the width,
/// `out` has four bytes a column, and the channels whose frames the scene shows are configured.
pub fn render_row(
    scene: &Scene,
    size: Geometry,
    prev: &Frames,
    media: &MediaTable,
    y: u16,
    out: &mut [u8],
    room: &mut RowRoom,
)
    requires row { y < size.height }
    requires names { All (NamesConfigured (length prev.now)) scene.now }
    requires out { length out.old ≡ 4 * size.width }
    requires room { size.width ≤ room.old }
    ensures picture { (pictures : Pictures) → ArePictures pictures prev.now media.now →
        out.new ≡ flat_map (λ x. pixel_bytes (scene_pixel pictures size scene.now x y)) (range_with_len 0 size.width) }
    ensures pixels { ArePixels out.new }
    ensures room { room.new ≡ room.old }
{
    let view = View {
        size,
        y,
        prev,
        media,
    };
    compose_with(&view, scene, out, &mut room.rows, &mut room.kept);
}

/// Writes the row of a scene, with the first bytes of the spare rows as scratch space.
fn compose_with(view: &View, scene: &Scene, row: &mut [u8], rows: &mut SpareRows, kept: &mut Kept)
    requires line { view.now.y < view.now.size.height }
    requires names { All (NamesConfigured (length view.now.prev.now)) scene.now }
    requires row { length row.old ≡ 4 * view.now.size.width }
    requires spare { view.now.size.width ≤ rows.old }
    ensures row { (pictures : Pictures) → ArePictures pictures view.now.prev.now view.now.media.now →
        IsRow view.now.size.width (λ x. scene_pixel pictures view.now.size scene.now x view.now.y) row.new }
    ensures lowered { AreLowered row.new }
    ensures spare { rows.new ≡ rows.old }
{
    let spare = 16 * usize::from(view.size.width);
    compose_row(view, scene, row, &mut rows.bytes[..spare], kept);
}
