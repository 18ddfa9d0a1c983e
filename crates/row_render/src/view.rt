//! What a row of a frame can show.

use clip_format::MediaTable;
use play_scene::Frames;
use play_types::Geometry;

/// The size of a frame, the row of it that is made, and the frames of the tick before and the clips that its layers show.
#[derive(Drop)]
pub(crate) struct View<'a> {
    pub(crate) size: Geometry,
    pub(crate) y: u16,
    pub(crate) prev: &'a Frames,
    pub(crate) media: &'a MediaTable,
}
