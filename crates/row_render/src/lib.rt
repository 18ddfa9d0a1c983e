//! One row of the picture of a channel.
//!
//! [`render_row`] writes a row of the picture that `play_scene::pixel` composes pixel by pixel. It makes the row of each layer once,
//! with its transition, its fill, its clip and its opacity, and lays whole rows over one another. It does not allocate: its scratch
//! space is a [`RowRoom`], which is made once.
#![tactic(auto)]

mod columns;
mod composition;
mod covering;
mod kept;
mod layer;
mod placing;
mod raster;
mod rendering;
mod room;
mod scaled;
mod scaling;
mod shown;
mod source;
mod view;

pub use rendering::render_row;
pub use room::RowRoom;
