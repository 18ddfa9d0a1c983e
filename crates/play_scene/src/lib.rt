//! The pictures of channels.
//!
//! [`Frames`] has the bytes of one frame of each channel. A player keeps two of them and exchanges them at each tick, without
//! allocating. [`visible_column`] returns which column of a layer's picture a column of the frame shows.
//!
//! [`pixel`] composes one pixel of a scene by the clips and the frames of the tick before, as the definitions of `history_model`
//! give it. The programs make whole rows of the same pixels instead, with `row_render`.
//!
//! [`laws`] says that the pixels of a scene are those of the history, from tick to tick, and [`examples`] has worked pictures.
#![tactic(auto)]

mod composition;
pub mod examples;
mod frames;
pub mod laws;
mod part;
mod placing;

pub use composition::pixel;
pub use frames::Frames;
pub use placing::visible_column;
