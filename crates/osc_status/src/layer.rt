//! The status of a layer.

use play_types::Spec;

/// The status of a layer, by its foreground.
#[derive(Clone, Copy, Debug, PartialEq, Eq)]
pub struct LayerStatus {
    /// The channel, from 1.
    pub channel: u8,
    /// The layer of the channel.
    pub layer: u16,
    /// What the foreground plays.
    pub spec: Spec,
    /// The frame of the clip at which the foreground is, counted from 0; 0 for another producer.
    pub frame: u32,
    /// The number of frames that are played of the clip; 0 for another producer.
    pub length: u32,
    /// Whether the foreground is paused.
    pub paused: bool,
}
