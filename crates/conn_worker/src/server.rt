//! What the connections of a server share.

use play_types::{Config, MediaNames};
use stage_lock::SharedStage;
use std::alloc::Global;

/// What the connections of a server share: the allocator, the stage, its configuration, and the names of the clips.
#[derive(Clone, Copy)]
pub struct Server<'a> {
    /// The allocator of sessions, commands and replies.
    pub alloc: Global,
    /// The stage.
    pub stage: &'a SharedStage,
    /// The configuration that the stage was made for.
    pub config: &'a Config,
    /// The names of the media table.
    pub media: &'a MediaNames,
}
