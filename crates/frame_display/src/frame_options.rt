//! How frames are made and written.

/// How the frames of a run are made and written.
#[derive(Clone, Copy, Debug)]
pub struct FrameOptions {
    /// Whether frames are written as digests.
    pub digests: bool,
    /// The number of threads that make the frames, 1 to 64.
    pub workers: u32,
}
