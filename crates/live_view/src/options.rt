//! How a view makes frames.

/// How a view makes frames.
#[derive(Clone, Copy, Debug)]
pub struct ViewOptions {
    /// Whether it makes frames, and has pages of pictures and levels of sound.
    pub pictures: bool,
    /// The number of threads that make the frames, 1 to 64.
    pub workers: u32,
}
