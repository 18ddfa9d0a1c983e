//! The devices of a run.

/// What a run reads and writes. In a clause `exit.0`, `exit.1.0` and `exit.1.1.0` of it are the input, the media and the output afterwards.
#[derive(Drop)]
pub struct Devices<'a, I, M, O> {
    /// The script, the cue sheet or the clip that is read.
    pub input: &'a mut I,
    /// The configurations, and the folders of clips.
    pub media: &'a mut M,
    /// Where replies, frames and the line of a fault are written.
    pub out: &'a mut O,
}
