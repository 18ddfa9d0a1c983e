//! The take that a line asks for.
ghost use Rattle.std.specs.Prelude.{◌≡◌, ◌+◌, ◌^◌, ◌<◌, ◌≤◌};
ghost use Rattle.play_types.specs.Take.{IsTake};
ghost use Rattle.history_model.specs.commands.Producer.{played_length, take_at, take_for, take_with};

use crate::line::Line;
use crate::options::Options;
use crate::producer::Producer;
use play_types::{Refusal, Spec, Take};

impl Line<'_> {
    /// Returns the take of the producer at a position and the options after it. A refusal of the options comes before one
    /// of the producer.
    #[tactic(auto, unfolding(history_model::specs::commands::Producer::take_at))]
    pub fn take(&self, at: usize) -> Result<Take, Refusal>
        requires { at + 1 < 2 ^ 64 }
        ensures { result ≡ take_at self.now at }
    {
        let options = self.options(at + 1)?;
        let word = self.word(at)?;
        let producer = self.producer(at, word)?;
        take_with(options, producer).ok_or(self.illegal(at))
    }
}

/// Returns the take of a producer with these options. There is none if the first frame that is played lies at or past
/// the end of a clip.
fn take_with(options: Options, producer: Producer) -> Option<Take>
    ensures { result ≡ take_with options producer.frames producer.spec }
{
    match producer.spec() {
        Spec::Clip(id) => {
            let seek = options.seek();
            if seek >= producer.frames() {
                return None;
            }
            let length = played_length(options.length(), producer.frames() - seek);
            Some(take_for(Spec::Clip(id), options, length))
        }
        Spec::Colour(value) => Some(take_for(Spec::Colour(value), options, 0)),
        Spec::RouteChannel(channel) => Some(take_for(Spec::RouteChannel(channel), options, 0)),
        Spec::RouteLayer(place) => Some(take_for(Spec::RouteLayer(place), options, 0)),
    }
}

/// Returns the number of frames of a clip that are played if `rest` frames are left: at most `length` of them, or all
/// if no length was given.
fn played_length(length: Option<u32>, rest: u32) -> u32
    ensures { result ≡ played_length length rest }
{
    match length {
        Some(length) => length.min(rest),
        None => rest,
    }
}

/// Returns the take of a producer with these options and this length in frames, which is 0 if the producer is no clip.
fn take_for(spec: Spec, options: Options, length: u32) -> Take
    requires { IsTake spec options.seek length }
    ensures { result ≡ take_for spec options length }
{
    Take::new(
        spec,
        options.looped(),
        options.seek(),
        length,
        options.transition(),
        options.auto(),
    )
    .unwrap()
}
