//! What commands act on, in a few cases.
ghost use Rattle.std.specs.Prelude.{◌≡◌};
ghost use Rattle.play_types.specs.Shape.{recording_channel};

use crate::place::Place;
use crate::rec_name::RecName;
use crate::setting::{Prop, Setting};
use crate::take::Take;

/// What a command does, and on what. [`Cmd::shape`](crate::Cmd::shape) classifies each command, and code that treats
/// many commands alike matches on these cases.
#[derive(Clone, Copy, Debug)]
pub enum CommandShape {
    /// Brings a take to a place.
    Take(Place, Take),
    /// Changes what a place holds, without a take.
    Change(Place),
    /// Removes what all places of a channel hold.
    ClearChannel(u8),
    /// Exchanges two places, with their mixer values if the last field is true.
    SwapLayers(Place, Place, bool),
    /// Exchanges all layers of two channels, with their mixer values if the last field is true.
    SwapChannels(u8, u8, bool),
    /// Sets a mixer value.
    Set(Setting),
    /// Starts the waiting settings of a channel.
    CommitMixer(u8),
    /// Sets mixer values to their defaults.
    Reset(Target),
    /// Marks where a recording begins or ends, and changes nothing that is shown.
    Record(Recording),
    /// Asks, and changes nothing.
    Ask(Query),
}

/// One place, or all places of a channel.
#[derive(Clone, Copy, Debug)]
pub enum Target {
    /// A layer of a channel.
    Layer(Place),
    /// All layers of a channel.
    Channel(u8),
}

/// A mark of a recording.
#[derive(Clone, Copy, Debug)]
pub enum Recording {
    /// A recording of this name begins on a channel.
    Begin(u8, RecName),
    /// The recording of a channel ends.
    End(u8),
}

impl Recording {
    /// Returns the channel of the mark.
    pub fn channel(self) -> u8
        ensures { result ≡ recording_channel self }
    {
        match self {
            Recording::Begin(channel, _) | Recording::End(channel) => channel,
        }
    }
}

/// What a command asks for.
#[derive(Clone, Copy, Debug)]
pub enum Query {
    /// A mixer value of a place.
    Value(Place, Prop),
    /// The status of all channels.
    Status,
}
