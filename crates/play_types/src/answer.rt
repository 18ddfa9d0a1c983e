//! Answers of the stage.
ghost use Rattle.std.specs.Prelude.{◌≡◌, ◌≤◌, ◌↔◌, IsSome, IfSome};
ghost use Rattle.play_types.specs.Words.{status_text};
ghost use Rattle.play_types.specs.Answer.{AreMicros, IsMicros, IsStatusList, micros_of, status_list_of};
ghost use Rattle.play_types.specs.declared.place.TheConstants.{MAX_CHANNELS};

use crate::place::MAX_CHANNELS;
use crate::setting::are_wide;
use std::marker::Model;

/// At most four mixer values, in millionths, each within -1,000,000,000 to 1,000,000,000. The first `count` are in use,
/// and the rest are 0.
#[derive(Clone, Copy, Debug, PartialEq, Eq)]
pub struct Micros {
    values: [i64; 4],
    count: u8,
}

impl Model for Micros {
    ghost use Rattle.play_types.specs.Answer.{MicrosView, IsMicros};

    ghost Value = { MicrosView };

    ghost view = { λ m. record { values = m.values; count = m.count } };

    ghost invariant = { λ m. IsMicros m.values m.count };

    ghost inverse = { λ v. record { values = v.values; count = v.count } };
}

impl Micros {
    /// Creates the list of the first `count` values. It returns `None` exactly if the count is above 4 or one of these
    /// values is out of range. The other values are dropped.
    pub fn new(values: [i64; 4], count: u8) -> Option<Micros>
        ensures exact { IsSome result ↔ AreMicros values count }
        ensures value { IfSome result (λ m. m ≡ micros_of values count) }
    {
        if count > 4 {
            return None;
        }
        let used = usize::from(count);
        if !are_wide(&values[..used]) {
            return None;
        }
        let mut kept = [0; 4];
        kept[..used].copy_from_slice(&values[..used]);
        Some(Micros {
            values: kept,
            count,
        })
    }

    /// Returns the values, in millionths. Those from the count on are 0.
    pub fn values(self) -> [i64; 4]
        ensures value { result ≡ self.values }
        ensures range { IsMicros self.values self.count }
    {
        self.values
    }

    /// Returns the number of values in use, 0 to 4.
    pub fn count(self) -> u8
        ensures value { result ≡ self.count }
        ensures range { IsMicros self.values self.count }
    {
        self.count
    }
}

/// What a channel does.
#[derive(Clone, Copy, Debug, PartialEq, Eq)]
pub enum Status {
    /// It has no foreground.
    Empty,
    /// It has a foreground, and all its foregrounds are paused.
    Paused,
    /// It has a foreground that is not paused.
    Playing,
}

impl Status {
    /// Returns the status in capitals, as INFO prints it.
    pub fn as_str(self) -> &'static str
        ensures { result.now ≡ status_text self }
    {
        match self {
            Status::Empty => "EMPTY",
            Status::Paused => "PAUSED",
            Status::Playing => "PLAYING",
        }
    }
}

/// The status of each channel. The first `count` are in use, and the rest are `Empty`.
#[derive(Clone, Copy, Debug, PartialEq, Eq)]
pub struct StatusList {
    channels: [Status; MAX_CHANNELS],
    count: u8,
}

impl Model for StatusList {
    ghost use Rattle.play_types.specs.Answer.{StatusListView, IsStatusList};

    ghost Value = { StatusListView };

    ghost view = { λ s. record { channels = s.channels; count = s.count } };

    ghost invariant = { λ s. IsStatusList s.channels s.count };

    ghost inverse = { λ v. record { channels = v.channels; count = v.count } };
}

impl StatusList {
    /// Creates the list of the first `count` statuses. It returns `None` exactly if the count is above 16. The other
    /// statuses are dropped.
    pub fn new(channels: [Status; MAX_CHANNELS], count: u8) -> Option<StatusList>
        ensures exact { IsSome result ↔ (count ≤ MAX_CHANNELS) }
        ensures value { IfSome result (λ s. s ≡ status_list_of channels count) }
    {
        let used = usize::from(count);
        if used > MAX_CHANNELS {
            return None;
        }
        let mut kept = [Status::Empty; MAX_CHANNELS];
        kept[..used].copy_from_slice(&channels[..used]);
        Some(StatusList {
            channels: kept,
            count,
        })
    }

    /// Returns the statuses. Those from the count on are `Empty`.
    pub fn channels(self) -> [Status; MAX_CHANNELS]
        ensures value { result ≡ self.channels }
        ensures range { IsStatusList self.channels self.count }
    {
        self.channels
    }

    /// Returns the number of statuses in use, 0 to 16.
    pub fn count(self) -> u8
        ensures value { result ≡ self.count }
        ensures range { IsStatusList self.channels self.count }
    {
        self.count
    }
}

/// The answer of the stage to a command or a batch.
#[derive(Clone, Copy, Debug, PartialEq, Eq)]
pub enum Answer {
    /// The command or the batch was done.
    Done,
    /// The mixer values that were asked for.
    Value(Micros),
    /// The status of the channels.
    Info(StatusList),
    /// A limit of the stage refused the command or the batch, and nothing changed.
    Refused,
}
