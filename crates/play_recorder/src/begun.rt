//! A recording that has begun.
ghost use Rattle.std.specs.Prelude.{◌≡◌, Some, unwrap_or};
ghost use Rattle.history_model.specs.recordings.Film.{span_of};
ghost use Rattle.play_recorder.specs.Finder.{HasBegun};
ghost use Rattle.play_recorder.specs.inner.Begun.{marked};

use crate::film::Film;
use play_types::{MAX_FRAMES, Recording};
use std::marker::Model;

/// A recording of a channel: the number of ticks before it, and the number of ticks before its end, which is `None` while it runs.
#[derive(Clone, Copy, Debug)]
pub(crate) struct Begun {
    pub(crate) channel: u8,
    pub(crate) first: u64,
    pub(crate) end: Option<u64>,
}

impl Model for Begun {
    ghost use Rattle.history_model.specs.recordings.Film.{Begun};

    ghost Value = { Begun };

    ghost view = { λ b. record { channel = b.channel; first = b.first; end = b.end } };

    ghost inverse = { λ v. record { channel = v.channel; first = v.first; end = v.end } };
}

impl Begun {
    /// Returns the recording after a mark that comes after `ticks` ticks: a mark of its channel ends it, if it runs.
    pub(crate) fn marked(self, mark: Recording, ticks: u64) -> Begun
        ensures { result ≡ marked ticks mark self }
    {
        if self.end.is_none() && mark.channel() == self.channel {
            Begun {
                end: Some(ticks),
                ..self
            }
        } else {
            self
        }
    }

    /// Returns the film of the recording after `ticks` ticks: `None` exactly if no tick is recorded.
    pub(crate) fn film(self, ticks: u64) -> Option<Film>
        requires { HasBegun ticks self }
        ensures { result ≡ span_of ticks self }
    {
        let count = self.end.unwrap_or(ticks) - self.first;
        if count == 0 {
            return None;
        }
        Some(Film {
            channel: self.channel,
            first: self.first,
            frames: count.min(u64::from(MAX_FRAMES)) as u32,
        })
    }
}
