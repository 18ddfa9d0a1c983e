//! Which ticks of a channel a film has.
ghost use Rattle.std.specs.Prelude.{◌≡◌};
ghost use Rattle.play_recorder.specs.Film.{IsFilm};
ghost use Rattle.play_recorder.specs.Recording.{is_recorded};
ghost use Rattle.play_recorder.specs.inner.Recorder.{is_over};

use std::marker::Model;

/// The recorded ticks of a channel, 1 to 1,000,000 of them. Each is a frame of the film.
#[derive(Clone, Copy, Debug, PartialEq, Eq)]
pub struct Film {
    /// The channel.
    pub channel: u8,
    /// The number of ticks of the history before the first recorded one.
    pub first: u64,
    /// The number of recorded ticks.
    pub frames: u32,
}

impl Model for Film {
    ghost use Rattle.history_model.specs.recordings.Film.{Span};
    ghost use Rattle.play_recorder.specs.Film.{IsFilm};

    ghost Value = { Span };

    ghost view = { λ f. record { channel = f.channel; first = f.first; frames = f.frames } };

    ghost invariant = { λ f. IsFilm (record { channel = f.channel; first = f.first; frames = f.frames }) };

    ghost inverse = { λ v. record { channel = v.channel; first = v.first; frames = v.frames } };
}

impl Film {
    /// Returns whether the tick after the first `before` ticks is recorded.
    pub(crate) fn has(&self, before: u64) -> bool
        ensures { result ≡ is_recorded self.now before }
    {
        self.first <= before && before - self.first < u64::from(self.frames)
    }

    /// Returns whether all recorded ticks are among the first `count` ticks.
    pub(crate) fn is_over(&self, count: u64) -> bool
        ensures { result ≡ is_over self.now count }
    {
        self.first <= count && count - self.first >= u64::from(self.frames)
    }
}
