//! Reading a channel, or a layer of it, as in `1` or `1-20`.
ghost use Rattle.std.specs.Prelude.{◌≡◌, ◌≤◌, length, IfOk, ok_or, is_some};
ghost use Rattle.std.specs.Str.{chars};
ghost use Rattle.amcp_text.specs.Numbers.{number_within};
ghost use Rattle.play_types.specs.declared.place.TheConstants.{MAX_CHANNELS, MAX_LAYER};
ghost use Rattle.history_model.specs.commands.Line.{legal};
ghost use Rattle.history_model.specs.commands.Places.{area_at, area_of, place_of};

use crate::line::Line;
use amcp_text::word_within;
use play_types::{MAX_LAYER, Place, Refusal};
use std::marker::Model;

/// A channel, and a layer of it if one is written.
#[derive(Clone, Copy, Debug)]
pub struct Area {
    channel: u8,
    layer: Option<u16>,
}

impl Model for Area {
    ghost use Rattle.history_model.specs.commands.Places.{Area};
    ghost use Rattle.cmd_parse.specs.inner.Area.{IsArea};

    ghost Value = { Area };

    ghost view = { λ a. record { channel = a.channel; layer = a.layer } };

    ghost invariant = { λ a. IsArea a.channel a.layer };

    ghost inverse = { λ v. record { channel = v.channel; layer = v.layer } };
}

impl Area {
    /// Returns the place of the area: layer 0 if no layer is written.
    pub fn place(self) -> Place
        ensures { result ≡ place_of self }
    {
        Place::new(self.channel, self.layer.unwrap_or(0)).unwrap()
    }

    /// Returns the channel, 1 to `MAX_CHANNELS`.
    pub fn channel(self) -> u8
        ensures { result ≡ self.channel }
    {
        self.channel
    }

    /// Returns whether a layer is written.
    pub fn has_layer(self) -> bool
        ensures { result ≡ is_some self.layer }
    {
        self.layer.is_some()
    }
}

impl Line<'_> {
    /// Returns the area that the word at a position names: `c`, or `c-l`, split at its first dash.
    ///
    /// A line that ends before it is refused as `Missing`, then a channel that is not configured as `Channel`, and then a
    /// layer that is no whole number up to `MAX_LAYER` as `Illegal`.
    pub fn area(&self, at: usize) -> Result<Area, Refusal>
        ensures { result ≡ area_at self.now at }
    {
        let word = self.word(at)?;
        self.area_of(at, word)
    }

    /// Returns the area that `word` names, which is the word at position `at` or the end of it. Its refusals are those of
    /// `area`, except `Missing`.
    pub fn area_of(&self, at: usize, word: &str) -> Result<Area, Refusal>
        ensures { result ≡ area_of self.now at (chars word.now) }
    {
        let Some((channel, layer)) = word.split_once('-') else {
            let channel = self.channel(word)?;
            return Ok(Area {
                channel,
                layer: None,
            });
        };
        let channel = self.channel(channel)?;
        let layer = Some(self.layer(at, layer)?);
        Ok(Area { channel, layer })
    }

    /// Returns the configured channel that a text names.
    fn channel(&self, word: &str) -> Result<u8, Refusal>
        ensures value { result
            ≡ ok_or (number_within 1 (length self.now.config.channels) (chars word.now)) (Refusal.Channel self.now.name) }
        ensures range { IfOk result (λ channel. (1 ≤ channel) × (channel ≤ MAX_CHANNELS)) }
    {
        let channels = self.config.channels().len() as u32;
        match word_within(1, channels, word) {
            Some(channel) => Ok(channel as u8),
            None => Err(Refusal::Channel(self.name)),
        }
    }

    /// Returns the layer that a text names, which is a part of the word at a position. A text that names none is refused
    /// as `Illegal` at that position.
    fn layer(&self, at: usize, word: &str) -> Result<u16, Refusal>
        ensures value { result ≡ legal self.now at (number_within 0 MAX_LAYER (chars word.now)) }
        ensures range { IfOk result (λ layer. layer ≤ MAX_LAYER) }
    {
        match word_within(0, u32::from(MAX_LAYER), word) {
            Some(layer) => Ok(layer as u16),
            None => Err(self.illegal(at)),
        }
    }
}
