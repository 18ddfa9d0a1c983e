//! The configuration of a server.
ghost use Rattle.std.specs.Prelude.{◌≡◌, ◌==◌, ◌<◌, ◌≤◌, ◌↔◌, ◌∷◌, ◌++◌, [], length, All, IsSome, IfSome, OnOk, OnErr, option_copied, slice_get};
ghost use Rattle.std.specs.Slice.Iter.{iter_rest};
ghost use Rattle.play_types.specs.Config.{AreConfigParts, IsChannel, IsConfig};

use crate::geometry::Geometry;
use crate::place::MAX_CHANNELS;
use crate::text::Text;
use std::alloc::{AllocError, Global};
use std::marker::Model;
use std::slice;

/// The most pulses per second.
pub const MAX_RATE: u32 = 240;

/// The most connection workers.
pub const MAX_CONNECTIONS: u32 = 64;

/// The most commands that a history may be set up to hold.
pub const MAX_JOURNAL_COMMANDS: u32 = 16_777_216;

/// A channel of the server: the size of its frames, and where they go.
#[derive(Debug, Drop)]
pub struct Channel {
    width: u16,
    height: u16,
    pairs: u16,
    output: Text,
}

impl Model for Channel {
    ghost use Rattle.play_types.specs.Config.{ChannelView, IsChannel};

    ghost Value = { ChannelView };

    ghost view = { λ c. record { width = c.width; height = c.height; pairs = c.pairs; output = c.output } };

    ghost invariant = { λ c. IsChannel (record { width = c.width; height = c.height; pairs = c.pairs; output = c.output }) };
}

impl Channel {
    /// Creates a channel. It returns `None` exactly if the width or the height is not 1 to 4096, the pairs are above
    /// 4096, or the output is empty.
    pub fn new(width: u16, height: u16, pairs: u16, output: Text) -> Option<Channel>
        ensures exact { IsSome result
            ↔ IsChannel (record { width = width; height = height; pairs = pairs; output = output }) }
        ensures value { IfSome result
            (λ c. c ≡ record { width = width; height = height; pairs = pairs; output = output }) }
    {
        let size = Geometry {
            width,
            height,
            pairs,
        };
        if !size.is_in_range() || output.is_empty() {
            return None;
        }
        Some(Channel {
            width,
            height,
            pairs,
            output,
        })
    }

    /// Returns the width in columns, 1 to 4096.
    pub fn width(&self) -> u16
        ensures value { result ≡ self.now.width }
        ensures range { IsChannel self.now }
    {
        self.width
    }

    /// Returns the height in rows, 1 to 4096.
    pub fn height(&self) -> u16
        ensures value { result ≡ self.now.height }
        ensures range { IsChannel self.now }
    {
        self.height
    }

    /// Returns the stereo pairs of sound of a frame, at most 4096.
    pub fn pairs(&self) -> u16
        ensures value { result ≡ self.now.pairs }
        ensures range { IsChannel self.now }
    {
        self.pairs
    }

    /// Returns the name of the file that the frames are written to, which is not empty.
    pub fn output(&self) -> &Text
        ensures value { result.now ≡ self.now.output }
        ensures range { IsChannel self.now }
    {
        &self.output
    }

    /// Returns the size of the frames and of their sound.
    pub fn geometry(&self) -> Geometry
        ensures value { result
            ≡ record { width = self.now.width; height = self.now.height; pairs = self.now.pairs } }
        ensures range { IsChannel self.now }
    {
        Geometry {
            width: self.width,
            height: self.height,
            pairs: self.pairs,
        }
    }
}

/// Channels in order: the first one is channel 1.
#[derive(Debug, Drop)]
pub struct ChannelList {
    channels: Vec<Channel>,
}

impl Model for ChannelList {
    ghost use Rattle.std.specs.Prelude.{List, All};
    ghost use Rattle.play_types.specs.Config.{ChannelView, IsChannel};

    ghost Value = { List ChannelView };

    ghost view = { λ l. l.channels.items };

    ghost invariant = { λ l. All IsChannel l.channels.items };
}

impl ChannelList {
    /// Creates a list without channels. It does not allocate.
    pub fn new(alloc: Global) -> ChannelList
        ensures { result ≡ [] }
    {
        ChannelList {
            channels: Vec::new(alloc),
        }
    }

    /// Adds a channel at the end. If memory runs out, the list stays as it was.
    pub fn push(&mut self, channel: Channel) -> Result<(), AllocError>
        ensures ok { OnOk result (self.new ≡ self.old ++ channel ∷ []) }
        ensures err { OnErr result (self.new ≡ self.old) }
    {
        // Reading a field makes the channel's range known, which the invariant of the list needs.
        let _ = &channel.width;
        self.channels.push(channel)?;
        Ok(())
    }

    /// Returns the number of channels.
    pub fn len(&self) -> usize
        ensures value { result ≡ length self.now }
        ensures channels { All IsChannel self.now }
    {
        self.channels.len()
    }

    /// Returns whether there are no channels.
    pub fn is_empty(&self) -> bool
        ensures { result ≡ (length self.now == 0) }
    {
        self.channels.is_empty()
    }

    /// Returns the channels in order.
    pub fn iter(&self) -> slice::Iter<'_, Channel>
        ensures { iter_rest result ≡ self.now }
    {
        self.channels.iter()
    }

    /// Returns the channel at position `at`, counted from 0: `None` exactly if `at` is not below the length.
    pub fn get(&self, at: usize) -> Option<&Channel>
        ensures { option_copied result ≡ slice_get self.now at }
    {
        self.channels.get(at)
    }
}

/// What a server is started with.
#[derive(Debug, Drop)]
pub struct Config {
    listen: Text,
    media: Text,
    rate: u32,
    connections: u32,
    journal_limit: u32,
    channels: ChannelList,
}

impl Model for Config {
    ghost use Rattle.play_types.specs.Config.{ConfigView, IsConfig};

    ghost Value = { ConfigView };

    ghost view = { λ c. record { listen = c.listen; media = c.media; rate = c.rate; connections = c.connections; journal_limit = c.journal_limit; channels = c.channels } };

    ghost invariant = { λ c. IsConfig (record { listen = c.listen; media = c.media; rate = c.rate; connections = c.connections; journal_limit = c.journal_limit; channels = c.channels }) };
}

impl Config {
    /// Creates a configuration. It returns `None` exactly if the address or the media folder is empty, the rate is not
    /// 1 to 240, the connections are not 1 to 64, the journal's limit is not 1 to 16,777,216, or the channels are not 1 to
    /// 16.
    pub fn new(
        listen: Text,
        media: Text,
        rate: u32,
        connections: u32,
        journal_limit: u32,
        channels: ChannelList,
    ) -> Option<Config>
        ensures exact { IsSome result
            ↔ AreConfigParts (record { listen = listen; media = media; rate = rate; connections = connections; journal_limit = journal_limit; channels = channels }) }
        ensures value { IfSome result
            (λ c. c ≡ record { listen = listen; media = media; rate = rate; connections = connections; journal_limit = journal_limit; channels = channels }) }
    {
        if listen.is_empty() || media.is_empty() || !(1..=MAX_CHANNELS).contains(&channels.len()) {
            return None;
        }
        if !(1..=MAX_RATE).contains(&rate)
            || !(1..=MAX_CONNECTIONS).contains(&connections)
            || !(1..=MAX_JOURNAL_COMMANDS).contains(&journal_limit)
        {
            return None;
        }
        Some(Config {
            listen,
            media,
            rate,
            connections,
            journal_limit,
            channels,
        })
    }

    /// Returns the address to listen on, which is not empty.
    pub fn listen(&self) -> &Text
        ensures value { result.now ≡ self.now.listen }
        ensures range { IsConfig self.now }
    {
        &self.listen
    }

    /// Returns the folder of the media, which is not empty.
    pub fn media(&self) -> &Text
        ensures value { result.now ≡ self.now.media }
        ensures range { IsConfig self.now }
    {
        &self.media
    }

    /// Returns the pulses per second, 1 to 240.
    pub fn rate(&self) -> u32
        ensures value { result ≡ self.now.rate }
        ensures range { IsConfig self.now }
    {
        self.rate
    }

    /// Returns the number of connection workers, 1 to 64.
    pub fn connections(&self) -> u32
        ensures value { result ≡ self.now.connections }
        ensures range { IsConfig self.now }
    {
        self.connections
    }

    /// Returns the most commands that the history may hold, 1 to 16,777,216.
    pub fn journal_limit(&self) -> u32
        ensures value { result ≡ self.now.journal_limit }
        ensures range { IsConfig self.now }
    {
        self.journal_limit
    }

    /// Returns the 1 to 16 channels.
    pub fn channels(&self) -> &ChannelList
        ensures value { result.now ≡ self.now.channels }
        ensures range { IsConfig self.now }
    {
        &self.channels
    }
}
