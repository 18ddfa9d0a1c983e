//! What is at a path.
ghost use Rattle.std.specs.Prelude.{◌≡◌, ◌<◌, ◌^◌, ℕ, option_copied, option_map};
ghost use Rattle.live_view.specs.Target.{after_prefix, before_suffix, channel_in, target_of};

use amcp_text::plain_number_within;

/// What is at a path.
#[derive(Clone, Copy, Debug, PartialEq, Eq)]
pub enum Target {
    /// The page for browsers.
    Home,
    /// The state of all channels.
    Status,
    /// The events of the history.
    Events,
    /// The picture of this channel.
    Picture(u8),
    /// Nothing.
    Nowhere,
}

impl Target {
    /// Returns what is at a path, if there are `channels` channels, at most 255.
    pub fn of(channels: usize, path: &str) -> Target
        requires { channels < 256 }
        ensures { result ≡ target_of channels path.now }
    {
        match path {
            "/" => Target::Home,
            "/status" => Target::Status,
            "/events" => Target::Events,
            _ => match channel_in(channels, path.as_bytes()) {
                Some(channel) => Target::Picture(channel),
                None => Target::Nowhere,
            },
        }
    }
}

/// Returns the channel whose picture is at a path, if there are `channels` channels, at most 255.
fn channel_in(channels: usize, path: &[u8]) -> Option<u8>
    requires { channels < 256 }
    ensures { result ≡ channel_in channels path.now }
{
    let rest = after_prefix(b"/channel/", path)?;
    let digits = before_suffix(b".bmp", rest)?;
    let channel = plain_number_within(1, channels as u32, digits)?;
    Some(channel as u8)
}

/// Returns what follows a prefix of a text.
pub(crate) fn after_prefix<'a>(prefix: &[u8], text: &'a [u8]) -> Option<&'a [u8]>
    ensures { option_copied result ≡ after_prefix prefix.now text.entry.now }
{
    text.strip_prefix(prefix)
}

/// Returns what precedes a suffix of a text.
fn before_suffix<'a>(suffix: &[u8], text: &'a [u8]) -> Option<&'a [u8]>
    ensures { option_copied result ≡ before_suffix suffix.now text.entry.now }
{
    text.strip_suffix(suffix)
}
