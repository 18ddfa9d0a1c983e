//! A configuration for tests.
ghost use Rattle.std.specs.Prelude.{◌≡◌, IfOk, length};

use play_types::{Channel, ChannelList, Config, Text};
use std::alloc::Global;
use std::test::Fail;

/// Returns a configuration of one channel of one pixel, four connections and a journal of 100 commands.
pub fn one_channel(alloc: Global) -> Result<Config, Fail>
    ensures { IfOk result (λ config. length config.channels ≡ 1) }
{
    let mut channels = ChannelList::new(alloc);
    let output = Text::copy(alloc, "one.raw")?;
    channels.push(Channel::new(1, 1, 0, output).ok_or("a channel")?)?;
    let listen = Text::copy(alloc, "here")?;
    let media = Text::copy(alloc, "media")?;
    Ok(Config::new(listen, media, 25, 4, 100, channels).ok_or("a configuration")?)
}
