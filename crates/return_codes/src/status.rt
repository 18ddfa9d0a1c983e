//! The status of the channels.
ghost use Rattle.std.specs.Prelude.{◌≡◌, ◌++◌, length, take};
ghost use Rattle.std.specs.List.{flat_map};
ghost use Rattle.history_model.specs.text.Replies.{channel_line, channel_lines};
ghost use Rattle.play_outside.specs.Gathered.{Adds};
ghost use Rattle.return_codes.specs.inner.Style.{styled};

use crate::line::{GatheredText, LineStyle};
use itoa::Buffer;
use play_outside::{Sent, Sink};
use play_types::{Channel, ChannelList, Status, StatusList};

/// Adds a line for each channel, with its status.
pub(crate) fn add_statuses<K: Sink>(
    channels: &ChannelList,
    statuses: StatusList,
    style: &LineStyle,
    text: &mut GatheredText,
    to: &mut K,
) -> Sent
    requires { statuses.count ≡ length channels.now }
    ensures { Adds result
        (text.old ++ flat_map (styled style.now) (channel_lines channels.now (take statuses.count statuses.channels)))
        text.new (K.state to.old) (K.state to.new) }
{
    let count = usize::from(statuses.count());
    add_channels(channels, &statuses.channels()[..count], style, text, to)
}

/// Adds a line for each channel, with its status: that of the first channel comes first.
fn add_channels<K: Sink>(
    channels: &ChannelList,
    statuses: &[Status],
    style: &LineStyle,
    text: &mut GatheredText,
    to: &mut K,
) -> Sent
    requires { length statuses.now ≡ length channels.now }
    ensures { Adds result
        (text.old ++ flat_map (styled style.now) (channel_lines channels.now statuses.now))
        text.new (K.state to.old) (K.state to.new) }
{
    for (at, (channel, status)) in channels.iter().zip(statuses).enumerate() {
        add_channel(at + 1, channel, *status, style, text, to)?;
    }
    Sent::All
}

/// Adds the line of the channel with this number, from 1.
fn add_channel<K: Sink>(
    number: usize,
    channel: &Channel,
    status: Status,
    style: &LineStyle,
    text: &mut GatheredText,
    to: &mut K,
) -> Sent
    ensures { Adds result (text.old ++ styled style.now (channel_line number channel.now status)) text.new (K.state to.old) (K.state to.new) }
{
    style.add_line(
        &[
            Buffer::new().format(number).as_bytes(),
            b" ",
            Buffer::new().format(channel.width()).as_bytes(),
            b"x",
            Buffer::new().format(channel.height()).as_bytes(),
            b" ",
            status.as_str().as_bytes(),
        ],
        text,
        to,
    )
}
