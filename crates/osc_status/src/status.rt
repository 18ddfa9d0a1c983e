//! The lines of the status after a tick.
ghost use Rattle.std.specs.Prelude.{◌++◌};
ghost use Rattle.play_outside.specs.Sink.{Sends};
ghost use Rattle.play_outside.specs.Gathered.{Adds};
ghost use Rattle.osc_status.specs.Status.{layer_lines, message_of, status_line, ticks_message};
ghost use Rattle.osc_status.specs.inner.Lines.{line_start};

use crate::form::{Form, Pieces};
use crate::layer::LayerStatus;
use crate::status_message::{StatusMessage, add_message, add_ticks};
use itoa::Buffer;
use play_outside::{Sent, Sink};
use play_types::MediaNames;

/// Writes the line of a channel after `ticks` ticks: `O`, the number of ticks, and the bytes of the message
/// `/channel/c/ticks` in hexadecimal. Its argument is the number of ticks modulo [`TICKS_MODULUS`](crate::TICKS_MODULUS).
///
/// The line is one write. The result is `Failed` only if `to` failed, and then a prefix of the line was written.
pub fn write_channel_status<K: Sink>(ticks: u64, channel: u8, to: &mut K) -> Sent
    ensures { Sends result (status_line ticks (ticks_message channel ticks)) (K.state to.old) (K.state to.new) }
{
    let mut pieces = Pieces::new();
    add_ticks_line(ticks, channel, &mut pieces, to)?;
    pieces.finish(to)
}

/// Writes the lines of a layer after `ticks` ticks, each with `O`, the number of ticks and the bytes of one message in
/// hexadecimal: `/channel/c/layer/l/producer` with what the layer plays, `/channel/c/layer/l/frame` with the frame at
/// which it is and the number of frames, and `/channel/c/layer/l/paused` with 1 or 0.
///
/// A clip is named as in `names`, without the zero characters of its name, and its name is empty if `names` has no clip of
/// its number. Lines of at most 4,096 bytes together are one write. The result is `Failed` only if `to` failed, and then a
/// prefix of the lines was written.
pub fn write_layer_status<K: Sink>(
    ticks: u64,
    layer: &LayerStatus,
    names: &MediaNames,
    to: &mut K,
) -> Sent
    ensures { Sends result (layer_lines names.now ticks layer.now) (K.state to.old) (K.state to.new) }
{
    let mut pieces = Pieces::new();
    let produced = StatusMessage::Producer(*layer);
    add_line(ticks, produced, names, &mut pieces, to)?;
    let framed = StatusMessage::Frame(*layer);
    add_line(ticks, framed, names, &mut pieces, to)?;
    let paused = StatusMessage::Paused(*layer);
    add_line(ticks, paused, names, &mut pieces, to)?;
    pieces.finish(to)
}

/// Adds the line of the ticks of a channel.
fn add_ticks_line<K: Sink>(ticks: u64, channel: u8, pieces: &mut Pieces, to: &mut K) -> Sent
    ensures { Adds result (pieces.old ++ status_line ticks (ticks_message channel ticks)) pieces.new (K.state to.old) (K.state to.new) }
{
    add_start(ticks, pieces, to)?;
    add_ticks(Form::Hex, channel, ticks, pieces, to)?;
    pieces.add(b"\n", to)
}

/// Adds the line of a message after `ticks` ticks.
fn add_line<K: Sink>(
    ticks: u64,
    message: StatusMessage,
    names: &MediaNames,
    pieces: &mut Pieces,
    to: &mut K,
) -> Sent
    ensures { Adds result (pieces.old ++ status_line ticks (message_of names.now message)) pieces.new (K.state to.old) (K.state to.new) }
{
    add_start(ticks, pieces, to)?;
    add_message(Form::Hex, message, names, pieces, to)?;
    pieces.add(b"\n", to)
}

/// Adds the beginning of a line: `O` and the number of ticks.
fn add_start<K: Sink>(ticks: u64, pieces: &mut Pieces, to: &mut K) -> Sent
    ensures { Adds result (pieces.old ++ line_start ticks) pieces.new (K.state to.old) (K.state to.new) }
{
    pieces.add_parts(&[b"O ", Buffer::new().format(ticks).as_bytes(), b" "], to)
}
