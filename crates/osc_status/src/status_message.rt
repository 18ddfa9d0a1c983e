//! The messages of the status after a tick.
ghost use Rattle.std.specs.Prelude.{◌≡◌, ◌++◌, true};
ghost use Rattle.std.specs.Int.{w32, to_be_bytes};
ghost use Rattle.play_outside.specs.Sink.{Sends};
ghost use Rattle.play_outside.specs.Gathered.{Adds};
ghost use Rattle.osc_status.specs.Texts.{padded};
ghost use Rattle.osc_status.specs.Message.{message_bytes};
ghost use Rattle.osc_status.specs.Status.{frame_message, message_of, paused_message, producer_message, ticks_message};
ghost use Rattle.osc_status.specs.inner.Form.{formed};
ghost use Rattle.osc_status.specs.inner.Plain.{are_plain};

use crate::address::{add_channel_address, add_layer_address};
use crate::form::{Form, Pieces};
use crate::layer::LayerStatus;
use crate::producer::add_producer;
use crate::text::add_text;
use play_outside::{Sent, Sink};
use play_types::MediaNames;

/// The number of ticks in a message is taken modulo this, so that it fits an argument.
pub const TICKS_MODULUS: u64 = 2_147_483_648;

/// A message of the status after a tick.
#[derive(Clone, Copy, Debug, PartialEq, Eq)]
pub enum StatusMessage {
    /// `/channel/c/ticks`: the number of ticks modulo [`TICKS_MODULUS`].
    Ticks {
        /// The channel, from 1.
        channel: u8,
        /// The number of ticks.
        ticks: u64,
    },
    /// `/channel/c/layer/l/producer`: what the layer plays.
    Producer(LayerStatus),
    /// `/channel/c/layer/l/frame`: the frame at which the layer is and the number of frames.
    Frame(LayerStatus),
    /// `/channel/c/layer/l/paused`: 1 if the layer is paused, else 0.
    Paused(LayerStatus),
}

/// Writes the bytes of a message of the status.
///
/// A clip is named as in `names`, without the zero characters of its name, and its name is empty if `names` has no clip of
/// its number. A message of at most 4,096 bytes is one write. The result is `Failed` only if `to` failed, and then a prefix
/// of the message was written.
pub fn write_status_message<K: Sink>(message: StatusMessage, names: &MediaNames, to: &mut K) -> Sent
    ensures { Sends result (message_bytes (message_of names.now message)) (K.state to.old) (K.state to.new) }
{
    let mut pieces = Pieces::new();
    add_message(Form::Raw, message, names, &mut pieces, to)?;
    pieces.finish(to)
}

/// Adds the bytes of a message.
pub(crate) fn add_message<K: Sink>(
    form: Form,
    message: StatusMessage,
    names: &MediaNames,
    pieces: &mut Pieces,
    to: &mut K,
) -> Sent
    ensures { Adds result (pieces.old ++ formed form (message_bytes (message_of names.now message))) pieces.new (K.state to.old) (K.state to.new) }
{
    match message {
        StatusMessage::Ticks { channel, ticks } => add_ticks(form, channel, ticks, pieces, to),
        StatusMessage::Producer(layer) => add_played(form, &layer, names, pieces, to),
        StatusMessage::Frame(layer) => add_frame(form, &layer, pieces, to),
        StatusMessage::Paused(layer) => add_paused(form, &layer, pieces, to),
    }
}

/// Adds the message with the number of ticks.
pub(crate) fn add_ticks<K: Sink>(
    form: Form,
    channel: u8,
    ticks: u64,
    pieces: &mut Pieces,
    to: &mut K,
) -> Sent
    ensures { Adds result (pieces.old ++ formed form (message_bytes (ticks_message channel ticks))) pieces.new (K.state to.old) (K.state to.new) }
{
    add_channel_address(form, channel, b"/ticks", pieces, to)?;
    add_letters(form, b",i", pieces, to)?;
    add_number(form, (ticks % TICKS_MODULUS) as u32, pieces, to)
}

/// Adds the message with what a layer plays.
fn add_played<K: Sink>(
    form: Form,
    layer: &LayerStatus,
    names: &MediaNames,
    pieces: &mut Pieces,
    to: &mut K,
) -> Sent
    ensures { Adds result (pieces.old ++ formed form (message_bytes (producer_message names.now layer.now))) pieces.new (K.state to.old) (K.state to.new) }
{
    add_layer_address(form, layer, b"/producer", pieces, to)?;
    add_letters(form, b",s", pieces, to)?;
    add_producer(form, layer.spec, names, pieces, to)
}

/// Adds the message with the frame at which a layer is.
fn add_frame<K: Sink>(form: Form, layer: &LayerStatus, pieces: &mut Pieces, to: &mut K) -> Sent
    ensures { Adds result (pieces.old ++ formed form (message_bytes (frame_message layer.now))) pieces.new (K.state to.old) (K.state to.new) }
{
    add_layer_address(form, layer, b"/frame", pieces, to)?;
    add_letters(form, b",ii", pieces, to)?;
    add_number(form, layer.frame, pieces, to)?;
    add_number(form, layer.length, pieces, to)
}

/// Adds the message that says whether a layer is paused.
fn add_paused<K: Sink>(form: Form, layer: &LayerStatus, pieces: &mut Pieces, to: &mut K) -> Sent
    ensures { Adds result (pieces.old ++ formed form (message_bytes (paused_message layer.now))) pieces.new (K.state to.old) (K.state to.new) }
{
    add_layer_address(form, layer, b"/paused", pieces, to)?;
    add_letters(form, b",i", pieces, to)?;
    add_number(form, u32::from(layer.paused), pieces, to)
}

/// Adds the letters of the arguments, with their padding.
fn add_letters<K: Sink>(form: Form, letters: &[u8], pieces: &mut Pieces, to: &mut K) -> Sent
    requires { are_plain letters.now ≡ true }
    ensures { Adds result (pieces.old ++ formed form (padded letters.now)) pieces.new (K.state to.old) (K.state to.new) }
{
    add_text(form, &[letters], pieces, to)
}

/// Adds the bytes of a number, the highest first.
fn add_number<K: Sink>(form: Form, number: u32, pieces: &mut Pieces, to: &mut K) -> Sent
    ensures { Adds result (pieces.old ++ formed form (to_be_bytes w32 number)) pieces.new (K.state to.old) (K.state to.new) }
{
    form.add(&number.to_be_bytes(), pieces, to)
}
