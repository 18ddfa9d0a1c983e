//! The addresses of the status.
ghost use Rattle.std.specs.Prelude.{◌≡◌, ◌++◌, true};
ghost use Rattle.play_outside.specs.Gathered.{Adds};
ghost use Rattle.osc_status.specs.Texts.{text_bytes};
ghost use Rattle.osc_status.specs.Status.{channel_address, layer_address};
ghost use Rattle.osc_status.specs.inner.Form.{formed};
ghost use Rattle.osc_status.specs.inner.Plain.{are_plain};

use crate::form::{Form, Pieces};
use crate::layer::LayerStatus;
use crate::text::add_text;
use itoa::Buffer;
use play_outside::{Sent, Sink};

/// Adds the address of a channel with `topic` at its end.
pub(crate) fn add_channel_address<K: Sink>(
    form: Form,
    channel: u8,
    topic: &[u8],
    pieces: &mut Pieces,
    to: &mut K,
) -> Sent
    requires { are_plain topic.now ≡ true }
    ensures { Adds result (pieces.old ++ formed form (text_bytes (channel_address channel ++ topic.now))) pieces.new (K.state to.old) (K.state to.new) }
{
    add_text(
        form,
        &[
            b"/channel/",
            Buffer::new().format(channel).as_bytes(),
            topic,
        ],
        pieces,
        to,
    )
}

/// Adds the address of a layer with `topic` at its end.
pub(crate) fn add_layer_address<K: Sink>(
    form: Form,
    layer: &LayerStatus,
    topic: &[u8],
    pieces: &mut Pieces,
    to: &mut K,
) -> Sent
    requires { are_plain topic.now ≡ true }
    ensures { Adds result (pieces.old ++ formed form (text_bytes (layer_address layer.now.channel layer.now.layer ++ topic.now))) pieces.new (K.state to.old) (K.state to.new) }
{
    add_text(
        form,
        &[
            b"/channel/",
            Buffer::new().format(layer.channel).as_bytes(),
            b"/layer/",
            Buffer::new().format(layer.layer).as_bytes(),
            topic,
        ],
        pieces,
        to,
    )
}
