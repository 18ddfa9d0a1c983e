//! The status messages after a history, as datagrams.
ghost use Rattle.std.specs.Prelude.{◌≡◌, ◌∷◌, ◌++◌, [], false, IfOk, OnOk, map};
ghost use Rattle.std.specs.List.{flat_map};
ghost use Rattle.history_model.specs.scripts.History.{setup_of};
ghost use Rattle.osc_status.specs.Message.{message_bytes};
ghost use Rattle.osc_status.specs.Status.{channel_messages, layer_messages, layer_statuses, message_of, status_messages};
ghost use Rattle.script_player.specs.Playouts.{playout_of};

use crate::status_display::status_of;
use osc_status::{LayerStatus, StatusMessage, write_status_message};
use play_outside::Sent;
use play_types::MediaNames;
use server_setup::ServerSetup;
use stage_core::Stage;
use std::alloc::{AllocError, Global};
use vec_sink::VecSink;

/// Returns the messages of the status after the events of a stage, each as the bytes of a datagram: channel by channel its
/// ticks, and then those of its layers that have a foreground, in rising number.
pub fn status_datagrams(
    alloc: Global,
    setup: &ServerSetup,
    stage: &Stage,
) -> Result<Vec<Vec<u8>>, AllocError>
    ensures { IfOk result (λ list. map (λ message. message.items) list.items ≡ map message_bytes (status_messages (setup_of (playout_of setup.now false)) setup.now.names stage.now.journal.events)) }
{
    let mut list = Vec::new(alloc);
    let count = setup.config.channels().len() as u8;
    for at in 0..count {
        push_channel(alloc, setup, stage, at + 1, &mut list)?;
    }
    Ok(list)
}

/// Adds the messages of a channel: the number of ticks, and those of the layers that have a foreground.
fn push_channel(
    alloc: Global,
    setup: &ServerSetup,
    stage: &Stage,
    channel: u8,
    list: &mut Vec<Vec<u8>>,
) -> Result<(), AllocError>
    ensures { OnOk result (map (λ message. message.items) list.new.items ≡ map (λ message. message.items) list.old.items ++ map message_bytes (channel_messages setup.now.names stage.now.journal.events channel)) }
{
    let ticks = stage.journal().ticks();
    let message = StatusMessage::Ticks { channel, ticks };
    push_message(alloc, message, &setup.names, list)?;
    push_layers(alloc, &setup.names, stage, channel, list)
}

/// Adds the messages of the layers of a channel that have a foreground, in rising number.
fn push_layers(
    alloc: Global,
    names: &MediaNames,
    stage: &Stage,
    channel: u8,
    list: &mut Vec<Vec<u8>>,
) -> Result<(), AllocError>
    ensures { OnOk result (map (λ message. message.items) list.new.items ≡ map (λ message. message.items) list.old.items ++ map message_bytes (flat_map (layer_messages names.now) (layer_statuses stage.now.journal.events channel))) }
{
    let mut at = 0;
    'layers: while let Some(layer) = stage.seen_layer(channel, at) {
        push_layer(alloc, &status_of(channel, layer), names, list)?;
        at += 1;
    }
    Ok(())
}

/// Adds the messages of a layer.
fn push_layer(
    alloc: Global,
    layer: &LayerStatus,
    names: &MediaNames,
    list: &mut Vec<Vec<u8>>,
) -> Result<(), AllocError>
    ensures { OnOk result (map (λ message. message.items) list.new.items ≡ map (λ message. message.items) list.old.items ++ map message_bytes (layer_messages names.now layer.now)) }
{
    push_message(alloc, StatusMessage::Producer(*layer), names, list)?;
    push_message(alloc, StatusMessage::Frame(*layer), names, list)?;
    push_message(alloc, StatusMessage::Paused(*layer), names, list)
}

/// Adds the bytes of a message.
fn push_message(
    alloc: Global,
    message: StatusMessage,
    names: &MediaNames,
    list: &mut Vec<Vec<u8>>,
) -> Result<(), AllocError>
    ensures { OnOk result (map (λ message. message.items) list.new.items ≡ map (λ message. message.items) list.old.items ++ message_bytes (message_of names.now message) ∷ []) }
{
    let mut sink = VecSink::new(alloc);
    match write_status_message(message, names, &mut sink) {
        Sent::All => {
            list.push(sink.taken)?;
            Ok(())
        }
        Sent::Failed => Err(AllocError),
    }
}
