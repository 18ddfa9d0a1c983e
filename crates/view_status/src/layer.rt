//! The status of a layer.
ghost use Rattle.std.specs.Prelude.{◌≡◌, ◌++◌, ◌≤◌, OnOk, flat_map};
ghost use Rattle.play_types.specs.Scene.{IsConfigured};
ghost use Rattle.play_types.specs.declared.place.TheConstants.{MAX_CHANNELS};
ghost use Rattle.stage_core.specs.Seen.{seen_layers};
ghost use Rattle.view_status.specs.Status.{frames_left, layer_tokens, playhead_members, source_of, transition_tokens};

use crate::document::Document;
use crate::mixer::write_mixer;
use crate::producer::write_producer;
use crate::status::StatusSource;
use crate::timecode::write_time;
use play_types::Spec;
use stage_core::LayerView;
use std::alloc::{AllocError, Global};

/// Writes the layers of a channel that have a foreground, in rising number.
pub(crate) fn write_layers(
    alloc: Global,
    source: StatusSource<'_>,
    channel: u8,
    document: &mut Document,
) -> Result<(), AllocError>
    requires channel { IsConfigured source.stage.now.channels channel }
    requires few { channel ≤ MAX_CHANNELS }
    ensures { OnOk result (document.new ≡ document.old
        ++ flat_map (layer_tokens (source_of source.entry) channel) (seen_layers source.entry.stage.now.journal.events channel)) }
{
    let mut at = 0;
    'layers: while let Some(layer) = source.stage.seen_layer(channel, at) {
        write_layer(alloc, source, channel, &layer, document)?;
        at += 1;
    }
    Ok(())
}

/// Writes a layer as an object.
#[tactic(auto, unfolding(crate::specs::Status::layer_tokens))]
fn write_layer(
    alloc: Global,
    source: StatusSource<'_>,
    channel: u8,
    layer: &LayerView,
    document: &mut Document,
) -> Result<(), AllocError>
    requires channel { IsConfigured source.stage.now.channels channel }
    requires few { channel ≤ MAX_CHANNELS }
    ensures { OnOk result (document.new ≡ document.old ++ layer_tokens (source_of source.entry) channel layer.now) }
{
    document.begin_object()?;
    document.whole_member("layer", u64::from(layer.layer))?;
    write_producer(alloc, layer.spec, source.names, document)?;
    write_playhead(alloc, source.config.rate(), layer, document)?;
    document.flag_member("looped", layer.looped)?;
    document.flag_member("paused", layer.paused)?;
    document.key("transition")?;
    write_transition(layer, document)?;
    document.key("mixer")?;
    write_mixer(source.stage, channel, layer.layer, document)?;
    document.end_object()
}

/// Writes where in a clip a layer is, as members: its frame, the first frame that is played and how many are, how many are left, and
/// the time and the time that is left.
fn write_playhead(
    alloc: Global,
    rate: u32,
    layer: &LayerView,
    document: &mut Document,
) -> Result<(), AllocError>
    requires { 1 ≤ rate }
    ensures { OnOk result (document.new ≡ document.old
        ++ flat_map (λ tokens. tokens) (playhead_members rate layer.now)) }
{
    let left = frames_left(layer);
    document.whole_member("frame", u64::from(layer.frame))?;
    document.whole_member("seek", u64::from(layer.seek))?;
    document.whole_member("length", u64::from(layer.length))?;
    document.whole_member("left", left)?;
    let passed = layer.frame.saturating_sub(layer.seek);
    write_time(alloc, "time", rate, u64::from(passed), document)?;
    write_time(alloc, "time_left", rate, left, document)
}

/// Returns how many frames of a clip are played after the one at the playhead. It is 0 for another producer.
fn frames_left(layer: &LayerView) -> u64
    ensures { result ≡ frames_left layer.now.spec layer.now }
{
    match layer.spec {
        Spec::Clip(_) => (u64::from(layer.seek) + u64::from(layer.length))
            .saturating_sub(1)
            .saturating_sub(u64::from(layer.frame)),
        Spec::Colour(_) | Spec::RouteChannel(_) | Spec::RouteLayer(_) => 0,
    }
}

/// Writes the transition that brings a layer in as an object, or `null` once it is over.
fn write_transition(layer: &LayerView, document: &mut Document) -> Result<(), AllocError>
    ensures { OnOk result (document.new ≡ document.old ++ transition_tokens layer.now) }
{
    let trans = layer.trans;
    if layer.step == trans.duration() {
        return document.null();
    }
    document.begin_object()?;
    document.text_member("kind", trans.kind().as_str())?;
    document.whole_member("step", u64::from(layer.step))?;
    document.whole_member("duration", u64::from(trans.duration()))?;
    document.end_object()
}
