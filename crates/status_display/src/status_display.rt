//! The display of ticks by the status of all channels.
ghost use Rattle.std.specs.Prelude.{◌≡◌, [], length};
ghost use Rattle.std.specs.List.{flat_map};
ghost use Rattle.play_outside.specs.Sink.{Sends};
ghost use Rattle.osc_status.specs.Status.{layer_lines, layer_statuses};
ghost use Rattle.script_player.specs.Shown.{ByText};
ghost use Rattle.status_display.specs.Status.{channel_status, events_of_tick, status_of_view, statuses_text, tick_status};

use osc_status::{LayerStatus, write_channel_status, write_layer_status};
use play_outside::{Sent, Sink};
use script_player::{Display, MadeTick};
use stage_core::LayerView;

/// Shows each tick by the status of all channels after it.
#[derive(Clone, Copy, Debug)]
pub struct StatusDisplay;

impl Display for StatusDisplay {
    ghost shown = { λ _. ByText tick_status };

    ghost shows = { λ _ _ _. Unit {0} };

    ghost waiting = { λ _. [] };

    fn add_tick<K: Sink>(&mut self, tick: MadeTick<'_>, out: &mut K) -> Sent {
        write_statuses(tick, out)
    }

    fn finish<K: Sink>(&mut self, _out: &mut K) -> Sent {
        Sent::All
    }

    ghost keeps = { λ _ _ _ _ _ _. tt };
}

/// Writes the status of all channels after a tick.
fn write_statuses<K: Sink>(tick: MadeTick<'_>, out: &mut K) -> Sent
    requires { length tick.scenes.now ≡ length tick.setup.now.config.channels }
    ensures { Sends result (statuses_text tick.entry) (K.state out.old) (K.state out.new) }
{
    for at in 0..tick.scenes.channels() {
        send_status(tick, at + 1, out)?;
    }
    Sent::All
}

/// Writes the status of a channel after a tick: the number of ticks, and the layers that have a foreground.
fn send_status<K: Sink>(tick: MadeTick<'_>, channel: u8, out: &mut K) -> Sent
    ensures { Sends result (channel_status tick.entry channel) (K.state out.old) (K.state out.new) }
{
    write_channel_status(tick.number, channel, out)?;
    send_layers(tick, channel, out)
}

/// Writes the status of the layers of a channel that have a foreground, in rising number.
fn send_layers<K: Sink>(tick: MadeTick<'_>, channel: u8, out: &mut K) -> Sent
    ensures { Sends result (flat_map (layer_lines tick.entry.setup.now.names tick.entry.number) (layer_statuses (events_of_tick tick.entry) channel)) (K.state out.old) (K.state out.new) }
{
    let mut at = 0;
    'layers: while let Some(layer) = tick.stage.seen_layer(channel, at) {
        write_layer_status(
            tick.number,
            &status_of(channel, layer),
            &tick.setup.names,
            out,
        )?;
        at += 1;
    }
    Sent::All
}

/// Returns the status of a layer of a channel from its view in the stage.
pub(crate) fn status_of(channel: u8, layer: LayerView) -> LayerStatus
    ensures { result ≡ status_of_view channel layer }
{
    LayerStatus {
        channel,
        layer: layer.layer,
        spec: layer.spec,
        frame: layer.frame,
        length: layer.length,
        paused: layer.paused,
    }
}
