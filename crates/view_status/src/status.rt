//! The status of a server.
ghost use Rattle.std.specs.Prelude.{◌≡◌, ◌++◌, ◌<◌, ◌≤◌, IfOk, OnOk, length};
ghost use Rattle.json.specs.Print.{print};
ghost use Rattle.play_types.specs.Scene.{IsConfigured};
ghost use Rattle.play_types.specs.declared.place.TheConstants.{MAX_CHANNELS};
ghost use Rattle.view_status.specs.Status.{channel_levels, channel_tokens, channels_tokens, levels_in, levels_tokens, source_of, source_tokens, status_tokens};

use crate::counting::event_count;
use crate::document::Document;
use crate::layer::write_layers;
use crate::levels::Levels;
use crate::timecode::write_time;
use play_types::{Channel, Config, MediaNames};
use stage_core::Stage;
use std::alloc::{AllocError, Global};

/// What a status is of.
#[derive(Clone, Copy)]
pub struct StatusSource<'a> {
    /// The configuration, by which the stage was made.
    pub config: &'a Config,
    /// The names of the clips.
    pub names: &'a MediaNames,
    /// The stage, with the history.
    pub stage: &'a Stage,
    /// The levels of each channel at the last tick, channel 1 first, if they are known. A channel that has none here has `null`.
    pub levels: Option<&'a [Levels]>,
}

/// Returns the status after the history of a stage, as a document of JSON.
///
/// It has the number of ticks, of pulses per second and of events, whether the history has a stop, and the channels. A channel has
/// its size, its levels, or `null` if they are not known, and its layers that have a foreground, in rising number. A layer has what it
/// plays, where in its clip it is, its transition, or `null` once that is over, and in millionths the mixer properties that are not
/// the default. Times are given as `HH:MM:SS:FF`. An error says that memory ran out.
pub fn status_json(alloc: Global, source: StatusSource<'_>) -> Result<Vec<u8>, AllocError>
    requires channels { source.stage.now.channels ≡ length source.config.now.channels }
    ensures { IfOk result (λ bytes. bytes.items ≡ print
        (status_tokens source.entry.config.now source.entry.names.now (levels_in source.entry) source.entry.stage.now.journal.events)) }
{
    let mut document = Document::new(alloc);
    write_source(alloc, source, &mut document)?;
    Ok(document.into_bytes())
}

/// Writes the whole document.
#[tactic(auto, unfolding(crate::specs::Status::source_tokens))]
fn write_source(
    alloc: Global,
    source: StatusSource<'_>,
    document: &mut Document,
) -> Result<(), AllocError>
    requires channels { source.stage.now.channels ≡ length source.config.now.channels }
    ensures { OnOk result (document.new ≡ document.old ++ source_tokens (source_of source.entry)) }
{
    let journal = source.stage.journal();
    let rate = source.config.rate();
    document.begin_object()?;
    document.whole_member("ticks", journal.ticks())?;
    write_time(alloc, "timecode", rate, journal.ticks(), document)?;
    document.whole_member("rate", u64::from(rate))?;
    document.whole_member("events", event_count(journal))?;
    document.flag_member("ended", journal.stopped().is_some())?;
    document.key("channels")?;
    document.begin_array()?;
    write_channels(alloc, source, document)?;
    document.end_array()?;
    document.end_object()
}

/// Writes the channels, channel 1 first.
fn write_channels(
    alloc: Global,
    source: StatusSource<'_>,
    document: &mut Document,
) -> Result<(), AllocError>
    requires channels { source.stage.now.channels ≡ length source.config.now.channels }
    ensures { OnOk result (document.new ≡ document.old ++ channels_tokens (source_of source.entry)) }
{
    let channels = source.config.channels();
    for at in 0..channels.len() {
        let size = channels.get(at).unwrap();
        write_channel(alloc, source, at as u8 + 1, size, document)?;
    }
    Ok(())
}

/// Writes a channel as an object.
#[tactic(auto, unfolding(crate::specs::Status::channel_tokens))]
fn write_channel(
    alloc: Global,
    source: StatusSource<'_>,
    channel: u8,
    size: &Channel,
    document: &mut Document,
) -> Result<(), AllocError>
    requires channel { IsConfigured source.stage.now.channels channel }
    requires few { channel ≤ MAX_CHANNELS }
    ensures { OnOk result (document.new ≡ document.old ++ channel_tokens (source_of source.entry) channel size.now) }
{
    document.begin_object()?;
    document.whole_member("channel", u64::from(channel))?;
    document.whole_member("width", u64::from(size.width()))?;
    document.whole_member("height", u64::from(size.height()))?;
    document.key("levels")?;
    write_levels(levels_of_channel(source, channel), document)?;
    document.key("layers")?;
    document.begin_array()?;
    write_layers(alloc, source, channel, document)?;
    document.end_array()?;
    document.end_object()
}

/// Returns the levels of a channel, if they are known.
fn levels_of_channel(source: StatusSource<'_>, channel: u8) -> Option<Levels>
    requires { 0 < channel }
    ensures { result ≡ channel_levels (levels_in source.entry) channel }
{
    let levels = source.levels?;
    levels.get(usize::from(channel) - 1).copied()
}

/// Writes the levels of a channel as an array of two numbers, or `null` if they are not known.
fn write_levels(levels: Option<Levels>, document: &mut Document) -> Result<(), AllocError>
    ensures { OnOk result (document.new ≡ document.old ++ levels_tokens levels) }
{
    match levels {
        Some(levels) => {
            document.begin_array()?;
            document.whole(u64::from(levels.left))?;
            document.whole(u64::from(levels.right))?;
            document.end_array()
        }
        None => document.null(),
    }
}
