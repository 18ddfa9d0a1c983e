//! Commands of the stage.
ghost use Rattle.std.specs.Prelude.{encode_utf8_all, codes, ◌∷◌, ◌++◌, []};
ghost use Rattle.play_outside.specs.Sink.{Sends};
ghost use Rattle.play_outside.specs.Gathered.{Adds};
ghost use Rattle.history_model.specs.text.Commands.{Plain, arguments, command_text, flag_words, number_word, place_word, recording_word, setting_words, take_words};
ghost use Rattle.cmd_print.specs.inner.Bytes.{spaced};

use crate::setting::add_setting;
use crate::take::add_take;
use crate::text::GatheredText;
use crate::word::{add_flag, add_number, add_place, add_rec_name, add_word};
use play_outside::{Gather, Sent, Sink};
use play_types::{Cmd, MediaNames, Place, RecName, Setting, Take};

/// Writes the text of a command: its name and its words, with one space between them. A text of at most 4,096 bytes is one
/// write.
///
/// A clip is named as in `media`, and its name is empty if `media` has no clip of its number. A line of this text asks for
/// the command if the configuration and `media` are those by which the command was read. The result is `Failed` only if
/// `to` failed, and then a prefix of the text was written.
pub fn print<K: Sink>(cmd: &Cmd, media: &MediaNames, to: &mut K) -> Sent
    ensures { Sends result (encode_utf8_all (command_text media.now cmd.now)) (K.state to.old) (K.state to.new) }
{
    let mut text = GatheredText::new();
    add_command(cmd, media, &mut text, to)?;
    text.finish(to)
}

/// Adds the text of a command.
pub(crate) fn add_command<const ROOM: usize, K: Sink>(
    cmd: &Cmd,
    media: &MediaNames,
    text: &mut Gather<ROOM>,
    to: &mut K,
) -> Sent
    ensures { Adds result (text.old ++ encode_utf8_all (command_text media.now cmd.now)) text.new (K.state to.old) (K.state to.new) }
{
    text.add(cmd.name().as_str().as_bytes(), to)?;
    add_arguments(cmd, media, text, to)
}

/// Adds the words after the name of a command.
fn add_arguments<const ROOM: usize, K: Sink>(
    cmd: &Cmd,
    media: &MediaNames,
    text: &mut Gather<ROOM>,
    to: &mut K,
) -> Sent
    ensures { Adds result (text.old ++ spaced (arguments media.now cmd.now)) text.new (K.state to.old) (K.state to.new) }
{
    match cmd {
        Cmd::Load(place, take) | Cmd::LoadBg(place, take) | Cmd::PlayTake(place, take) => {
            add_place_and_take(*place, *take, media, text, to)
        }
        Cmd::Play(place)
        | Cmd::Pause(place)
        | Cmd::Resume(place)
        | Cmd::StopLayer(place)
        | Cmd::ClearLayer(place) => add_place(*place, text, to),
        Cmd::ClearChannel(channel) => add_number(u32::from(*channel), text, to),
        Cmd::SwapLayers(one, other, transforms) => add_layers(*one, *other, *transforms, text, to),
        Cmd::SwapChannels(one, other, transforms) => {
            add_channels(*one, *other, *transforms, text, to)
        }
        Cmd::Set(setting) => add_place_and_setting(*setting, text, to),
        Cmd::CommitMixer(channel) => add_channel_and_word(*channel, "COMMIT", text, to),
        Cmd::ResetLayer(place) => add_place_and_word(*place, "CLEAR", text, to),
        Cmd::ResetChannel(channel) => add_channel_and_word(*channel, "CLEAR", text, to),
        Cmd::AddFile(channel, name) => add_channel_and_name(*channel, *name, text, to),
        Cmd::RemoveFile(channel) => add_channel_and_word(*channel, "FILE", text, to),
        Cmd::Value(place, prop) => add_place_and_word(*place, prop.as_str(), text, to),
        Cmd::Info => Sent::All,
    }
}

/// Adds a place and the take that is played there.
fn add_place_and_take<const ROOM: usize, K: Sink>(
    place: Place,
    take: Take,
    media: &MediaNames,
    text: &mut Gather<ROOM>,
    to: &mut K,
) -> Sent
    ensures { Adds result (text.old ++ spaced (place_word place ∷ take_words media.now take)) text.new (K.state to.old) (K.state to.new) }
{
    add_place(place, text, to)?;
    add_take(take, media, text, to)
}

/// Adds the place of a setting and the words after it.
fn add_place_and_setting<const ROOM: usize, K: Sink>(
    setting: Setting,
    text: &mut Gather<ROOM>,
    to: &mut K,
) -> Sent
    ensures { Adds result (text.old ++ spaced (place_word setting.place ∷ setting_words setting)) text.new (K.state to.old) (K.state to.new) }
{
    add_place(setting.place(), text, to)?;
    add_setting(setting, text, to)
}

/// Adds two places, and TRANSFORMS if their mixer values are exchanged too.
fn add_layers<const ROOM: usize, K: Sink>(
    one: Place,
    other: Place,
    transforms: bool,
    text: &mut Gather<ROOM>,
    to: &mut K,
) -> Sent
    ensures { Adds result
        (text.old ++ spaced (place_word one ∷ place_word other ∷ flag_words transforms (codes "TRANSFORMS")))
        text.new (K.state to.old) (K.state to.new) }
{
    add_place(one, text, to)?;
    add_place(other, text, to)?;
    add_flag(transforms, "TRANSFORMS", text, to)
}

/// Adds two channels, and TRANSFORMS if their mixer values are exchanged too.
fn add_channels<const ROOM: usize, K: Sink>(
    one: u8,
    other: u8,
    transforms: bool,
    text: &mut Gather<ROOM>,
    to: &mut K,
) -> Sent
    ensures { Adds result
        (text.old ++ spaced (number_word one ∷ number_word other ∷ flag_words transforms (codes "TRANSFORMS")))
        text.new (K.state to.old) (K.state to.new) }
{
    add_number(u32::from(one), text, to)?;
    add_number(u32::from(other), text, to)?;
    add_flag(transforms, "TRANSFORMS", text, to)
}

/// Adds a place and a word.
fn add_place_and_word<const ROOM: usize, K: Sink>(
    place: Place,
    word: &str,
    text: &mut Gather<ROOM>,
    to: &mut K,
) -> Sent
    ensures { Adds result (text.old ++ spaced (place_word place ∷ Plain word.now ∷ [])) text.new (K.state to.old) (K.state to.new) }
{
    add_place(place, text, to)?;
    add_word(word, text, to)
}

/// Adds a channel and a word.
fn add_channel_and_word<const ROOM: usize, K: Sink>(
    channel: u8,
    word: &str,
    text: &mut Gather<ROOM>,
    to: &mut K,
) -> Sent
    ensures { Adds result (text.old ++ spaced (number_word channel ∷ Plain word.now ∷ [])) text.new (K.state to.old) (K.state to.new) }
{
    add_number(u32::from(channel), text, to)?;
    add_word(word, text, to)
}

/// Adds a channel, FILE, and the name of a recording.
fn add_channel_and_name<const ROOM: usize, K: Sink>(
    channel: u8,
    name: RecName,
    text: &mut Gather<ROOM>,
    to: &mut K,
) -> Sent
    ensures { Adds result
        (text.old ++ spaced (number_word channel ∷ Plain (codes "FILE") ∷ recording_word name ∷ []))
        text.new (K.state to.old) (K.state to.new) }
{
    add_channel_and_word(channel, "FILE", text, to)?;
    add_rec_name(name, text, to)
}
