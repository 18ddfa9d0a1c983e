//! What the words of a line ask for.
ghost use Rattle.std.specs.Prelude.{◌≡◌, ◌<◌, length};
ghost use Rattle.history_model.specs.commands.Command.{clear, cleared, least_words, load, load_bg, meaning, only_place, parsed, play, swap, version};
ghost use Rattle.history_model.specs.commands.Line.{ended};

use crate::area::Area;
use crate::line::Line;
use crate::mixer::mixer;
use crate::recording::{add_file, remove_file};
use amcp_text::WordList;
use play_types::{Cmd, Config, MediaNames, Name, Parsed, Place, Refusal};

/// Returns what the words of a line ask for, with the channels of `config` and the clips of `media`.
///
/// Refused are, in this order: an unknown name, or REQ, as `Unknown`; a line with fewer words than its command needs, as
/// `Missing`; the places, from the left; the other words, from the left, except the producer; and the producer. The
/// position in `Illegal` counts the words from 0, which is the name.
#[tactic(auto, unfolding(history_model::specs::commands::Command::parsed))]
pub fn parse(words: &WordList, config: &Config, media: &MediaNames) -> Result<Parsed, Refusal>
    requires { 0 < length words.now }
    ensures { result ≡ parsed config.now media.now words.now }
{
    let word = words.get(0).ok_or(Refusal::Unknown)?;
    let name = Name::read(word).ok_or(Refusal::Unknown)?;
    let line = Line {
        name,
        words,
        config,
        media,
    };
    if line.len() <= least_words(name) {
        return Err(Refusal::Missing(name));
    }
    meaning(&line)
}

/// Returns the least number of words that have to follow the name of a command.
fn least_words(name: Name) -> usize
    ensures { result ≡ least_words name }
{
    match name {
        Name::Add => 3,
        Name::LoadBg | Name::Load | Name::Swap | Name::Mixer | Name::Remove => 2,
        Name::Play | Name::Pause | Name::Resume | Name::Stop | Name::Clear => 1,
        Name::Begin
        | Name::Commit
        | Name::Discard
        | Name::Info
        | Name::Cls
        | Name::Version
        | Name::Bye
        | Name::Kill
        | Name::Req => 0,
    }
}

/// Returns what a line with enough words asks for.
fn meaning(line: &Line<'_>) -> Result<Parsed, Refusal>
    ensures { result ≡ meaning line.now }
{
    match line.name {
        Name::LoadBg => Ok(Parsed::Stage(load_bg(line)?)),
        Name::Load => Ok(Parsed::Stage(load(line)?)),
        Name::Play => Ok(Parsed::Stage(play(line)?)),
        Name::Pause => Ok(Parsed::Stage(Cmd::Pause(only_place(line)?))),
        Name::Resume => Ok(Parsed::Stage(Cmd::Resume(only_place(line)?))),
        Name::Stop => Ok(Parsed::Stage(Cmd::StopLayer(only_place(line)?))),
        Name::Clear => Ok(Parsed::Stage(clear(line)?)),
        Name::Swap => Ok(Parsed::Stage(swap(line)?)),
        Name::Mixer => Ok(Parsed::Stage(mixer(line)?)),
        Name::Add => Ok(Parsed::Stage(add_file(line)?)),
        Name::Remove => Ok(Parsed::Stage(remove_file(line)?)),
        Name::Begin => only_name(line, Parsed::Begin),
        Name::Commit => only_name(line, Parsed::Commit),
        Name::Discard => only_name(line, Parsed::Discard),
        Name::Info => only_name(line, Parsed::Stage(Cmd::Info)),
        Name::Cls => only_name(line, Parsed::Cls),
        Name::Version => version(line),
        Name::Bye => only_name(line, Parsed::Bye),
        Name::Kill => only_name(line, Parsed::Kill),
        Name::Req => Err(Refusal::Unknown),
    }
}

/// Returns `asked` if the line is its name alone. A word after the name is refused as `Illegal`.
fn only_name(line: &Line<'_>, asked: Parsed) -> Result<Parsed, Refusal>
    ensures { result ≡ ended line.now 1 asked }
{
    line.end(1)?;
    Ok(asked)
}

/// Reads a VERSION, which may be followed by the word SERVER.
fn version(line: &Line<'_>) -> Result<Parsed, Refusal>
    ensures { result ≡ version line.now }
{
    line.flag(1, "SERVER")?;
    Ok(Parsed::Version)
}

/// Returns the place at position 1. A word after it is refused as `Illegal`.
fn only_place(line: &Line<'_>) -> Result<Place, Refusal>
    ensures { result ≡ only_place line.now }
{
    let area = line.area(1)?;
    line.end(2)?;
    Ok(area.place())
}

/// Reads a LOADBG.
#[tactic(auto, unfolding(history_model::specs::commands::Command::load_bg))]
fn load_bg(line: &Line<'_>) -> Result<Cmd, Refusal>
    ensures { result ≡ load_bg line.now }
{
    let area = line.area(1)?;
    let take = line.take(2)?;
    Ok(Cmd::LoadBg(area.place(), take))
}

/// Reads a LOAD. Its take has a cut and no AUTO, whatever its options say.
#[tactic(auto, unfolding(history_model::specs::commands::Command::load))]
fn load(line: &Line<'_>) -> Result<Cmd, Refusal>
    ensures { result ≡ load line.now }
{
    let area = line.area(1)?;
    let take = line.take(2)?;
    Ok(Cmd::load(area.place(), take))
}

/// Reads a PLAY of the background, or of a take, which has no AUTO, whatever its options say.
#[tactic(auto, unfolding(history_model::specs::commands::Command::play))]
fn play(line: &Line<'_>) -> Result<Cmd, Refusal>
    ensures { result ≡ play line.now }
{
    let area = line.area(1)?;
    if line.len() == 2 {
        return Ok(Cmd::Play(area.place()));
    }
    let take = line.take(2)?;
    Ok(Cmd::play_take(area.place(), take))
}

/// Reads a CLEAR of all layers of a channel, or of one layer.
#[tactic(auto, unfolding(history_model::specs::commands::Command::clear))]
fn clear(line: &Line<'_>) -> Result<Cmd, Refusal>
    ensures { result ≡ clear line.now }
{
    let area = line.area(1)?;
    line.end(2)?;
    Ok(cleared(area))
}

/// Returns the command that clears an area.
fn cleared(area: Area) -> Cmd
    ensures { result ≡ cleared area.channel area.layer }
{
    if area.has_layer() {
        Cmd::ClearLayer(area.place())
    } else {
        Cmd::ClearChannel(area.channel())
    }
}

/// Reads a SWAP of two channels, or of two layers.
#[tactic(auto, unfolding(history_model::specs::commands::Command::swap))]
fn swap(line: &Line<'_>) -> Result<Cmd, Refusal>
    ensures { result ≡ swap line.now }
{
    let one = line.area(1)?;
    let other = line.area(2)?;
    if one.has_layer() != other.has_layer() {
        return Err(line.illegal(2));
    }
    let transforms = line.flag(3, "TRANSFORMS")?;
    if one.has_layer() {
        Ok(Cmd::SwapLayers(one.place(), other.place(), transforms))
    } else {
        Ok(Cmd::SwapChannels(one.channel(), other.channel(), transforms))
    }
}
