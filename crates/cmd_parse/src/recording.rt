//! ADD and REMOVE, which begin and end a recording.
ghost use Rattle.std.specs.Prelude.{◌≡◌};
ghost use Rattle.std.specs.Str.{chars};
ghost use Rattle.history_model.specs.commands.Recording.{add_file, channel_at, file_channel, names_clip, rec_name_at, remove_file};

use crate::line::Line;
use play_types::{Cmd, RecName, Refusal, is_same_name};

/// Reads an ADD: a channel at position 1, FILE at 2, and the name of the recording at 3.
#[tactic(auto, unfolding(history_model::specs::commands::Recording::add_file))]
pub fn add_file(line: &Line<'_>) -> Result<Cmd, Refusal>
    ensures { result ≡ add_file line.now }
{
    let channel = file_channel(line)?;
    let name = line.rec_name(3)?;
    line.end(4)?;
    Ok(Cmd::AddFile(channel, name))
}

/// Reads a REMOVE: a channel at position 1, and FILE at 2.
#[tactic(auto, unfolding(history_model::specs::commands::Recording::remove_file))]
pub fn remove_file(line: &Line<'_>) -> Result<Cmd, Refusal>
    ensures { result ≡ remove_file line.now }
{
    let channel = file_channel(line)?;
    line.end(3)?;
    Ok(Cmd::RemoveFile(channel))
}

/// Returns the channel at position 1. A word other than FILE at position 2 is refused as `Illegal`.
fn file_channel(line: &Line<'_>) -> Result<u8, Refusal>
    ensures { result ≡ file_channel line.now }
{
    let channel = line.whole_channel(1)?;
    if !line.stands(2, "FILE") {
        return Err(line.illegal(2));
    }
    Ok(channel)
}

impl Line<'_> {
    /// Returns the channel at a position. A channel that is not configured is refused as `Channel`, and one with a layer as
    /// `Illegal`.
    fn whole_channel(&self, at: usize) -> Result<u8, Refusal>
        ensures { result ≡ channel_at self.now at }
    {
        let area = self.area(at)?;
        if area.has_layer() {
            return Err(self.illegal(at));
        }
        Ok(area.channel())
    }

    /// Returns the name of a recording that the word at a position writes. A word that writes none, and one that is the name of
    /// a clip, is refused as `Illegal`.
    fn rec_name(&self, at: usize) -> Result<RecName, Refusal>
        ensures { result ≡ rec_name_at self.now at }
    {
        let word = self.word(at)?;
        if self.names_clip(word) {
            return Err(self.illegal(at));
        }
        RecName::read(word).ok_or(self.illegal(at))
    }

    /// Returns whether a clip of the media table has this name, in any case of its ASCII letters. The clip may be unreadable.
    fn names_clip(&self, word: &str) -> bool
        ensures { result ≡ names_clip self.now.media (chars word.now) }
    {
        self.media
            .iter()
            .any(|clip| is_same_name(clip.name().as_str(), word))
    }
}
