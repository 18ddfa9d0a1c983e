//! The names of the media table.
ghost use Rattle.std.specs.Prelude.{◌++◌, map, codes};
ghost use Rattle.std.specs.List.{flat_map};
ghost use Rattle.history_model.specs.text.Replies.{clip_text, numbers_text, media_line};
ghost use Rattle.play_outside.specs.Gathered.{Adds};
ghost use Rattle.return_codes.specs.inner.Style.{styled};

use crate::line::{GatheredText, LineStyle};
use fixed_params::add_quoted;
use itoa::Buffer;
use play_outside::{Sent, Sink};
use play_types::{MediaName, MediaNames};

/// Adds a line for each name of the media table.
pub(crate) fn add_names<K: Sink>(
    media: &MediaNames,
    style: &LineStyle,
    text: &mut GatheredText,
    to: &mut K,
) -> Sent
    ensures { Adds result
        (text.old ++ flat_map (styled style.now) (map media_line media.now))
        text.new (K.state to.old) (K.state to.new) }
{
    for clip in media.iter() {
        add_name(clip, style, text, to)?;
    }
    Sent::All
}

/// Adds the line of a name: the name in quotation marks, and the numbers of its clip or `UNREADABLE`.
fn add_name<K: Sink>(
    clip: &MediaName,
    style: &LineStyle,
    text: &mut GatheredText,
    to: &mut K,
) -> Sent
    ensures { Adds result (text.old ++ styled style.now (media_line clip.now)) text.new (K.state to.old) (K.state to.new) }
{
    style.add_head(text, to)?;
    add_quoted(clip.name().as_str(), text, to)?;
    add_clip(clip, text, to)?;
    text.add(style.after, to)
}

/// Adds what follows a name: a space, and the numbers of the clip or `UNREADABLE`.
fn add_clip<K: Sink>(clip: &MediaName, text: &mut GatheredText, to: &mut K) -> Sent
    ensures { Adds result (text.old ++ (codes " " ++ clip_text clip.now)) text.new (K.state to.old) (K.state to.new) }
{
    if clip.is_readable() {
        add_numbers(clip, text, to)
    } else {
        text.add(b" UNREADABLE", to)
    }
}

/// Adds the numbers of a clip: its size, its frames and its stereo pairs.
fn add_numbers<K: Sink>(clip: &MediaName, text: &mut GatheredText, to: &mut K) -> Sent
    ensures { Adds result (text.old ++ (codes " " ++ numbers_text clip.now)) text.new (K.state to.old) (K.state to.new) }
{
    text.add_parts(
        &[
            b" ",
            Buffer::new().format(clip.width()).as_bytes(),
            b"x",
            Buffer::new().format(clip.height()).as_bytes(),
            b" ",
            Buffer::new().format(clip.frames()).as_bytes(),
            b" ",
            Buffer::new().format(clip.pairs()).as_bytes(),
        ],
        to,
    )
}
