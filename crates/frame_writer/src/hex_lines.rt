//! Frames as lines of hexadecimal.
ghost use Rattle.std.specs.Prelude.{◌≡◌, ◌*◌, ◌++◌, length};
ghost use Rattle.play_outside.specs.Sink.{Sends};
ghost use Rattle.play_outside.specs.Gathered.{Adds};
ghost use Rattle.history_model.specs.text.Frames.{frame_lines, head_line, row_lines, sound_line};

use crate::line::{GatheredText, add_line};
use itoa::Buffer;
use play_outside::{Sent, Sink};
use play_types::Geometry;

/// Writes a frame as lines: `F`, the channel and the tick; then each row from the top; then the sound, if the channel
/// has sound. Rows and sound are in lower-case hexadecimal. A pixel has four bytes, and so has a pair of sound. The lines
/// are gathered and written some 32,000 bytes at a time.
pub fn write_hex<K: Sink>(
    channel: u8,
    tick: u64,
    size: Geometry,
    frame: &[u8],
    sound: &[u8],
    to: &mut K,
) -> Sent
    requires frame_size { length frame.now ≡ 4 * size.width * size.height }
    requires sound_size { length sound.now ≡ 4 * size.pairs }
    ensures { Sends result (frame_lines channel tick size frame.now sound.now) (K.state to.old) (K.state to.new) }
{
    let mut text = GatheredText::new();
    add_head(channel, tick, &mut text, to)?;
    let row_length = 4 * usize::from(size.width);
    add_rows(row_length, size.height, frame, &mut text, to)?;
    add_sound(size.pairs, sound, &mut text, to)?;
    text.finish(to)
}

/// Adds the line that names the channel and the tick.
fn add_head<K: Sink>(channel: u8, tick: u64, text: &mut GatheredText, to: &mut K) -> Sent
    ensures { Adds result (text.old ++ head_line channel tick) text.new (K.state to.old) (K.state to.new) }
{
    text.add_parts(
        &[
            b"F ",
            Buffer::new().format(channel).as_bytes(),
            b" ",
            Buffer::new().format(tick).as_bytes(),
            b"\n",
        ],
        to,
    )
}

/// Adds rows of `row_length` bytes, each as a line.
fn add_rows<K: Sink>(
    row_length: usize,
    rows: u16,
    frame: &[u8],
    text: &mut GatheredText,
    to: &mut K,
) -> Sent
    requires { length frame.now ≡ row_length * rows }
    ensures { Adds result (text.old ++ row_lines row_length rows frame.now) text.new (K.state to.old) (K.state to.new) }
{
    for row in 0..rows {
        let at = usize::from(row) * row_length;
        add_line(&frame[at..at + row_length], text, to)?;
    }
    Sent::All
}

/// Adds the line of the sound, if the channel has sound.
fn add_sound<K: Sink>(pairs: u16, sound: &[u8], text: &mut GatheredText, to: &mut K) -> Sent
    ensures { Adds result (text.old ++ sound_line pairs sound.now) text.new (K.state to.old) (K.state to.new) }
{
    if pairs == 0 {
        Sent::All
    } else {
        add_line(sound, text, to)
    }
}
