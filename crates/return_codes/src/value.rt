//! Mixer values.
ghost use Rattle.std.specs.Prelude.{codes, ◌∷◌, ◌++◌, []};
ghost use Rattle.history_model.specs.text.Replies.{values_line};
ghost use Rattle.play_outside.specs.Gathered.{Adds};
ghost use Rattle.return_codes.specs.inner.Style.{styled_lines};

use crate::line::{GatheredText, LineStyle};
use fixed_params::MicroText;
use play_outside::{Sent, Sink};
use play_types::Micros;

/// Adds the reply to a query of the mixer: its first line, and the values in printed form with one space between them.
pub(crate) fn add_values<K: Sink>(
    micros: Micros,
    style: &LineStyle,
    text: &mut GatheredText,
    to: &mut K,
) -> Sent
    ensures { Adds result
        (text.old ++ styled_lines style.now (codes "201 MIXER OK" ∷ values_line micros ∷ []))
        text.new (K.state to.old) (K.state to.new) }
{
    let [a, b, c, d] = micros.values();
    let (a, b, c, d) = (
        MicroText::of(a),
        MicroText::of(b),
        MicroText::of(c),
        MicroText::of(d),
    );
    let parts: [&[u8]; 7] = [
        a.as_bytes(),
        b" ",
        b.as_bytes(),
        b" ",
        c.as_bytes(),
        b" ",
        d.as_bytes(),
    ];
    let used = (2 * usize::from(micros.count())).saturating_sub(1);
    style.add_two_lines(b"201 MIXER OK", &parts[..used], text, to)
}
