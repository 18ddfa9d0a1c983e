//! Names in quotation marks.
ghost use Rattle.std.specs.Prelude.{◌∷◌, ◌++◌, [], chars};
ghost use Rattle.play_outside.specs.Gathered.{Adds};
ghost use Rattle.history_model.specs.text.Commands.{Quoted};
ghost use Rattle.cmd_print.specs.inner.Bytes.{spaced};

use fixed_params::add_quoted;
use play_outside::{Gather, Sent, Sink};

/// Adds a name in quotation marks, with its escapes, after a space.
pub(crate) fn add_name<const ROOM: usize, K: Sink>(
    name: &str,
    text: &mut Gather<ROOM>,
    to: &mut K,
) -> Sent
    ensures { Adds result (text.old ++ spaced (Quoted (chars name.now) ∷ [])) text.new (K.state to.old) (K.state to.new) }
{
    text.add(b" ", to)?;
    add_quoted(name, text, to)
}
