//! The gate that bands of rows pass.
ghost use Rattle.std.specs.Prelude.{◌≡◌, ℕ, Bool, true};

use crate::band::Band;

/// A gate, which a renderer enters before the first row of each band.
pub trait Gate: Sync {
    /// Whether the band of a number was let in. For a gate of unknown type only a call of [`Gate::enter`] shows this.
    ghost entered: { Self → ℕ → Bool } = { λ gate band. true };

    /// Lets the band of this number in. Bands are numbered from 0 over all channels. It always returns.
    fn enter(&self, band: u32)
        ensures { Self.entered self.now band ≡ true };
}

/// A gate that does nothing.
#[derive(Clone, Copy, Debug, PartialEq, Eq)]
pub struct OpenGate;

impl Gate for OpenGate {
    fn enter(&self, _band: u32) {}
}

/// A band that a gate has let in. Rows are made only for such a band.
#[derive(Drop)]
pub(crate) struct LetIn<'a, G: Gate> {
    gate: &'a G,
    pub band: &'a Band,
    ghost entered: { G.entered gate.now band.now.number ≡ true },
}

impl<'a, G: Gate> LetIn<'a, G> {
    /// Enters the gate with the number of a band.
    pub(crate) fn new(gate: &'a G, band: &'a Band) -> LetIn<'a, G>
        ensures band { result.band.now ≡ band.now }
        ensures entered { G.entered gate.now band.now.number ≡ true }
    {
        gate.enter(band.number);
        LetIn { gate, band }
    }
}
