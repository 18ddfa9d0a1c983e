//! A mix of two rows.
ghost use Rattle.std.specs.Prelude.{◌≡◌, ◌<◌, ◌%◌, ◌↔◌, true, length};
ghost use Rattle.pixel_math.specs.Arithmetic.{mix};
ghost use Rattle.lane_blend.specs.Rows.{AreLowered, IsRow, pixel_at, width_of};
ghost use Rattle.lane_blend.specs.Steps.{MixStep, step_of};
ghost use Rattle.lane_blend.specs.Weights.{AreMixWeights};

use crate::weights::{Weights, mix_byte};
use std::marker::Model;

/// Mixes each pixel of the row `old_in_out` with the one of `new` at the same place: at step `j` of `d` on the way to `new`.
/// Both rows have the same length and whole pixels, none with a colour byte above its alpha. For many rows at one step make
/// a [`RowMix`] once.
pub fn mix_row(new: &[u8], old_in_out: &mut [u8], j: u32, d: u32)
    requires after { 0 < j }
    requires before { j < d }
    requires lengths { length new.now ≡ length old_in_out.old }
    requires whole { length old_in_out.old % 4 ≡ 0 }
    requires new { AreLowered new.now }
    requires old { AreLowered old_in_out.old }
    ensures row { IsRow (width_of old_in_out.old) (λ i. mix (pixel_at old_in_out.old i) (pixel_at new.now i) j d) old_in_out.new }
    ensures lowered { AreLowered old_in_out.new }
{
    RowMix::new(j, d).apply(new, old_in_out);
}

/// A step of a mix, prepared once for mixing many rows. Contracts see the step.
#[derive(Drop)]
pub struct RowMix {
    j: u32,
    d: u32,
    weights: Option<Weights>,
}

impl Model for RowMix {
    ghost use Rattle.std.specs.Prelude.{◌<◌, IfSome};
    ghost use Rattle.lane_blend.specs.Steps.{IsMixStep, MixStep, step_of};
    ghost use Rattle.lane_blend.specs.Weights.{AreMixWeights};

    ghost Value = { MixStep };

    ghost view = { λ m. step_of m.j m.d };

    ghost invariant = { λ m. IsMixStep (step_of m.j m.d) × IfSome m.weights (AreMixWeights m.j m.d) };
}

impl RowMix {
    /// Prepares for mixing rows at step `j` of `d`: above 0 and below `d`.
    pub fn new(j: u32, d: u32) -> RowMix
        requires after { 0 < j }
        requires before { j < d }
        ensures { result ≡ step_of j d }
    {
        RowMix {
            j,
            d,
            weights: Weights::find(j, d),
        }
    }

    /// Returns whether it is step `j` of `d`.
    pub fn is_step(&self, j: u32, d: u32) -> bool
        ensures { (result ≡ true) ↔ (self.now ≡ step_of j d) }
    {
        self.j == j && self.d == d
    }

    /// Mixes each pixel of the row `old_in_out` with the one of `new` at the same place, as [`mix_row`] does. Both rows have
    /// the same length and whole pixels, none with a colour byte above its alpha.
    pub fn apply(&self, new: &[u8], old_in_out: &mut [u8])
        requires lengths { length new.now ≡ length old_in_out.old }
        requires whole { length old_in_out.old % 4 ≡ 0 }
        requires new { AreLowered new.now }
        requires old { AreLowered old_in_out.old }
        ensures row { IsRow (width_of old_in_out.old) (λ i. mix (pixel_at old_in_out.old i) (pixel_at new.now i) self.now.j self.now.d) old_in_out.new }
        ensures lowered { AreLowered old_in_out.new }
    {
        match self.weights {
            Some(weights) => mix_by_weights(new, old_in_out, weights, self.j, self.d),
            None => mix_plainly(new, old_in_out, self.j, self.d),
        }
    }
}

/// Mixes each pixel of two rows by the weights of a step.
fn mix_by_weights(new: &[u8], old_in_out: &mut [u8], weights: Weights, j: u32, d: u32)
    requires weights { AreMixWeights j d weights }
    requires lengths { length new.now ≡ length old_in_out.old }
    requires whole { length old_in_out.old % 4 ≡ 0 }
    ensures { IsRow (width_of old_in_out.old) (λ i. mix (pixel_at old_in_out.old i) (pixel_at new.now i) j d) old_in_out.new }
{
    let mut at = 0;
    'bytes: while at < old_in_out.len() {
        old_in_out[at] = weights.mixed(old_in_out[at], new[at], j, d);
        at += 1;
    }
}

/// Mixes each pixel of two rows at step `j` of `d` by a division for each byte.
fn mix_plainly(new: &[u8], old_in_out: &mut [u8], j: u32, d: u32)
    requires after { 0 < j }
    requires before { j < d }
    requires lengths { length new.now ≡ length old_in_out.old }
    requires whole { length old_in_out.old % 4 ≡ 0 }
    ensures { IsRow (width_of old_in_out.old) (λ i. mix (pixel_at old_in_out.old i) (pixel_at new.now i) j d) old_in_out.new }
{
    let mut at = 0;
    'bytes: while at < old_in_out.len() {
        old_in_out[at] = mix_byte(old_in_out[at], new[at], j, d);
        at += 1;
    }
}
