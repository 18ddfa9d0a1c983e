//! The copies of a sheet, in the order in which they are due.
ghost use Rattle.std.specs.Prelude.{◌≡◌, ◌+◌, ◌<◌, ◌≤◌, ◌^◌, ℕ, List, [], IfOk, OnOk, Some, false, length, slice_get};
ghost use Rattle.play_schedule.specs.Due.{is_due_after, last_moment};
ghost use Rattle.play_schedule.specs.declared.cue.Cue.{Cue as Cued};
ghost use Rattle.play_schedule.specs.Order.{IsOrderOf};

use crate::cue::Cue;
use std::alloc::{AllocError, Global};
use std::collections::BTreeMap;

/// The number of copies that are due, by their moment and the number of their cue.
pub type Order = BTreeMap<(u32, usize), u32>;

/// Returns the order of the copies of cues. The cues are numbered from 0.
pub fn order_of(alloc: Global, cues: &[Cue], ticks: u32) -> Result<Order, AllocError>
    requires { is_due_after ticks cues.now ≡ false }
    ensures { IfOk result (λ order. IsOrderOf cues.now ticks (length cues.now) order.entries) }
{
    let mut order = BTreeMap::new(alloc);
    for (at, cue) in cues.iter().enumerate() {
        add_cue(&mut order, at, cue)?;
    }
    Ok(order)
}

/// Adds the copies of the next cue, whose number is `at`.
fn add_cue(order: &mut Order, at: usize, cue: &Cue) -> Result<(), AllocError>
    requires { last_moment cue.now < 2 ^ 32 }
    ensures { (cues : List Cued) (ticks : ℕ) → slice_get cues at ≡ Some cue.now → last_moment cue.now ≤ ticks
        → IsOrderOf cues ticks at order.old.entries → OnOk result (IsOrderOf cues ticks (at + 1) order.new.entries) }
{
    let copies = cue.copies;
    if copies.interval > 0 {
        return add_each_copy(order, at, cue);
    }
    if copies.count > 0 {
        order.insert((cue.moment, at), copies.count)?;
    }
    Ok(())
}

/// Adds the copies of the next cue, each of which has a moment of its own.
fn add_each_copy(order: &mut Order, at: usize, cue: &Cue) -> Result<(), AllocError>
    requires late { 0 < cue.now.copies.interval }
    requires range { last_moment cue.now < 2 ^ 32 }
    ensures { (cues : List Cued) (ticks : ℕ) → slice_get cues at ≡ Some cue.now → last_moment cue.now ≤ ticks
        → IsOrderOf cues ticks at order.old.entries → OnOk result (IsOrderOf cues ticks (at + 1) order.new.entries) }
{
    for k in 0..cue.copies.count {
        order.insert((cue.moment + k * cue.copies.interval, at), 1)?;
    }
    Ok(())
}
