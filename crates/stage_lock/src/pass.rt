//! The token of a caller.

use crate::slot::Seat;
use std::marker::Model;

/// What a caller of a shared stage holds: contracts see the shared stage that it belongs to, its number, the history that it
/// has seen, how often it won the turn, and its own events in that history.
#[derive(Drop)]
pub struct Pass {
    pub(crate) seat: Seat,
    pub(crate) number: u32,
}

impl Model for Pass {
    ghost use Rattle.stage_lock.specs.Views.{PassView};
    ghost use Rattle.stage_lock.specs.Seats.{pass_view};
    ghost use Rattle.stage_lock.specs.Steps.{IsAtRest};

    ghost Value = { PassView };

    ghost view = { λ p. pass_view p.seat.table_id p.seat.me.0 };

    ghost invariant = { λ p. IsAtRest p.seat.me p.number };
}
