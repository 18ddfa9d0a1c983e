//! Notes, which give a pass what another has seen.

use crate::slot::Seat;
use std::marker::Model;

/// What a pass had seen when the note was made: contracts see that history, and the shared stage that the note belongs to.
#[derive(Drop)]
pub struct Note {
    pub(crate) seat: Seat,
}

impl Model for Note {
    ghost use Rattle.stage_lock.specs.Views.{NoteView};
    ghost use Rattle.stage_lock.specs.Steps.{IsNote};

    ghost Value = { NoteView };

    ghost view = { λ n. record { table_id = n.seat.table_id; seen = n.seat.me.0.seen } };

    ghost invariant = { λ n. IsNote n.seat.me };
}
