//! What a seat of the table knows, and the constants of the table's rule.

use stage_core::Stage;
use std::marker::Model;
use std::snapshot::Snapshot;

/// What a seat knows. No value of this type is made: to contracts it is a record of `specs/Seats.antt`.
pub(crate) struct SeatView {
    never: u8,
}

impl Model for SeatView {
    ghost use Rattle.stage_lock.specs.Seats.{SeatView as Knowledge, spent};

    ghost Value = { Knowledge };

    ghost view = { λ v. spent };
}

/// What does not change of a shared stage: contracts see the sizes of the stage that was shared, and the number of passes.
#[derive(Drop)]
pub(crate) struct Shape {
    pub(crate) stage: Snapshot<Stage>,
    pub(crate) passes: u32,
}

impl Model for Shape {
    ghost use Rattle.stage_lock.specs.Views.{Sizes, sizes_of};

    ghost Value = { Sizes };

    ghost view = { λ s. sizes_of s.stage.value s.passes };
}
