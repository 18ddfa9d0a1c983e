//! The rule of the table, and the kinds of its steps.

use crate::view::{SeatView, Shape};
use atomic_table::{Join, Play, Split, TableRule};
use stage_core::Stage;

/// The rule of a shared stage.
pub(crate) struct StageRule;

impl TableRule<Option<Stage>, SeatView, Shape> for StageRule {
    ghost use Rattle.stage_lock.specs.Seats.{first_view};
    ghost use Rattle.stage_lock.specs.Rule.{Ruled};

    ghost holds = { Ruled };

    ghost first = { first_view };
}

/// The turn changes from free to held, and the stage goes to the seat that won it.
pub(crate) struct TakeTurn;

impl Play<Option<Stage>, SeatView> for TakeTurn {
    ghost use Rattle.stage_lock.specs.Rule.{TakesTurn};

    ghost then = { TakesTurn };
}

/// The length rises by one: the event enters the history.
pub(crate) struct EnterEvent;

impl Play<Option<Stage>, SeatView> for EnterEvent {
    ghost use Rattle.stage_lock.specs.Rule.{EntersEvent};

    ghost then = { EntersEvent };
}

/// The turn becomes free, with the stage back in its slot.
pub(crate) struct GiveTurn;

impl Play<Option<Stage>, SeatView> for GiveTurn {
    ghost use Rattle.stage_lock.specs.Rule.{GivesTurn};

    ghost then = { GivesTurn };
}

/// The holder of the turn reads the length, and learns what holds of the history and of the passes that it keeps.
pub(crate) struct Count;

impl Play<Option<Stage>, SeatView> for Count {
    ghost use Rattle.stage_lock.specs.Rule.{Counts};

    ghost then = { Counts };
}

/// A seat that another was joined to reads the length, and learns that both old histories are prefixes of the longer one.
pub(crate) struct Settle;

impl Play<Option<Stage>, SeatView> for Settle {
    ghost use Rattle.stage_lock.specs.Rule.{Settles};

    ghost then = { Settles };
}

/// Pass 0 makes the next pass.
pub(crate) struct Enroll;

impl Split<SeatView> for Enroll {
    ghost use Rattle.stage_lock.specs.Seats.{enrolled, newcomer};

    ghost left = { enrolled };

    ghost right = { λ v. newcomer v.sizes v.count };
}

/// A pass makes a note of what it has seen.
pub(crate) struct Tell;

impl Split<SeatView> for Tell {
    ghost use Rattle.stage_lock.specs.Seats.{noted};

    ghost left = { λ v. v };

    ghost right = { λ v. noted v.sizes v.seen };
}

/// A pass takes in a note.
pub(crate) struct Meet;

impl Join<SeatView> for Meet {
    ghost use Rattle.stage_lock.specs.Seats.{met, spent};

    ghost both = { met };

    ghost spent = { spent };
}

/// A pass takes in another pass.
pub(crate) struct Absorb;

impl Join<SeatView> for Absorb {
    ghost use Rattle.stage_lock.specs.Seats.{absorbed, spent};

    ghost both = { absorbed };

    ghost spent = { spent };
}
