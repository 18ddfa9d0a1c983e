//! What a call does with the table: it takes the turn and the stage, and gives both back.
//!
//! The table has two words and one slot. LENGTH is the number of events of the history, TURN is 1 while a pass holds the turn,
//! and the slot has the stage while no pass has taken it out.
ghost use Rattle.std.specs.Prelude.{◌≡◌, ◌<◌, ◌^◌, OnErr, OnOk, true, false, [], length};
ghost use Rattle.stage_lock.specs.Views.{stage_of};
ghost use Rattle.stage_lock.specs.Seats.{enrolled, newcomer, noted, released};
ghost use Rattle.stage_lock.specs.Rule.{IsTold};
ghost use Rattle.stage_lock.specs.Steps.{HasAbsorbed, HasEntered, HasEvent, HasMet, HasWon, IsNote, IsOut, IsSized};

use crate::rule::{
    Absorb, Count, Enroll, EnterEvent, GiveTurn, Meet, Settle, StageRule, TakeTurn, Tell,
};
use crate::view::{SeatView, Shape};
use atomic_table::Shared;
use stage_core::Stage;
use std::sync::Wait;

/// The word with the number of events.
const LENGTH: usize = 0;

/// The word that is 1 while the turn is held, and 0 while it is free.
const TURN: usize = 1;

/// A seat of the table of a shared stage.
pub(crate) type Seat = atomic_table::Seat<Option<Stage>, SeatView>;

/// The words and the slot of a shared stage.
pub(crate) type Board = Shared<Option<Stage>, SeatView, Shape, StageRule>;

/// Waits for the turn, and takes the stage out. A thread that does not get the turn sleeps until it may be free.
pub(crate) fn take<R: Wait>(rt: &R, board: &Board, seat: &mut Seat) -> Stage
    requires board { IsSized board.now.table_id }
    requires of { seat.old.table_id ≡ board.now.table_id }
    requires pass { seat.old.me.0.is_pass ≡ true }
    requires free { seat.old.me.1 ≡ [] }
    ensures same { seat.new.table_id ≡ seat.old.table_id }
    ensures won { HasWon seat.old.me result seat.new.me }
{
    for _ in rt.forever() {
        if board.compare_exchange::<TakeTurn>(seat, TURN, 0, 1) == 0 {
            return board.exchange(seat, 0, None).unwrap();
        }
        board.park(rt, TURN, 1);
    }
    unreachable!()
}

/// Puts the stage back as it was, and gives up the turn.
pub(crate) fn give_back(board: &Board, seat: &mut Seat, stage: Stage)
    requires board { IsSized board.now.table_id }
    requires of { seat.old.table_id ≡ board.now.table_id }
    requires out { IsOut seat.old.me }
    requires stage { stage ≡ stage_of seat.old.me.0.sizes seat.old.me.0.seen }
    ensures same { seat.new.table_id ≡ seat.old.table_id }
    ensures me { seat.new.me ≡ (released seat.old.me.0, []) }
{
    drop(board.exchange(seat, 0, Some(stage)));
    board.store::<GiveTurn>(seat, TURN, 0);
    board.wake_one(TURN);
}

/// Puts the stage back with one event more, adds one to the length, which is the moment at which the event enters the
/// history, and gives up the turn.
fn enter(board: &Board, seat: &mut Seat, stage: Stage)
    requires board { IsSized board.now.table_id }
    requires of { seat.old.table_id ≡ board.now.table_id }
    requires out { IsOut seat.old.me }
    requires event { HasEvent seat.old.me.0 stage }
    ensures same { seat.new.table_id ≡ seat.old.table_id }
    ensures entered { HasEntered seat.old.me.0 stage seat.new.me }
{
    has_few_events(&stage);
    drop(board.exchange(seat, 0, Some(stage)));
    board.fetch_add::<EnterEvent>(seat, LENGTH, 1);
    board.store::<GiveTurn>(seat, TURN, 0);
    board.wake_one(TURN);
}

/// Puts the stage back after a call that adds an event, gives up the turn, and returns the result of the call. The event enters
/// the history if the call succeeded, and the stage is as it was if the call failed.
pub(crate) fn put_back<T, F>(
    board: &Board,
    seat: &mut Seat,
    stage: Stage,
    called: Result<T, F>,
) -> Result<T, F>
    requires board { IsSized board.now.table_id }
    requires of { seat.old.table_id ≡ board.now.table_id }
    requires out { IsOut seat.old.me }
    requires event { OnOk called (HasEvent seat.old.me.0 stage) }
    requires stage { OnErr called (stage ≡ stage_of seat.old.me.0.sizes seat.old.me.0.seen) }
    ensures same { seat.new.table_id ≡ seat.old.table_id }
    ensures result { result ≡ called }
    ensures entered { OnOk called (HasEntered seat.old.me.0 stage seat.new.me) }
    ensures kept { OnErr called (seat.new.me ≡ (released seat.old.me.0, [])) }
{
    match called {
        Ok(answer) => {
            enter(board, seat, stage);
            Ok(answer)
        }
        Err(fault) => {
            give_back(board, seat, stage);
            Err(fault)
        }
    }
}

/// States that the events of a stage can be counted in 64 bits: they are no more than its commands, its ticks and a stop.
fn has_few_events(stage: &Stage)
    ensures { length stage.now.journal.events < 2 ^ 50 }
{
    let _most = stage.journal().limit();
    let _held = stage.journal().held();
}

/// Makes the next pass.
pub(crate) fn enroll(board: &Board, first: &mut Seat) -> Seat
    requires board { IsSized board.now.table_id }
    requires of { first.old.table_id ≡ board.now.table_id }
    requires first { (first.old.me.0.is_pass ≡ true) × (first.old.me.0.number ≡ 0) }
    requires more { first.old.me.0.count < first.old.me.0.sizes.passes }
    ensures same { first.new.table_id ≡ first.old.table_id }
    ensures first { first.new.me ≡ (enrolled first.old.me.0, first.old.me.1) }
    ensures of { result.table_id ≡ first.old.table_id }
    ensures made { result.me ≡ (newcomer first.old.me.0.sizes first.old.me.0.count, []) }
{
    board.split_seat::<Enroll>(first)
}

/// Makes a note of what the seat has seen.
pub(crate) fn tell(board: &Board, seat: &mut Seat) -> Seat
    requires board { IsSized board.now.table_id }
    requires of { seat.old.table_id ≡ board.now.table_id }
    ensures same { seat.new.table_id ≡ seat.old.table_id }
    ensures me { seat.new.me ≡ seat.old.me }
    ensures of { result.table_id ≡ seat.old.table_id }
    ensures made { result.me ≡ (noted seat.old.me.0.sizes seat.old.me.0.seen, []) }
{
    board.split_seat::<Tell>(seat)
}

/// Makes the seat see at least what a note has.
pub(crate) fn meet(board: &Board, seat: &mut Seat, note: Seat)
    requires board { IsSized board.now.table_id }
    requires of { (seat.old.table_id ≡ board.now.table_id) × (note.table_id ≡ board.now.table_id) }
    requires rests { (seat.old.me.0.holds ≡ false) × (seat.old.me.0.olds ≡ []) }
    requires note { IsNote note.me }
    ensures same { seat.new.table_id ≡ seat.old.table_id }
    ensures slots { seat.new.me.1 ≡ seat.old.me.1 }
    ensures met { HasMet seat.old.me.0 note.me.0.seen seat.new.me.0 }
{
    board.join_seat::<Meet>(seat, note);
    board.load::<Settle>(seat, LENGTH);
}

/// Takes in another pass.
pub(crate) fn absorb(board: &Board, seat: &mut Seat, other: Seat)
    requires board { IsSized board.now.table_id }
    requires of { (seat.old.table_id ≡ board.now.table_id) × (other.table_id ≡ board.now.table_id) }
    requires rests { (seat.old.me.0.holds ≡ false) × (seat.old.me.0.olds ≡ []) × (seat.old.me.0.is_pass ≡ true) }
    requires other { (other.me.1 ≡ []) × (other.me.0.is_pass ≡ true) × (other.me.0.kept ≡ []) }
    ensures same { seat.new.table_id ≡ seat.old.table_id }
    ensures slots { seat.new.me.1 ≡ seat.old.me.1 }
    ensures absorbed { HasAbsorbed seat.old.me.0 other.me.0 seat.new.me.0 }
{
    board.join_seat::<Absorb>(seat, other);
    board.load::<Settle>(seat, LENGTH);
}

/// Reads the length as the holder of the turn, and learns what holds of the history and of the passes that the seat keeps.
pub(crate) fn count(board: &Board, seat: &mut Seat) -> u64
    requires board { IsSized board.now.table_id }
    requires of { seat.old.table_id ≡ board.now.table_id }
    requires holder { (seat.old.me.0.is_pass ≡ true) × (seat.old.me.0.holds ≡ true) }
    ensures length { result ≡ length seat.old.me.0.seen }
    ensures told { IsTold seat.old.me.0 }
{
    board.load::<Count>(seat, LENGTH)
}
