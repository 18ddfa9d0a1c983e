//! The loop that keeps a log.
ghost use Rattle.std.specs.Prelude.{◌≡◌, ◌++◌, List};
ghost use Rattle.play_types.specs.declared.event.Event.{Event};
ghost use Rattle.play_journal.specs.Places.{Copies, passed};
ghost use Rattle.stage_lock.specs.Calls.{Looks};
ghost use Rattle.stage_lock.specs.Views.{whole};
ghost use Rattle.history_log.specs.Log.{KeepsLog};

use crate::runs::{GATHERED, write_runs};
use play_journal::{Journal, LogRoom, Place};
use play_outside::{Gather, Rest, Sent};
use play_types::MediaNames;
use stage_lock::{Pass, SharedStage};
use std::sync::Wait;

/// Writes all events of the stage to the log, as text in which clips are named as in `names`, until it has written the stop or a write
/// fails: first the events that the stage was given when it was shared, and then those that came since, as they come.
///
/// The pass makes no event of its own. Each read of the journal copies the events that are not written yet, as many as the room holds,
/// and then their whole lines are written, a piece of the history at a time. After a read that reached the end of the journal, `log`
/// rests before the next one.
///
/// The result is `Failed` if a write failed. Then the log has a prefix of the text, and nothing more is written.
pub fn keep_log<R: Wait, K: Rest>(
    rt: &R,
    stage: &SharedStage,
    pass: &mut Pass,
    room: &mut LogRoom,
    names: &MediaNames,
    log: &mut K,
) -> Sent
    requires of { pass.old.stage ≡ stage.now }
    ensures of { pass.new.stage ≡ stage.now }
    ensures keeps { KeepsLog stage.now.sizes.given names.now result (record { pass = pass.old; sink = K.state log.old }) (record { pass = pass.new; sink = K.state log.new }) }
{
    let mut place = Place::start();
    let mut text = Gather::<GATHERED>::new();
    for _ in rt.forever() {
        let is_all = look(rt, stage, pass, &mut place, room);
        write_runs(room, names, &mut text, log)?;
        if place.has_stop() {
            return Sent::All;
        }
        if is_all {
            log.rest();
        }
    }
    unreachable!()
}

/// Copies the events after `place` into the room, as [`Journal::copy_since`] does, in one turn at the stage.
fn look<R: Wait>(
    rt: &R,
    stage: &SharedStage,
    pass: &mut Pass,
    place: &mut Place,
    room: &mut LogRoom,
) -> bool
    requires of { pass.old.stage ≡ stage.now }
    ensures of { pass.new.stage ≡ stage.now }
    ensures looks { Looks pass.old (λ history. (past later : List Event) → whole stage.now.sizes history ≡ past ++ later → place.old ≡ passed past
        → Copies past later result place.new room.new) pass.new }
{
    stage.read(
        rt,
        pass,
        &mut |journal: &Journal| -> bool
            ensures { (past later : List Event) → journal.now.events ≡ past ++ later → place.entry.now ≡ passed past
                → Copies past later result place.exit.now room.exit.now }
        { journal.copy_since(place, room) },
    )
}
