//! The shared stage.
ghost use Rattle.std.specs.Prelude.{◌≡◌, ℕ, ◌+◌, ◌<◌, ◌≤◌, true, false, [], length, map, vec_capacity};
ghost use mathlib.Core.Option.{some};
ghost use lib.ListN.{get_elem?};
ghost use Rattle.stage_lock.specs.Calls.{new_passes, stop_tag};
ghost use Rattle.stage_lock.specs.Views.{PassView};
ghost use Rattle.stage_lock.specs.Seats.{first_view};
ghost use Rattle.stage_lock.specs.Steps.{AreEnrolled, HasTaken, IsSized};

use crate::note::Note;
use crate::pass::Pass;
use crate::rule::StageRule;
use crate::slot::{Board, Seat, absorb, count, enroll, give_back, meet, put_back, take, tell};
use crate::ticked::Ticked;
use crate::view::{SeatView, Shape};
use atomic_table::{Refused, Table};
use play_journal::Journal;
use play_types::{Answer, Cmd, Scenes, Tag};
use stage_core::{ApplyFault, Ended, Stage, TickFault};
use std::alloc::Global;
use std::marker::Model;
use std::snapshot::Snapshot;
use std::sync::Wait;

/// The most passes of a shared stage: one that ticks, one for each of 64 connection workers, and one that reads for the log.
pub const MAX_PASSES: u32 = 66;

/// A stage that threads share, each with a pass: contracts see which shared stage it is, the limit of its journal, the numbers
/// of its channels and passes, and the events that it held when it was shared.
#[derive(Drop)]
pub struct SharedStage {
    table: Table<Option<Stage>, SeatView, Shape, StageRule, Global>,
}

impl Model for SharedStage {
    ghost use Rattle.std.specs.Prelude.{◌<◌};
    ghost use Rattle.stage_lock.specs.Views.{SharedView};
    ghost use Rattle.stage_lock.specs.Steps.{IsSized};

    ghost Value = { SharedView };

    ghost view = { λ s. record { table_id = s.table.shared.table_id; sizes = s.table.shared.key } };

    ghost invariant = { λ s. IsSized s.table.shared.table_id × (0 < s.table.shared.key.passes) };
}

impl SharedStage {
    ghost use Rattle.std.specs.Prelude.{◌≡◌, ◌<◌, ◌≤◌, [], All, IfOk, IfErr, MatchResult, length};
    ghost use Rattle.std.specs.Fn.{CalledAt};
    ghost use Rattle.play_types.specs.History.{stop_at};
    ghost use Rattle.play_types.specs.declared.event.Event.TheVariants.{Batch, Do, Stop, Tick};
    ghost use Rattle.history_model.specs.commands.Channels.{IsServed};
    ghost use Rattle.stage_core.specs.Stage.{IsNoTick, IsNotTaken};
    ghost use Rattle.stage_lock.specs.declared.shared.TheConstants.{MAX_PASSES};
    ghost use Rattle.stage_lock.specs.Calls.{Adds, IsAnswered, IsCounted, IsStopped, IsTicked, Looks, Meets, new_passes, stop_tag, tag_of};
    ghost use Rattle.stage_lock.specs.Closing.{AreAll, IsLeft};
    ghost use Rattle.stage_lock.specs.Views.{journal_of, sizes_of, whole};

    /// Shares a stage among `passes` passes, 1 to 66, which are numbered from 0. The history of the passes begins after the
    /// events that the stage holds, none of which may be a stop. If memory runs out, the stage is handed back.
    pub fn share(
        alloc: Global,
        stage: Stage,
        passes: u32,
    ) -> Result<(SharedStage, Vec<Pass>), Stage>
        requires passes { (1 ≤ passes) × (passes ≤ MAX_PASSES) }
        requires running { stop_at stage.journal.events ≡ None }
        ensures sizes { IfOk result (λ shared. shared.0.sizes ≡ sizes_of stage passes) }
        ensures passes { IfOk result (λ shared. shared.1.items ≡ new_passes shared.0) }
        ensures err { IfErr result (λ back. back ≡ stage) }
    {
        let Ok(mut list) = Vec::with_capacity(alloc, passes as usize) else {
            return Err(stage);
        };
        let Ok(mut slots) = Vec::with_capacity(alloc, 1) else {
            return Err(stage);
        };
        let shape = Shape {
            stage: Snapshot::of(&stage),
            passes,
        };
        slots.push_reserved(Some(stage));
        match Table::new(alloc, &[0, 0], slots, &shape) {
            Ok((table, seat)) => {
                enroll_all(&table.shared, seat, &mut list, passes);
                Ok((SharedStage { table }, list))
            }
            Err(Refused { mut slots }) => Err(slots.pop().unwrap().unwrap()),
        }
    }

    /// Adds a command to the history, with the pass's number and `session` as its tag, and returns its answer. The command must
    /// name only channels of the stage. The call fails if the history holds a stop, which is tested first, then if the journal
    /// is full, and then if memory runs out. After a fault the history is as it was found.
    pub fn ask<R: Wait>(
        &self,
        rt: &R,
        alloc: Global,
        pass: &mut Pass,
        session: u32,
        cmd: Cmd,
    ) -> Result<Answer, ApplyFault>
        requires of { pass.old.stage ≡ self.now }
        requires names { IsServed self.now.sizes.channels cmd }
        ensures of { pass.new.stage ≡ self.now }
        ensures call { MatchResult result
            (λ reply. Adds pass.old (Do (tag_of pass.old.number session) cmd)
            (IsAnswered self.now.sizes (Do (tag_of pass.old.number session) cmd) reply) pass.new)
            (λ fault. Looks pass.old (λ history. IsNotTaken (journal_of self.now.sizes history) 1 fault) pass.new) }
    {
        let mut stage = take(rt, &self.table.shared, &mut pass.seat);
        let tag = Tag {
            worker: pass.number,
            session,
        };
        let answered = stage.apply(alloc, tag, cmd);
        put_back(&self.table.shared, &mut pass.seat, stage, answered)
    }

    /// Adds a batch to the history as one event, with the pass's number and `session` as its tag, and returns its answer. The
    /// batch must not be empty, and its commands must be such as [`SharedStage::ask`] accepts. The faults are those of that
    /// call. The journal is full if it has no room for all commands of the batch.
    pub fn ask_batch<R: Wait>(
        &self,
        rt: &R,
        alloc: Global,
        pass: &mut Pass,
        session: u32,
        cmds: &[Cmd],
    ) -> Result<Answer, ApplyFault>
        requires of { pass.old.stage ≡ self.now }
        requires some { 0 < length cmds.now }
        requires names { All (IsServed self.now.sizes.channels) cmds.now }
        ensures of { pass.new.stage ≡ self.now }
        ensures call { MatchResult result
            (λ reply. Adds pass.old (Batch (tag_of pass.old.number session) cmds.now)
            (IsAnswered self.now.sizes (Batch (tag_of pass.old.number session) cmds.now) reply) pass.new)
            (λ fault. Looks pass.old
            (λ history. IsNotTaken (journal_of self.now.sizes history) (length cmds.now) fault) pass.new) }
    {
        let mut stage = take(rt, &self.table.shared, &mut pass.seat);
        let tag = Tag {
            worker: pass.number,
            session,
        };
        let answered = stage.apply_batch(alloc, tag, cmds);
        put_back(&self.table.shared, &mut pass.seat, stage, answered)
    }

    /// Adds a tick to the history, writes what each channel shows at that tick into the scenes, and returns the number of the
    /// tick. The pass must have the number 0, and there must be as many scenes as the stage has channels. The call fails if the
    /// history holds a stop, which is tested first, or as many ticks as it may hold. After a fault the scenes are as before, and
    /// the history is as it was found.
    pub fn tick<R: Wait>(
        &self,
        rt: &R,
        pass: &mut Pass,
        scenes: &mut Scenes,
    ) -> Result<u64, TickFault>
        requires of { pass.old.stage ≡ self.now }
        requires first { pass.old.number ≡ 0 }
        requires scenes { length scenes.old ≡ self.now.sizes.channels }
        ensures of { pass.new.stage ≡ self.now }
        ensures call { MatchResult result
            (λ number. Adds pass.old Tick (IsTicked self.now.sizes number scenes.new) pass.new)
            (λ fault. (scenes.new ≡ scenes.old)
            × Looks pass.old (λ history. IsNoTick (journal_of self.now.sizes history) fault) pass.new) }
    {
        let ticked = self.tick_counted(rt, pass, scenes)?;
        Ok(ticked.number)
    }

    /// Adds a tick to the history, writes what each channel shows at that tick into the scenes, and returns the number of the
    /// tick and how many commands the history holds. Conditions and faults are those of [`SharedStage::tick`]. After a fault
    /// the scenes are as before, and the history is as it was found.
    pub fn tick_counted<R: Wait>(
        &self,
        rt: &R,
        pass: &mut Pass,
        scenes: &mut Scenes,
    ) -> Result<Ticked, TickFault>
        requires of { pass.old.stage ≡ self.now }
        requires first { pass.old.number ≡ 0 }
        requires scenes { length scenes.old ≡ self.now.sizes.channels }
        ensures of { pass.new.stage ≡ self.now }
        ensures call { MatchResult result
            (λ ticked. Adds pass.old Tick (IsCounted self.now.sizes ticked scenes.new) pass.new)
            (λ fault. (scenes.new ≡ scenes.old)
            × Looks pass.old (λ history. IsNoTick (journal_of self.now.sizes history) fault) pass.new) }
    {
        let mut stage = take(rt, &self.table.shared, &mut pass.seat);
        let held = stage.journal().held();
        let ticked = stage.tick(scenes);
        let number = put_back(&self.table.shared, &mut pass.seat, stage, ticked)?;
        Ok(Ticked { number, held })
    }

    /// Adds a stop to the history and returns its position among all events of the journal, counted from 0. Its tag is the
    /// pass's number and `session`, or 0.0 if `session` is 0. The call fails exactly if the history already holds a stop, and
    /// then leaves it as it was found.
    pub fn stop<R: Wait>(&self, rt: &R, pass: &mut Pass, session: u32) -> Result<u64, Ended>
        requires of { pass.old.stage ≡ self.now }
        ensures of { pass.new.stage ≡ self.now }
        ensures call { MatchResult result
            (λ at. Adds pass.old (Stop (stop_tag pass.old.number session)) (IsStopped self.now.sizes.given at) pass.new)
            (λ ended. Looks pass.old (λ history. stop_at (whole self.now.sizes history) ≡ Some ended.at) pass.new) }
    {
        let mut stage = take(rt, &self.table.shared, &mut pass.seat);
        let stopped = stage.stop(tag_of_stop(pass.number, session));
        put_back(&self.table.shared, &mut pass.seat, stage, stopped)
    }

    /// Returns the position of the stop, `None` exactly if the history that this call found holds none.
    pub fn ended<R: Wait>(&self, rt: &R, pass: &mut Pass) -> Option<u64>
        requires of { pass.old.stage ≡ self.now }
        ensures of { pass.new.stage ≡ self.now }
        ensures look { Looks pass.old (λ history. result ≡ stop_at (whole self.now.sizes history)) pass.new }
    {
        let stage = take(rt, &self.table.shared, &mut pass.seat);
        let at = stage.journal().stopped();
        give_back(&self.table.shared, &mut pass.seat, stage);
        at
    }

    /// Calls `look` with the journal of the history that this call finds, and returns what `look` returns. The turn is held
    /// meanwhile, so `look` must wait for nothing and take a bounded number of steps.
    pub fn read<R: Wait, T, F: FnMut(&Journal) -> T>(
        &self,
        rt: &R,
        pass: &mut Pass,
        look: &mut F,
    ) -> T
        requires of { pass.old.stage ≡ self.now }
        requires callable { F.IsAlwaysCallable look.old }
        ensures of { pass.new.stage ≡ self.now }
        ensures look { Looks pass.old (λ history. CalledAt F.FnMut look.old (journal_of self.now.sizes history) result look.new) pass.new }
    {
        let lent = take(rt, &self.table.shared, &mut pass.seat);
        let found = look(lent.journal());
        give_back(&self.table.shared, &mut pass.seat, lent);
        found
    }

    /// Makes a note of what the pass has seen, for [`SharedStage::meet`] of another pass. It waits for no other thread.
    pub fn note(&self, pass: &mut Pass) -> Note
        requires of { pass.old.stage ≡ self.now }
        ensures same { pass.new ≡ pass.old }
        ensures note { result ≡ record { table_id = self.now.table_id; seen = pass.old.seen } }
    {
        let seat = tell(&self.table.shared, &mut pass.seat);
        Note { seat }
    }

    /// Makes the pass see at least what the note has: it has then seen the longer of the two histories, of which the shorter
    /// is a prefix. It waits for no other thread.
    pub fn meet(&self, pass: &mut Pass, note: Note)
        requires of { pass.old.stage ≡ self.now }
        requires note { note.table_id ≡ self.now.table_id }
        ensures of { pass.new.stage ≡ self.now }
        ensures meets { Meets pass.old note.seen pass.new }
    {
        let Note { seat } = note;
        meet(&self.table.shared, &mut pass.seat, seat);
    }

    /// Takes every pass back, in any order, and returns the stage. What the passes have seen and made is in its journal, and
    /// each event since the stage was shared was made by exactly one of them, except for a stop of tag 0.0.
    pub fn close<R: Wait>(self, rt: &R, mut passes: Vec<Pass>) -> Stage
        requires { AreAll self passes.items }
        ensures { IsLeft self passes.items result }
    {
        let SharedStage { table } = self;
        let last = passes.pop().unwrap();
        let Pass {
            mut seat,
            number: _,
        } = last;
        absorb_all(&table.shared, &mut seat, passes);
        let stage = take(rt, &table.shared, &mut seat);
        count(&table.shared, &mut seat);
        stage
    }
}

/// Returns the tag of a stop: 0.0 in session 0, and the pass's number and the session otherwise.
fn tag_of_stop(number: u32, session: u32) -> Tag
    ensures { result ≡ stop_tag number session }
{
    if session == 0 {
        return Tag {
            worker: 0,
            session: 0,
        };
    }
    Tag {
        worker: number,
        session,
    }
}

/// Makes the passes from number 1 on, and puts all of them in the list, the first pass first.
fn enroll_all(board: &Board, mut first: Seat, list: &mut Vec<Pass>, passes: u32)
    requires board { IsSized board.now.table_id }
    requires of { first.table_id ≡ board.now.table_id }
    requires first { first.me ≡ (first_view first.me.0.sizes, []) }
    requires passes { (first.me.0.sizes.passes ≡ passes) × (0 < passes) }
    requires list { (list.old.items ≡ []) × (passes ≤ vec_capacity list.old) }
    ensures { list.new.items ≡ new_passes (record { table_id = first.table_id; sizes = first.me.0.sizes }) }
{
    for number in 1..passes {
        let seat = enroll(board, &mut first);
        list.push_reserved(Pass { seat, number });
    }
    let first = Pass {
        seat: first,
        number: 0,
    };
    list.insert(0, first).unwrap();
}

/// Takes in all these passes.
fn absorb_all(board: &Board, seat: &mut Seat, mut passes: Vec<Pass>)
    requires board { IsSized board.now.table_id }
    requires of { seat.old.table_id ≡ board.now.table_id }
    requires free { seat.old.me.1 ≡ [] }
    requires rests { (seat.old.me.0.holds ≡ false) × (seat.old.me.0.olds ≡ []) × (seat.old.me.0.kept ≡ []) }
    requires pass { seat.old.me.0.is_pass ≡ true }
    requires passes { (k : ℕ) (p : PassView) → get_elem? passes.items k ≡ some p → p.stage.table_id ≡ board.now.table_id }
    ensures same { seat.new.table_id ≡ seat.old.table_id }
    ensures free { seat.new.me.1 ≡ [] }
    ensures all { HasTaken passes.items seat.old.me.0 seat.new.me.0 }
{
    while let Some(pass) = passes.pop() {
        let Pass {
            seat: other,
            number: _,
        } = pass;
        absorb(board, seat, other);
    }
}
