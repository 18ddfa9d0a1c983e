//! The viewing of a log.
ghost use Rattle.std.specs.Prelude.{◌≡◌, ◌<◌, ℕ, List, IfOk, IfSome, MatchResult, Option, length, option_map, string_bytes, true};
ghost use Rattle.history_model.specs.scripts.History.{Playout};
ghost use Rattle.http_pages.specs.declared.page.Page.{Page};
ghost use Rattle.server_setup.specs.declared.fault.RunFault.TheVariants.{OutOfMemory};
ghost use Rattle.live_view.specs.History.{history_of};
ghost use Rattle.live_view.specs.Messages.{messages_due, sent_after};
ghost use Rattle.live_view.specs.Page.{IsPage};
ghost use Rattle.live_view.specs.View.{IsView, IsViewOf, source_of, state_of};
ghost use Rattle.play_viewer.specs.Moves.{DeskState, Gave, Sent, after_move};
ghost use Rattle.play_viewer.specs.Viewing.{Viewed, Views};
ghost use Rattle.play_viewer.specs.inner.UnderWay.{GoesOn, IsUnderWay};

use crate::desk::{Asked, Desk, DeskStep};
use live_view::LiveView;
use server_setup::RunFault;
use std::alloc::{AllocError, Global};
use std::sync::Wait;
use std::thread::Threads;

/// The most bytes of the log that are taken at once.
const PIECE: usize = 16_384;

/// Views the log of an open desk, until the desk ends it or something fails.
pub(crate) fn view_log<R: Threads + Wait + Sync + Copy + Drop, D: Desk>(
    rt: &R,
    alloc: Global,
    view: LiveView<R>,
    desk: &mut D,
) -> Result<(), RunFault>
    requires { IsView (state_of view) }
    ensures views { (viewed : Viewed) (before : DeskState) → IsUnderWay viewed before (D.state desk.old) (state_of view) → Views viewed result before (D.state desk.new) }
    ensures folder { D.folder desk.new ≡ D.folder desk.old }
{
    let mut view = view;
    let mut room = [0; PIECE];
    for _ in rt.forever() {
        match take_step(alloc, view, &mut room, desk)? {
            Some(next) => view = next,
            None => return Ok(()),
        }
    }
    unreachable!()
}

/// Takes what comes next at the desk. Returns the view after it, or `None` if the desk has ended the viewing.
fn take_step<R: Threads + Sync + Copy + Drop, D: Desk>(
    alloc: Global,
    view: LiveView<R>,
    room: &mut [u8],
    desk: &mut D,
) -> Result<Option<LiveView<R>>, RunFault>
    requires view { IsView (state_of view) }
    requires room { 0 < length room.old }
    ensures view { IfOk result (λ next. IfSome next (λ view. IsView (state_of view))) }
    ensures goes { (viewed : Viewed) (before : DeskState) → IsUnderWay viewed before (D.state desk.old) (state_of view) → GoesOn viewed before (D.state desk.new) result }
    ensures folder { D.folder desk.new ≡ D.folder desk.old }
{
    match desk.next(room) {
        DeskStep::Read(count) => {
            let taken = view.take(alloc, &room[..count])?;
            Ok(Some(taken))
        }
        DeskStep::Asked(asked) => {
            answer(alloc, &view, &asked, desk)?;
            Ok(Some(view))
        }
        DeskStep::Waits => {
            let rested = send_messages(alloc, view, desk)?;
            Ok(Some(rested))
        }
        DeskStep::Ended => Ok(None),
        DeskStep::Failed => Err(RunFault::Device),
    }
}

/// Answers a request.
fn answer<R: Threads + Sync + Copy + Drop, D: Desk>(
    alloc: Global,
    view: &LiveView<R>,
    asked: &Asked,
    desk: &mut D,
) -> Result<(), AllocError>
    requires { IsView (state_of view.now) }
    ensures answers { (playout : Playout) (bytes : List ℕ) → IsViewOf playout bytes (state_of view.now) → MatchResult result
        (λ _. (page : Option Page) × IsPage (source_of playout bytes (state_of view.now)) (string_bytes asked.now.path) (option_map string_bytes asked.now.query) page
        × (D.state desk.new ≡ after_move (Gave page) (D.state desk.old)))
        (λ _. D.state desk.new ≡ D.state desk.old) }
    ensures folder { D.folder desk.new ≡ D.folder desk.old }
{
    let page = view.page(alloc, asked.path.as_str(), query_of(asked))?;
    desk.answer(page);
    Ok(())
}

/// Returns the query of a request.
fn query_of(asked: &Asked) -> Option<&str>
    ensures { option_map (λ query. query.now) result ≡ option_map string_bytes asked.now.query }
{
    asked.query.as_ref().map(|query| query.as_str())
}

/// Makes the frames of the last tick, sends its status messages if they were not sent yet, and returns the view.
fn send_messages<R: Threads + Sync + Copy + Drop, D: Desk>(
    alloc: Global,
    view: LiveView<R>,
    desk: &mut D,
) -> Result<LiveView<R>, RunFault>
    requires { IsView (state_of view) }
    ensures view { IfOk result (λ next. IsView (state_of next)) }
    ensures of_bytes { (playout : Playout) (bytes : List ℕ) → IsViewOf playout bytes (state_of view) → IfOk result (λ next. IsViewOf playout bytes (state_of next)) }
    ensures sends { (playout : Playout) (bytes : List ℕ) → IsViewOf playout bytes (state_of view) → MatchResult result
        (λ next. (next.sent ≡ sent_after view.sent (history_of playout bytes))
        × (D.state desk.new ≡ after_move (Sent (messages_due playout view.sent (history_of playout bytes))) (D.state desk.old)))
        (λ fault. (fault ≡ OutOfMemory) × (D.state desk.new ≡ D.state desk.old)) }
    ensures fresh { IfOk result (λ next. next.pictures ≡ true → next.display.is_fresh ≡ true) }
    ensures pictures { IfOk result (λ next. next.pictures ≡ view.pictures) }
    ensures folder { D.folder desk.new ≡ D.folder desk.old }
{
    let mut view = view;
    view.settle(alloc)?;
    let datagrams = view.status_datagrams(alloc)?;
    desk.send(datagrams.as_slice());
    Ok(view)
}
