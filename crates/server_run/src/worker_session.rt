//! The sessions of the connection workers.
ghost use Rattle.std.specs.Prelude.{◌≡◌, ◌∷◌, [], IfOk, max};
ghost use Rattle.server_run.specs.Doors.{last_session, session_by};
ghost use Rattle.server_run.specs.inner.Threads.{counts_of, sessions_in};

use play_journal::Journal;
use play_session::Session;
use play_types::{Event, Tag};
use std::alloc::{AllocError, Global};

/// The session of a connection worker, in which it serves one link after another.
#[derive(Drop)]
pub(crate) struct WorkerSession {
    pub(crate) session: Session,
    /// The number of the last session of the worker that was used.
    pub(crate) served: u32,
}

/// Creates the sessions of `count` workers, which are numbered from 1. The sessions of each are counted from the last one in the journal
/// on.
pub(crate) fn sessions(
    alloc: Global,
    journal: &Journal,
    count: u32,
) -> Result<Vec<WorkerSession>, AllocError>
    ensures { IfOk result (λ sessions. counts_of sessions.items ≡ sessions_in journal.now.events count) }
{
    let mut sessions = Vec::new(alloc);
    for place in 0..count {
        let session = Session::new(alloc)?;
        let served = last_session(journal, place + 1);
        sessions.push(WorkerSession { session, served })?;
    }
    Ok(sessions)
}

/// Returns the greatest session of the tags of a worker in a journal, and 0 if there is none.
fn last_session(journal: &Journal, worker: u32) -> u32
    ensures { result ≡ last_session worker journal.now.events }
{
    let mut last = 0;
    for run in journal.events() {
        last = greater(last, session_by(worker, run.event));
    }
    last
}

/// Returns the greater of two numbers.
fn greater(one: u32, other: u32) -> u32
    ensures { result ≡ max one other }
{
    if one < other { other } else { one }
}

/// Returns the session of an event of this worker, and 0 for other events.
fn session_by(worker: u32, event: &Event) -> u32
    ensures { result ≡ last_session worker (event.now ∷ []) }
{
    match event {
        Event::Do(tag, _) | Event::Batch(tag, _) | Event::Stop(tag) => session_of(worker, *tag),
        Event::Tick => 0,
    }
}

/// Returns the session of a tag of this worker, and 0 for a tag of another worker.
fn session_of(worker: u32, tag: Tag) -> u32
    ensures { result ≡ session_by worker tag }
{
    if tag.worker == worker { tag.session } else { 0 }
}
