//! The film of a name, found in the history.
ghost use Rattle.std.specs.Prelude.{◌≡◌, ◌≤◌, [], IfOk, length};
ghost use Rattle.play_types.specs.History.{held};
ghost use Rattle.history_model.specs.recordings.Film.{film_span};
ghost use Rattle.play_recorder.specs.Recording.{AreServedEvents};
ghost use Rattle.play_recorder.specs.inner.Replay.{CanPlay, HasScenes, events_in};

use crate::each_event::each_event;
use crate::film::Film;
use crate::finder::FilmFinder;
use crate::replay::Replay;
use play_journal::Journal;
use play_types::{Config, RecName};
use std::alloc::{AllocError, Global};

/// Returns the film of a name in the events of a journal: `None` exactly if no recording of the name has begun, or no tick is recorded.
/// The events are played again, but no frame is made.
///
/// The layers, channels and routes in the journal must be of configured channels, and its commands must be no more than the limit of the
/// configuration's journal.
pub fn find_film(
    alloc: Global,
    config: &Config,
    journal: &Journal,
    name: RecName,
) -> Result<Option<Film>, AllocError>
    requires served { AreServedEvents (length config.now.channels) journal.now.events }
    requires room { held journal.now.events ≤ config.now.journal_limit }
    ensures { IfOk result (λ film. film ≡ film_span journal.now.events name) }
{
    let _held = journal.held();
    let mut replay = Replay::new(alloc, config)?;
    let film = film_in(&mut replay, alloc, journal, name);
    drop(replay);
    film
}

/// Plays the events of a journal with a replay of no events, and returns the film of a name in them.
fn film_in(
    replay: &mut Replay,
    alloc: Global,
    journal: &Journal,
    name: RecName,
) -> Result<Option<Film>, AllocError>
    requires scenes { HasScenes replay.old }
    requires new { events_in replay.old ≡ [] }
    requires can { CanPlay replay.old.stage journal.now.events }
    ensures { IfOk result (λ film. film ≡ film_span journal.now.events name) }
{
    let mut finder = FilmFinder::new(name);
    for event in each_event(journal) {
        let answer = replay.event(alloc, event)?;
        finder.event(event, &answer);
    }
    Ok(finder.film())
}
