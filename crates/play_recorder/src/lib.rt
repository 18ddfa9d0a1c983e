//! Films of recordings, and the frames of a history that goes on.
//!
//! `ADD` and `REMOVE` mark recordings in the history of a server. A `FilmFinder` takes the events of a history with their answers, one by
//! one, and finds which ticks of which channel are recorded under a name. `find_film` plays the events of a journal again and hands them
//! to a finder. `write_film` plays them too, and writes what the channel shows and sounds at these ticks as a clip file. It makes no
//! frames before those that the film needs, and keeps no frame but the last one. `FilmSource::write_watched` also reports the progress to
//! a [`Watcher`]. `last_frames` plays them for the frames of the last tick alone, with which a run goes on.
#![tactic(auto)]

mod begun;
mod depth_replay;
mod each_event;
mod film;
mod finder;
mod finding;
mod first_needed;
mod frame_replay;
mod last_replay;
mod last_tick;
pub mod laws;
mod recorder;
mod recording;
mod replay;
mod watcher;

pub use film::Film;
pub use finder::FilmFinder;
pub use finding::find_film;
pub use last_tick::{LastTickSource, last_frames};
pub use recording::{FilmSource, Recorded, write_film};
pub use watcher::{Unwatched, Watcher};
