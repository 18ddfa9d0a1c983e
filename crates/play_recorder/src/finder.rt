//! The search for the recording of a name while a history is made.
ghost use Rattle.std.specs.Prelude.{◌≡◌, ◌<◌, ◌++◌, ◌∷◌, [], List, None, Option};
ghost use Rattle.play_types.specs.declared.event.Event.{Event};
ghost use Rattle.play_types.specs.declared.event.Event.TheVariants.{Tick};
ghost use Rattle.play_types.specs.declared.event.TheConstants.{MAX_TICKS};
ghost use Rattle.history_model.specs.recordings.Film.{Begun, begun_on, film_span};
ghost use Rattle.history_model.specs.stage.Acts.{is_refused};
ghost use Rattle.play_recorder.specs.Finder.{FinderView, Represents, is_refusal};
ghost use Rattle.play_recorder.specs.inner.Begun.{begun_at, begun_next, followed, followed_all};

use crate::begun::Begun;
use crate::film::Film;
use play_types::{Answer, Cmd, CmdList, Event, RecName, Recording};
use std::marker::Model;

/// The first recording of a name in the events of a history so far, if one has begun.
#[derive(Debug, Drop)]
pub struct FilmFinder {
    name: RecName,
    ticks: u64,
    begun: Option<Begun>,
}

impl Model for FilmFinder {
    ghost use Rattle.play_recorder.specs.Finder.{FinderView};
    ghost use Rattle.play_recorder.specs.Finder.{IsInTime};

    ghost Value = { FinderView };

    ghost view = { λ f. record { name = f.name; ticks = f.ticks; begun = f.begun } };

    ghost invariant = { λ f. IsInTime f.ticks f.begun };
}

impl FilmFinder {
    /// Creates a finder for a name, before the first event.
    #[tactic(auto, unfolding(history_model::specs::recordings::Film::accepted_commands))]
    pub fn new(name: RecName) -> FilmFinder
        ensures name { result.name ≡ name }
        ensures ticks { result.ticks ≡ 0 }
        ensures represents { Represents result [] }
    {
        FilmFinder {
            name,
            ticks: 0,
            begun: None,
        }
    }

    /// Takes the next event of the history and the answer to it, which is `Done` for a tick and a stop. Before a tick, fewer than
    /// 281,474,976,710,656 ticks must have been taken.
    ///
    /// If the answer is `Refused` exactly if the event is refused, the finder then has the recording of the history with this event.
    pub fn event(&mut self, event: &Event, answer: &Answer)
        requires { event.now ≡ Tick → self.old.ticks < MAX_TICKS }
        ensures name { self.new.name ≡ self.old.name }
        ensures represents { (past : List Event) → Represents self.old past → is_refusal answer.now ≡ is_refused past event.now →
            Represents self.new (past ++ event.now ∷ []) }
    {
        let refused = is_refusal(answer);
        match event {
            Event::Do(_, cmd) => {
                if !refused {
                    self.follow(cmd);
                }
            }
            Event::Batch(_, cmds) => {
                if !refused {
                    self.follow_all(cmds);
                }
            }
            Event::Tick => self.ticks += 1,
            Event::Stop(_) => {}
        }
    }

    /// Returns the film of the recording in the events so far: `None` exactly if no recording of the name has begun, or no tick is
    /// recorded.
    pub fn film(&self) -> Option<Film>
        ensures { (events : List Event) → Represents self.now events → result ≡ film_span events self.now.name }
    {
        self.begun?.film(self.ticks)
    }

    /// Takes a command that was not refused.
    fn follow(&mut self, cmd: &Cmd)
        ensures { self.new ≡ followed self.old cmd.now }
    {
        if let Some(mark) = cmd.mark() {
            self.begun = self.begun_after(mark);
        }
    }

    /// Takes the commands of a batch that was not refused.
    fn follow_all(&mut self, cmds: &CmdList)
        ensures { self.new ≡ followed_all self.old cmds.now }
    {
        for cmd in cmds.as_slice() {
            self.follow(cmd);
        }
    }

    /// Returns the recording of the name after a mark.
    fn begun_after(&self, mark: Recording) -> Option<Begun>
        ensures { result ≡ begun_next self.now mark }
    {
        match self.begun {
            None => self.begin(mark),
            Some(begun) => Some(begun.marked(mark, self.ticks)),
        }
    }

    /// Returns the recording of the name that a mark begins.
    fn begin(&self, mark: Recording) -> Option<Begun>
        ensures { result ≡ begun_at self.now.name self.now.ticks mark }
    {
        let channel = self.begun_on(mark)?;
        Some(Begun {
            channel,
            first: self.ticks,
            end: None,
        })
    }

    /// Returns the channel on which a mark begins a recording of the name.
    fn begun_on(&self, mark: Recording) -> Option<u8>
        ensures { result ≡ begun_on self.now.name mark }
    {
        match mark {
            Recording::Begin(channel, name) => {
                if name.as_bytes() == self.name.as_bytes() {
                    Some(channel)
                } else {
                    None
                }
            }
            Recording::End(_) => None,
        }
    }
}

/// Returns whether an answer refuses its event.
fn is_refusal(answer: &Answer) -> bool
    ensures { result ≡ is_refusal answer.now }
{
    match answer {
        Answer::Refused => true,
        Answer::Done | Answer::Value(_) | Answer::Info(_) => false,
    }
}
