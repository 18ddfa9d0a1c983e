//! The work at a door.
ghost use Rattle.std.specs.Prelude.{◌≡◌, ◌+◌, ◌<◌, None, length};
ghost use Rattle.play_types.specs.History.{stop_at};
ghost use Rattle.play_outside.specs.Fresh.{IsNewSink};
ghost use Rattle.conn_worker.specs.Work.{HasWorked, HasWorkedFrom};
ghost use Rattle.conn_worker.specs.Server.{HasStageOfConfig, setting_in};
ghost use Rattle.conn_worker.specs.inner.Door.{GivesBack, LooksAtStage, TakesTurn};

use crate::connection::Connection;
use crate::link_end::LinkEnd;
use crate::server::Server;
use crate::work_end::{MAX_SESSIONS, WorkEnd};
use play_outside::{Arrival, Listener, MOST_AWAY};
use play_session::Session;
use play_types::{Config, MediaNames};
use stage_lock::{Pass, SharedStage};
use std::alloc::Global;
use std::sync::Wait;

/// Serves the links of a door, one after another, until the door is closed or fails, the stage is stopped, or [`MAX_SESSIONS`] links
/// were served.
///
/// Each link is served as the next session, from 1 on, and given back. After each link, and when the door has no link yet, the worker
/// checks whether the stage was stopped before it asks the door again, so that links that come and go do not keep it from ending. If
/// the door fails, the worker stops the stage with tag 0.0, unless a stop came before.
pub fn work<R: Wait, D: Listener>(
    rt: &R,
    alloc: Global,
    stage: &SharedStage,
    pass: &mut Pass,
    session: &mut Session,
    config: &Config,
    media: &MediaNames,
    door: &mut D,
) -> WorkEnd
    requires of { pass.old.stage ≡ stage.now }
    requires channels { stage.now.sizes.channels ≡ length config.now.channels }
    requires limit { stage.now.sizes.limit ≡ config.now.journal_limit }
    requires running { stop_at pass.old.seen ≡ None }
    requires away { (D.state door.old).away < MOST_AWAY }
    ensures of { pass.new.stage ≡ stage.now }
    ensures worked { HasWorked
        (record { config = config.now; names = media.now; worker = pass.old.number; tells = D.Line.state; given = stage.now.sizes.given })
        result (record { pass = pass.old; door = D.state door.old }) (record { pass = pass.new; door = D.state door.new }) }
{
    let server = Server {
        alloc,
        stage,
        config,
        media,
    };
    server.work(rt, pass, session, door)
}

impl Server<'_> {
    /// Serves the links of a door, one after another, until the door is closed or fails, the stage is stopped, or [`MAX_SESSIONS`]
    /// links were served.
    ///
    /// It does what [`work`](crate::work) does, with the stage, the configuration and the names of the server.
    pub fn work<R: Wait, D: Listener>(
        &self,
        rt: &R,
        pass: &mut Pass,
        session: &mut Session,
        door: &mut D,
    ) -> WorkEnd
        requires stage { HasStageOfConfig self.now }
        requires of { pass.old.stage ≡ self.now.stage.now }
        requires running { stop_at pass.old.seen ≡ None }
        requires away { (D.state door.old).away < MOST_AWAY }
        ensures of { pass.new.stage ≡ self.now.stage.now }
        ensures worked { HasWorked (setting_in self.now pass.old.number D.Line.state) result
            (record { pass = pass.old; door = D.state door.old }) (record { pass = pass.new; door = D.state door.new }) }
    {
        self.work_from(rt, pass, session, door, 0)
    }

    /// Does what [`Server::work`] does, but serves the links as the sessions from `served + 1` up to [`MAX_SESSIONS`].
    ///
    /// `served` is the number of the last session of the pass that was used before, or 0.
    pub fn work_from<R: Wait, D: Listener>(
        &self,
        rt: &R,
        pass: &mut Pass,
        session: &mut Session,
        door: &mut D,
        served: u32,
    ) -> WorkEnd
        requires stage { HasStageOfConfig self.now }
        requires of { pass.old.stage ≡ self.now.stage.now }
        requires running { stop_at pass.old.seen ≡ None }
        requires away { (D.state door.old).away < MOST_AWAY }
        ensures of { pass.new.stage ≡ self.now.stage.now }
        ensures worked { HasWorkedFrom (setting_in self.now pass.old.number D.Line.state) served result
            (record { pass = pass.old; door = D.state door.old }) (record { pass = pass.new; door = D.state door.new }) }
    {
        let mut last = served;
        for _ in rt.forever() {
            if last == MAX_SESSIONS {
                return WorkEnd::SessionsOver;
            }
            match self.ask_door(rt, pass, session, last, door) {
                Ok(came) => last = came,
                Err(end) => return end,
            }
        }
        unreachable!()
    }

    /// Asks the door once, and returns the number of the last session that was used. A link that came is served as session `served + 1`.
    /// After it, or if there is none yet, the worker checks whether the stage was stopped.
    fn ask_door<R: Wait, D: Listener>(
        &self,
        rt: &R,
        pass: &mut Pass,
        session: &mut Session,
        served: u32,
        door: &mut D,
    ) -> Result<u32, WorkEnd>
        requires stage { HasStageOfConfig self.now }
        requires of { pass.old.stage ≡ self.now.stage.now }
        requires running { stop_at pass.old.seen ≡ None }
        requires away { (D.state door.old).away < MOST_AWAY }
        requires served { served < MAX_SESSIONS }
        ensures of { pass.new.stage ≡ self.now.stage.now }
        ensures takes { TakesTurn (setting_in self.now pass.old.number D.Line.state) served result
            (record { pass = pass.old; door = D.state door.old }) (record { pass = pass.new; door = D.state door.new }) }
    {
        match door.next() {
            Arrival::Came(line) => {
                self.serve_line(rt, pass, session, served + 1, line, door)?;
                Ok(served + 1)
            }
            Arrival::Again => {
                self.look(rt, pass)?;
                Ok(served)
            }
            Arrival::Closed => Err(WorkEnd::Closed),
            Arrival::Failed => {
                let _ = self.stage.stop(rt, pass, 0);
                Err(WorkEnd::DoorFault)
            }
        }
    }

    /// Serves a link as the session of this number, gives it back, and checks whether the stage was stopped, unless a stop was found
    /// while the link was served.
    fn serve_line<R: Wait, D: Listener>(
        &self,
        rt: &R,
        pass: &mut Pass,
        session: &mut Session,
        number: u32,
        mut line: D::Line,
        door: &mut D,
    ) -> Result<(), WorkEnd>
        requires stage { HasStageOfConfig self.now }
        requires of { pass.old.stage ≡ self.now.stage.now }
        requires running { stop_at pass.old.seen ≡ None }
        requires number { 0 < number }
        requires away { 0 < (D.state door.old).away }
        ensures of { pass.new.stage ≡ self.now.stage.now }
        ensures gives_back { GivesBack (setting_in self.now pass.old.number D.Line.state) number (D.Line.state line) result
            (record { pass = pass.old; door = D.state door.old }, record { pass = pass.new; door = D.state door.new }) }
    {
        let server = *self;
        let end = Connection { server, number }.serve(rt, pass, session, &mut line);
        door.give_back(line);
        match end {
            LinkEnd::Over | LinkEnd::Killed | LinkEnd::LinkFault => self.look(rt, pass),
            LinkEnd::Ended { at } => Err(WorkEnd::Ended { at }),
        }
    }

    /// Returns `Ended` if the history holds a stop.
    fn look<R: Wait>(&self, rt: &R, pass: &mut Pass) -> Result<(), WorkEnd>
        requires { pass.old.stage ≡ self.now.stage.now }
        ensures of { pass.new.stage ≡ self.now.stage.now }
        ensures looks { LooksAtStage self.now.stage.now.sizes.given result pass.old pass.new }
    {
        match self.stage.ended(rt, pass) {
            None => Ok(()),
            Some(at) => Err(WorkEnd::Ended { at }),
        }
    }
}
