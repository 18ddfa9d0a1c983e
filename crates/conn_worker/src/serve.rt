//! The serving of one link.
ghost use Rattle.std.specs.Prelude.{◌≡◌, ◌<◌, ◌≤◌, None, [], false, length};
ghost use Rattle.play_types.specs.History.{stop_at};
ghost use Rattle.history_model.specs.commands.Channels.{AreAimed};
ghost use Rattle.stage_lock.specs.Calls.{tag_of};
ghost use Rattle.conn_worker.specs.Explained.{IsExplained};
ghost use Rattle.conn_worker.specs.Rounds.{bytes_in};
ghost use Rattle.conn_worker.specs.inner.Steps.{IsReady, service_in};
ghost use Rattle.conn_worker.specs.inner.UnderWay.{HasProgress, IsBetweenLooks, IsUnderWay, Past, TakesPiece, TakesRound, with_piece};

use crate::connection::Connection;
use crate::link_end::LinkEnd;
use crate::server::Server;
use play_outside::{Link, LinkStep};
use play_session::{Session, Step};
use play_types::{Config, MediaNames};
use stage_lock::{Pass, SharedStage};
use std::alloc::Global;
use std::sync::Wait;

/// The most bytes that are read from a link at once.
const PIECE: usize = 4_096;

/// Serves a link until its client ends, the link fails, or the stage is stopped.
///
/// `number`, at least 1, is that of the session among those of the pass. The lines are executed one after another, and the reply
/// to each is written before the next one is executed.
pub fn serve_link<R: Wait, L: Link>(
    rt: &R,
    alloc: Global,
    stage: &SharedStage,
    pass: &mut Pass,
    session: &mut Session,
    number: u32,
    config: &Config,
    media: &MediaNames,
    link: &mut L,
) -> LinkEnd
    requires of { pass.old.stage ≡ stage.now }
    requires channels { stage.now.sizes.channels ≡ length config.now.channels }
    requires limit { stage.now.sizes.limit ≡ config.now.journal_limit }
    requires number { 1 ≤ number }
    requires running { stop_at pass.old.seen ≡ None }
    ensures of { pass.new.stage ≡ stage.now }
    ensures explained { IsExplained (record { config = config.now; names = media.now; tag = tag_of pass.old.number number; given = stage.now.sizes.given }) result
        (record { pass = pass.old; link = L.state link.old }) (record { pass = pass.new; link = L.state link.new }) }
{
    let server = Server {
        alloc,
        stage,
        config,
        media,
    };
    Connection { server, number }.serve(rt, pass, session, link)
}

impl Connection<'_> {
    /// Serves a link until its client ends, the link fails, or the stage is stopped.
    pub(crate) fn serve<R: Wait, L: Link>(
        &self,
        rt: &R,
        pass: &mut Pass,
        session: &mut Session,
        link: &mut L,
    ) -> LinkEnd
        requires ready { IsReady self.now }
        requires of { pass.old.stage ≡ self.now.server.stage.now }
        requires running { stop_at pass.old.seen ≡ None }
        ensures of { pass.new.stage ≡ self.now.server.stage.now }
        ensures explained { IsExplained (service_in self.now pass.old.number) result
            (record { pass = pass.old; link = L.state link.old }) (record { pass = pass.new; link = L.state link.new }) }
    {
        session.restart();
        let mut buffer = [0; PIECE];
        for _ in rt.forever() {
            match self.serve_look(rt, pass, session, &mut buffer, link) {
                Ok(()) => {}
                Err(end) => return end,
            }
        }
        unreachable!()
    }

    /// Reads from the link once, and executes the lines that end in what was read. If there is nothing yet, it checks whether the
    /// stage was stopped.
    fn serve_look<R: Wait, L: Link>(
        &self,
        rt: &R,
        pass: &mut Pass,
        session: &mut Session,
        buffer: &mut [u8],
        link: &mut L,
    ) -> Result<(), LinkEnd>
        requires ready { IsReady self.now }
        requires of { pass.old.stage ≡ self.now.server.stage.now }
        requires buffer { 0 < length buffer.old }
        requires known { HasProgress self.now.server.config.now self.now.server.media.now session.old }
        requires going { session.old.ended ≡ false }
        requires aimed { AreAimed self.now.server.config.now session.old.batch }
        requires running { stop_at pass.old.seen ≡ None }
        ensures of { pass.new.stage ≡ self.now.server.stage.now }
        ensures takes { (past : Past) → past.service ≡ service_in self.now pass.old.number
            → IsBetweenLooks past (record { standing = record { pass = pass.old; link = L.state link.old }; session = session.old })
            → TakesRound past result (record { standing = record { pass = pass.new; link = L.state link.new }; session = session.new }) }
    {
        match link.read(buffer) {
            LinkStep::Got(count) => self.take_piece(rt, pass, session, &buffer[..count], link),
            LinkStep::End => Err(LinkEnd::Over),
            LinkStep::Again => match self.server.stage.ended(rt, pass) {
                None => Ok(()),
                Some(at) => Err(LinkEnd::Ended { at }),
            },
            LinkStep::Failed => Err(LinkEnd::LinkFault),
        }
    }

    /// Feeds `piece` to the session, and executes the step of each line that ends in it.
    fn take_piece<R: Wait, L: Link>(
        &self,
        rt: &R,
        pass: &mut Pass,
        session: &mut Session,
        piece: &[u8],
        link: &mut L,
    ) -> Result<(), LinkEnd>
        requires ready { IsReady self.now }
        requires of { pass.old.stage ≡ self.now.server.stage.now }
        requires known { HasProgress self.now.server.config.now self.now.server.media.now session.old }
        requires going { session.old.ended ≡ false }
        requires aimed { AreAimed self.now.server.config.now session.old.batch }
        requires running { stop_at pass.old.seen ≡ None }
        ensures of { pass.new.stage ≡ self.now.server.stage.now }
        ensures takes { (past : Past) → past.service ≡ service_in self.now pass.old.number
            → IsUnderWay (with_piece past piece.now []) (bytes_in past.rounds) (record { standing = record { pass = pass.old; link = L.state link.old }; session = session.old })
            → TakesPiece past piece.now result (record { standing = record { pass = pass.new; link = L.state link.new }; session = session.new }) }
    {
        let mut at = 0;
        for _ in rt.forever() {
            at += session.feed(&piece[at..]);
            let step = session.next(self.server.alloc, self.server.config, self.server.media);
            if at == piece.len() && matches!(step, Step::NeedMore) {
                return Ok(());
            }
            self.follow(rt, pass, step, session.batch(), session.token(), link)?;
        }
        unreachable!()
    }
}
