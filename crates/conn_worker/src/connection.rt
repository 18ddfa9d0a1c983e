//! The execution of one step of a connection.
ghost use Rattle.std.specs.Prelude.{◌≡◌, ◌<◌, ℕ, List, None, Option, IfOk, false, length, option_map};
ghost use Rattle.play_types.specs.History.{stop_at};
ghost use Rattle.history_model.specs.commands.Channels.{IsAimed, AreAimed};
ghost use Rattle.history_model.specs.sessions.Session as model;
ghost use Rattle.history_model.specs.text.Replies.{IsReplyTo, reply_bytes};
ghost use Rattle.play_session.specs.Step.{gives_up, viewed};
ghost use Rattle.play_session.specs.Session.{Fits};
ghost use Rattle.conn_worker.specs.inner.Steps.{AsksFor, IsReady, SendsBytes, replied, service_in};
ghost use Rattle.conn_worker.specs.inner.UnderWay.{EndsAtStep, FollowsStep};

use crate::link_end::LinkEnd;
use crate::server::Server;
use amcp_text::ReqToken;
use play_outside::{Link, Sent};
use play_session::Step;
use play_types::{Answer, Cmd, JOURNAL_FULL, Name, OUT_OF_MEMORY, Reply};
use return_codes::send_reply;
use stage_core::{ApplyFault, Ended};
use stage_lock::Pass;
use std::sync::Wait;

/// A connection of a server. Its number, at least 1, is that of its session among those of its pass.
#[derive(Clone, Copy)]
pub(crate) struct Connection<'a> {
    pub server: Server<'a>,
    pub number: u32,
}

impl Connection<'_> {
    /// Executes a step, and sends its reply with the token of its line, if there is one. `batch` holds the commands of an
    /// `AskBatch` step.
    pub(crate) fn follow<R: Wait, L: Link>(
        &self,
        rt: &R,
        pass: &mut Pass,
        step: Step,
        batch: &[Cmd],
        token: Option<&ReqToken>,
        link: &mut L,
    ) -> Result<(), LinkEnd>
        requires ready { IsReady self.now }
        requires of { pass.old.stage ≡ self.now.server.stage.now }
        requires fits { Fits self.now.server.config.now step }
        requires aimed { AreAimed self.now.server.config.now batch.now }
        requires filled { step ≡ Step.AskBatch → 0 < length batch.now }
        requires running { stop_at pass.old.seen ≡ None }
        ensures of { pass.new.stage ≡ self.now.server.stage.now }
        ensures follows { (told : Option (List ℕ)) → (gives_up step ≡ false → option_map (λ token. token.now) token.entry ≡ told)
            → FollowsStep (service_in self.now pass.old.number) told (viewed step batch.now) result
            (record { pass = pass.old; link = L.state link.old }) (record { pass = pass.new; link = L.state link.new }) }
    {
        match step {
            Step::Local(reply) => self.send(&reply, token, link),
            Step::Ask(cmd) => {
                let reply = self.ask(rt, pass, cmd)?;
                self.send(&reply, token, link)
            }
            Step::AskBatch => {
                let reply = self.ask_batch(rt, pass, batch)?;
                self.send(&reply, token, link)
            }
            Step::Kill => Err(self.kill(rt, pass, token, link)),
            Step::Bye => Err(LinkEnd::Over),
            Step::Skip | Step::NeedMore => Ok(()),
        }
    }

    /// Asks the stage to execute `cmd`, and returns the reply.
    fn ask<R: Wait>(&self, rt: &R, pass: &mut Pass, cmd: Cmd) -> Result<Reply, LinkEnd>
        requires ready { IsReady self.now }
        requires of { pass.old.stage ≡ self.now.server.stage.now }
        requires aimed { IsAimed self.now.server.config.now cmd }
        ensures of { pass.new.stage ≡ self.now.server.stage.now }
        ensures fits { IfOk result (IsReplyTo self.now.server.config.now) }
        ensures asks { AsksFor (service_in self.now pass.old.number) (model.Ask cmd) result pass.old pass.new }
    {
        let answered = self
            .server
            .stage
            .ask(rt, self.server.alloc, pass, self.number, cmd);
        reply_to(cmd.name(), answered)
    }

    /// Asks the stage to execute `cmds` as a batch, and returns the reply.
    fn ask_batch<R: Wait>(&self, rt: &R, pass: &mut Pass, cmds: &[Cmd]) -> Result<Reply, LinkEnd>
        requires ready { IsReady self.now }
        requires of { pass.old.stage ≡ self.now.server.stage.now }
        requires aimed { AreAimed self.now.server.config.now cmds.now }
        requires filled { 0 < length cmds.now }
        ensures of { pass.new.stage ≡ self.now.server.stage.now }
        ensures fits { IfOk result (IsReplyTo self.now.server.config.now) }
        ensures asks { AsksFor (service_in self.now pass.old.number) (model.AskBatch cmds.now) result pass.old pass.new }
    {
        let answered = self
            .server
            .stage
            .ask_batch(rt, self.server.alloc, pass, self.number, cmds);
        reply_to(Name::Commit, answered)
    }

    /// Stops the stage. If this call made the stop, it sends the reply, and ignores a failure of the link.
    fn kill<R: Wait, L: Link>(
        &self,
        rt: &R,
        pass: &mut Pass,
        token: Option<&ReqToken>,
        link: &mut L,
    ) -> LinkEnd
        requires ready { IsReady self.now }
        requires of { pass.old.stage ≡ self.now.server.stage.now }
        ensures of { pass.new.stage ≡ self.now.server.stage.now }
        ensures kills { EndsAtStep (service_in self.now pass.old.number) (option_map (λ token. token.now) token.entry) model.KillServer result
            (record { pass = pass.old; link = L.state link.old }) (record { pass = pass.new; link = L.state link.new }) }
    {
        match self.server.stage.stop(rt, pass, self.number) {
            Ok(_) => {
                let _ = self.send(&Reply::Done(Name::Kill), token, link);
                LinkEnd::Killed
            }
            Err(Ended { at }) => LinkEnd::Ended { at },
        }
    }

    /// Sends `reply`, with `token` if there is one.
    fn send<L: Link>(
        &self,
        reply: &Reply,
        token: Option<&ReqToken>,
        link: &mut L,
    ) -> Result<(), LinkEnd>
        requires { IsReplyTo self.now.server.config.now reply.now }
        ensures { SendsBytes
            (reply_bytes self.now.server.config.now self.now.server.media.now (option_map (λ token. token.now) token.entry) reply.now)
            result (L.state link.old) (L.state link.new) }
    {
        let server = &self.server;
        match send_reply(reply, token, server.config, server.media, link) {
            Sent::All => Ok(()),
            Sent::Failed => Err(LinkEnd::LinkFault),
        }
    }
}

/// Returns the reply to a command or a batch of this name: 503 if the journal is full, and 501 if the stage had no memory. Returns
/// `Ended` if the stage was stopped before.
fn reply_to(name: Name, answered: Result<Answer, ApplyFault>) -> Result<Reply, LinkEnd>
    ensures { result ≡ replied name answered }
{
    match answered {
        Ok(answer) => Ok(Reply::to_answer(name, answer)),
        Err(ApplyFault::JournalFull { .. }) => Ok(Reply::Refused(JOURNAL_FULL, name)),
        Err(ApplyFault::OutOfMemory) => Ok(Reply::Refused(OUT_OF_MEMORY, name)),
        Err(ApplyFault::Ended { at }) => Err(LinkEnd::Ended { at }),
    }
}
