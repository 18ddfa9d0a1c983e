//! The player: the stage with the history so far, the scenes of its last tick, and the connections.
ghost use Rattle.std.specs.Prelude.{◌≡◌, ◌≢◌, ℕ, ◌+◌, ◌*◌, ◌≤◌, ◌∷◌, Err, List, [], IfOk, OnOk, Option, false, true, length};
ghost use Rattle.std.specs.List.{list_any};
ghost use Rattle.amcp_text.specs.Lines.{is_line_end};
ghost use Rattle.play_types.specs.History.{ticks};
ghost use Rattle.play_types.specs.declared.event.Event.TheVariants.{Stop};
ghost use Rattle.play_types.specs.declared.event.TheConstants.{MAX_TICKS};
ghost use Rattle.history_model.specs.declared.limits.TheConstants.{MAX_TICKS_PER_LINE};
ghost use Rattle.history_model.specs.text.Replies.{IsReplyTo, answer_lines};
ghost use Rattle.history_model.specs.commands.Channels.{IsAimed};
ghost use Rattle.history_model.specs.scripts.Line.{Said, meaning};
ghost use Rattle.history_model.specs.scripts.History.{Playout, PlayedLine, goes_on};
ghost use Rattle.history_model.specs.scripts.Output.{tagged_lines};
ghost use Rattle.play_session.specs.Step.{gives_up, viewed};
ghost use Rattle.play_session.specs.Session.{Fits};
ghost use Rattle.script_player.specs.Playouts.{playout_of};
ghost use Rattle.script_player.specs.Clients.{batch_of};
ghost use Rattle.script_player.specs.Player.{DoesRequest, FollowsStep, IsGoingOn, IsReady, MakesEvents, MakesNoTick, PlaysLine, RepliesTo, Represents, WritesReply, answering, batch_request, command_request, events_in};
ghost use Rattle.script_player.specs.Display.{IsShownBy, IsStillShownBy};
ghost use Rattle.script_player.specs.Ticks.{ticks_per_byte};
ghost use Rattle.script_player.specs.Shown.{Shown, memory_needed};

use crate::clients::{ClientStep, Clients};
use crate::display::Display;
use crate::ending::Halt;
use crate::line::{NumberedLine, ScriptLine, meaning};
use crate::reply::send_tagged_reply;
use crate::teller::Teller;
use amcp_text::ReqToken;
use play_outside::Sink;
use play_session::{Step, illegal_word};
use play_types::{
    Answer, Cmd, ILLEGAL_WORD, JOURNAL_FULL, Name, OUT_OF_MEMORY, Reply, Scenes, Tag,
};
use server_setup::ServerSetup;
use stage_core::{ApplyFault, Stage};
use std::alloc::{AllocError, Global};

/// The tag of the server itself, for its own stop.
const SERVER: Tag = Tag {
    worker: 0,
    session: 0,
};

/// The setup, whether frames are written as digests, whether a reply that reports out of memory stops the run, the connections, the stage
/// with the history so far, and the scenes of its last tick.
#[derive(Drop)]
pub struct Player {
    pub setup: ServerSetup,
    pub digests: bool,
    pub needs_memory: bool,
    pub clients: Clients,
    pub stage: Stage,
    pub scenes: Scenes,
}

impl Player {
    /// Returns a player without connections and without a history, with memory for the live layers and the scenes of all channels. With
    /// `digests` frames are written as digests. With `needs_memory` a run stops at a reply that reports out of memory, which is not
    /// written.
    pub fn new(
        alloc: Global,
        setup: ServerSetup,
        digests: bool,
        needs_memory: bool,
    ) -> Result<Player, AllocError>
        ensures ready { IfOk result IsReady }
        ensures empty { IfOk result (λ player. events_in player ≡ []) }
        ensures setup { IfOk result (λ player. player.setup ≡ setup) }
        ensures represents { IfOk result (λ player. (shown : Shown) → memory_needed shown ≡ needs_memory → Represents shown (playout_of setup digests) player []) }
    {
        let stage = Stage::new(alloc, &setup.config)?;
        let scenes = Scenes::new(alloc, &setup.config)?;
        Ok(Player {
            setup,
            digests,
            needs_memory,
            clients: Clients::new(alloc),
            stage,
            scenes,
        })
    }

    /// Executes a line, given without its end, and returns the reply that it wrote, if there is one.
    pub fn take_line<D: Display, K: Sink>(
        &mut self,
        alloc: Global,
        line: &[u8],
        display: &mut D,
        out: &mut K,
    ) -> Result<Option<Reply>, Halt>
        requires ready { IsReady self.old }
        requires time { ticks (events_in self.old) + MAX_TICKS_PER_LINE ≤ MAX_TICKS }
        requires shown { IsShownBy (D.shows display.old) (D.waiting display.old) self.old }
        ensures ready { OnOk result (IsReady self.new) }
        ensures grows { OnOk result (ticks (events_in self.new) ≤ ticks (events_in self.old) + ticks_per_byte * (length line.now + 1)) }
        ensures setup { self.new.setup ≡ self.old.setup }
        ensures told { D.shown display.new ≡ D.shown display.old }
        ensures shown { OnOk result (IsShownBy (D.shows display.new) (D.waiting display.new) self.new) }
        ensures stopped { result ≡ Err Halt.Stop → IsStillShownBy (D.shows display.new) (D.waiting display.new) self.new }
        ensures plays { (shown : Shown) (playout : Playout) (played : List PlayedLine) → shown ≡ D.shown display.old
            → list_any is_line_end line.now ≡ false → goes_on playout played ≡ true → Represents shown playout self.old played
            → PlaysLine (record { playout = playout; shown = shown; before = played; line = meaning line.now }) result self.new (K.state out.old) (K.state out.new) }
    {
        match meaning(line) {
            ScriptLine::Comment => Ok(None),
            ScriptLine::Ticks(count) => {
                self.tick(count, display, out)?;
                Ok(None)
            }
            ScriptLine::Said(tag, text) => self.take_client_line(alloc, tag, text, out),
            ScriptLine::Stop => {
                self.stop(SERVER);
                Err(Halt::Stop)
            }
            ScriptLine::Rejected => Err(Halt::Rejected),
        }
    }

    /// Reports to `teller` the word for which a line was refused, if `reply` refuses it for a word and a person listens.
    /// If there is no memory for finding the word, nothing is reported.
    pub(crate) fn tell_refusal<T: Teller>(
        &self,
        alloc: Global,
        line: NumberedLine<'_>,
        reply: Option<Reply>,
        teller: &mut T,
    ) {
        if !teller.listens() || !is_refused(reply) {
            return;
        }
        if let ScriptLine::Said(_tag, text) = meaning(line.bytes) {
            let found = illegal_word(alloc, &self.setup.config, &self.setup.names, text);
            if let Ok(Some(word)) = found {
                teller.tell_refused_word(line.number, text, word);
            }
        }
    }

    /// Executes a line of a connection, and returns the reply that was written, if there is one.
    pub fn take_client_line<K: Sink>(
        &mut self,
        alloc: Global,
        tag: Tag,
        text: &[u8],
        out: &mut K,
    ) -> Result<Option<Reply>, Halt>
        requires { IsReady self.old }
        ensures ready { OnOk result (IsReady self.new) }
        ensures ticks { ticks (events_in self.new) ≡ ticks (events_in self.old) }
        ensures makes { MakesNoTick self.old self.new }
        ensures plays { (shown : Shown) (playout : Playout) (played : List PlayedLine) → list_any is_line_end text.now ≡ false → goes_on playout played ≡ true
            → Represents shown playout self.old played
            → PlaysLine (record { playout = playout; shown = shown; before = played; line = Said tag text.now }) result self.new (K.state out.old) (K.state out.new) }
    {
        match self.clients.take_line(alloc, tag, text, &self.setup)? {
            Some(given) => self.follow_step(alloc, tag, given, out),
            None => Ok(None),
        }
    }

    /// Executes the step of a connection's line, and returns the reply that was written, if there is one. The written reply has the
    /// token, if there is one.
    fn follow_step<K: Sink>(
        &mut self,
        alloc: Global,
        tag: Tag,
        given: ClientStep,
        out: &mut K,
    ) -> Result<Option<Reply>, Halt>
        requires ready { IsReady self.old }
        requires fits { Fits self.old.setup.config given.step }
        requires filled { given.step ≡ Step.AskBatch → batch_of tag self.old.clients.list.items ≢ [] }
        ensures ready { OnOk result (IsReady self.new) }
        ensures ticks { ticks (events_in self.new) ≡ ticks (events_in self.old) }
        ensures follows { (told : Option (List ℕ)) → (gives_up given.step ≡ false → given.token ≡ told)
            → FollowsStep (record { player = self.old; tag = tag; step = viewed given.step (batch_of tag self.old.clients.list.items); token = told }) result self.new (K.state out.old) (K.state out.new) }
    {
        let ClientStep { step, token } = given;
        match step {
            Step::Local(reply) => self.write_reply(tag, reply, token, out),
            Step::Ask(cmd) => {
                let reply = self.do_command(alloc, tag, cmd);
                self.write_reply(tag, reply, token, out)
            }
            Step::AskBatch => {
                let reply = self.do_batch(alloc, tag);
                self.write_reply(tag, reply, token, out)
            }
            Step::Kill => {
                self.stop(tag);
                self.write_reply(tag, Reply::Done(Name::Kill), token, out)?;
                Err(Halt::Stop)
            }
            Step::Bye | Step::Skip | Step::NeedMore => Ok(None),
        }
    }

    /// Applies a command on configured channels, and returns the reply to it.
    ///
    /// A command above the limit of the journal is refused with 503, and one for which there is no memory with 501. The history does not
    /// change then.
    fn do_command(&mut self, alloc: Global, tag: Tag, cmd: Cmd) -> Reply
        requires ready { IsReady self.old }
        requires aimed { IsAimed self.old.setup.config cmd }
        ensures ready { IsReady self.new }
        ensures ticks { ticks (events_in self.new) ≡ ticks (events_in self.old) }
        ensures fits { IsReplyTo self.new.setup.config result }
        ensures does { DoesRequest tag (command_request self.old tag cmd) result self.old self.new }
    {
        let name = cmd.name();
        reply_to(name, self.stage.apply(alloc, tag, cmd))
    }

    /// Applies the batch of a connection as one event, and returns the reply to it.
    ///
    /// A batch whose commands are above the limit of the journal is refused with 503, and one for which there is no memory with 501. The
    /// history does not change then.
    fn do_batch(&mut self, alloc: Global, tag: Tag) -> Reply
        requires ready { IsReady self.old }
        requires filled { batch_of tag self.old.clients.list.items ≢ [] }
        ensures ready { IsReady self.new }
        ensures ticks { ticks (events_in self.new) ≡ ticks (events_in self.old) }
        ensures fits { IsReplyTo self.new.setup.config result }
        ensures does { DoesRequest tag (batch_request self.old tag (batch_of tag self.old.clients.list.items)) result self.old self.new }
    {
        let commands = self.clients.batch(tag);
        reply_to(Name::Commit, self.stage.apply_batch(alloc, tag, commands))
    }

    /// Ends the history with a stop.
    fn stop(&mut self, tag: Tag)
        requires { IsReady self.old }
        ensures { MakesEvents (Stop tag ∷ []) self.old self.new }
    {
        self.stage.stop(tag).unwrap();
    }

    /// Writes the reply to a connection's line, with the token if there is one, and returns the reply. With `needs_memory` a reply that
    /// reports out of memory is not written, and the run stops.
    fn write_reply<K: Sink>(
        &self,
        tag: Tag,
        reply: Reply,
        token: Option<ReqToken>,
        out: &mut K,
    ) -> Result<Option<Reply>, Halt>
        requires { IsReplyTo self.now.setup.config reply }
        ensures { WritesReply (answering self.now reply) result
            (tagged_lines tag (answer_lines self.now.setup.config self.now.setup.names token reply))
            (K.state out.old) (K.state out.new) }
    {
        if self.needs_memory && reply.is_out_of_memory() {
            return Err(Halt::Memory);
        }
        let token = token.as_ref();
        send_tagged_reply(tag, &reply, token, &self.setup, out)?;
        Ok(Some(reply))
    }
}

/// Returns whether a reply refuses a line with 403.
fn is_refused(reply: Option<Reply>) -> bool {
    matches!(reply, Some(Reply::Refused(ILLEGAL_WORD, _)))
}

/// Returns the reply to a command or a batch of this name, from the stage's result. The history had not ended before.
fn reply_to(name: Name, taken: Result<Answer, ApplyFault>) -> Reply
    requires { IsGoingOn taken }
    ensures { RepliesTo name taken result }
{
    match taken {
        Ok(answer) => Reply::to_answer(name, answer),
        Err(ApplyFault::JournalFull { .. }) => Reply::Refused(JOURNAL_FULL, name),
        Err(ApplyFault::OutOfMemory) => Reply::Refused(OUT_OF_MEMORY, name),
        Err(ApplyFault::Ended { .. }) => unreachable!(),
    }
}
