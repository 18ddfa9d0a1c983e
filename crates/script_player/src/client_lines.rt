//! Lines of connections.
ghost use Rattle.std.specs.Prelude.{◌≡◌, ◌≢◌, ◌<◌, Bool, IfOk, IfSome, List, None, OnOk, Some, [], false, length};
ghost use Rattle.std.specs.List.{list_any, position};
ghost use Rattle.amcp_text.specs.Lines.{is_line_end};
ghost use Rattle.play_types.specs.Config.{ConfigView};
ghost use Rattle.history_model.specs.commands.Channels.{AreAimed};
ghost use Rattle.history_model.specs.scripts.History.{Playout, PlayedLine, same_tag};
ghost use Rattle.play_session.specs.Session.{Fits};
ghost use Rattle.play_session.specs.Step.{ends};
ghost use Rattle.script_player.specs.Clients.{AddsClient, AreClients, ClientTakesLine, ClientsTakeLine, HasTokenOf, HaveAimedBatches, IsPlaceOf, ServesConnection, batch_of, kept_session, session_batch, step_in};

use crate::clients::{Client, ClientStep, Clients};
use play_session::{Session, Step};
use play_types::{Cmd, Config, MediaNames, Tag};
use server_setup::ServerSetup;
use std::alloc::{AllocError, Global};

impl Clients {
    /// Hands `text`, a line without its end, to the session of the connection `tag`, and returns its step and token, or `None` if the
    /// connection has already ended. The first line of a connection makes its session, and fails if there is no memory for it. After an
    /// `AskBatch`, [`Clients::batch`] has at least one command.
    pub fn take_line(
        &mut self,
        alloc: Global,
        tag: Tag,
        text: &[u8],
        setup: &ServerSetup,
    ) -> Result<Option<ClientStep>, AllocError>
        ensures fits { IfOk result (λ found. IfSome found (λ given. Fits setup.now.config given.step)) }
        ensures filled { IfOk result (λ found. step_in found ≡ Some Step.AskBatch → batch_of tag self.new.list.items ≢ []) }
        ensures token { IfOk result (HasTokenOf text.now) }
        ensures aimed { HaveAimedBatches setup.now.config self.old.list.items → OnOk result (HaveAimedBatches setup.now.config self.new.list.items) }
        ensures takes { (playout : Playout) (played : List PlayedLine) (no_memory : Bool) → setup.now.config ≡ playout.config → setup.now.names ≡ playout.names
            → list_any is_line_end text.now ≡ false → AreClients playout self.old.list.items played
            → IfOk result (λ found. ClientsTakeLine (record { playout = playout; played = played; tag = tag; text = text.now; no_memory = no_memory }) (step_in found) self.new.list.items) }
    {
        let at = self.place_of(alloc, tag)?;
        let client = &mut self.list[at];
        Ok(take_client_line(client, alloc, text, &setup.config, &setup.names))
    }

    /// Returns the commands of the batch of a connection, which an `AskBatch` asks for, until its next line is taken. There are none if
    /// the connection has had no line or has ended.
    pub fn batch(&self, tag: Tag) -> &[Cmd]
        ensures { result.now ≡ batch_of tag self.now.list.items }
    {
        match self.find(tag) {
            Some(at) => batch_in(&self.list[at]),
            None => &[],
        }
    }

    /// Returns the index of a connection in the list, and adds it with a new session if it has had no line before.
    fn place_of(&mut self, alloc: Global, tag: Tag) -> Result<usize, AllocError>
        ensures { IfOk result (λ at. (at < length self.new.list.items) × IsPlaceOf tag at self.new.list.items
            × ((config : ConfigView) → HaveAimedBatches config self.old.list.items → HaveAimedBatches config self.new.list.items)
            × ((playout : Playout) (played : List PlayedLine) → AreClients playout self.old.list.items played → AreClients playout self.new.list.items played)) }
    {
        if let Some(at) = self.find(tag) {
            return Ok(at);
        }
        let session = Session::new(alloc)?;
        self.add(tag, session)
    }

    /// Adds a connection that is not in the list, and returns its index.
    fn add(&mut self, tag: Tag, session: Session) -> Result<usize, AllocError>
        requires new { position (λ client. same_tag tag client.tag) self.old.list.items ≡ None }
        requires going { session.ended ≡ false }
        ensures { IfOk result (λ at. (at ≡ length self.old.list.items) × AddsClient tag session self.old.list.items self.new.list.items) }
    {
        let at = self.list.len();
        self.list.reserve(1)?;
        self.places.insert((tag.worker, tag.session), at)?;
        self.list.push_reserved(Client {
            tag,
            session: Some(session),
        });
        Ok(at)
    }
}

/// Returns the commands of the batch of a connection, none if it has ended.
fn batch_in(client: &Client) -> &[Cmd]
    ensures { result.now ≡ session_batch client.now.session }
{
    match &client.session {
        Some(session) => session.batch(),
        None => &[],
    }
}

/// Hands a line to the session of a connection, and returns its step and token, or `None` if the connection has already ended. The
/// session is dropped if the step ends the connection.
fn take_client_line(
    client: &mut Client,
    alloc: Global,
    text: &[u8],
    config: &Config,
    media: &MediaNames,
) -> Option<ClientStep>
    ensures tag { client.new.tag ≡ client.old.tag }
    ensures fits { IfSome result (λ given. Fits config.now given.step) }
    ensures token { HasTokenOf text.now result }
    ensures filled { step_in result ≡ Some Step.AskBatch → session_batch client.new.session ≢ [] }
    ensures aimed { AreAimed config.now (session_batch client.old.session) → AreAimed config.now (session_batch client.new.session) }
    ensures takes { (playout : Playout) (played : List PlayedLine) (no_memory : Bool) → config.now ≡ playout.config → media.now ≡ playout.names
        → list_any is_line_end text.now ≡ false → ServesConnection playout client.old played
        → ClientTakesLine (record { playout = playout; played = played; tag = client.old.tag; text = text.now; no_memory = no_memory }) (step_in result) client.new }
{
    let Some(mut session) = client.session.take() else {
        return None;
    };
    let step = session.take_line(alloc, text, config, media);
    let token = session.token().copied();
    client.session = kept(session, &step);
    Some(ClientStep { step, token })
}

/// Returns the session after its step, `None` if the step ended the connection.
fn kept(session: Session, step: &Step) -> Option<Session>
    ensures { result ≡ kept_session (ends step.now) session }
{
    if step.is_end() { None } else { Some(session) }
}
