//! The connections of a script, each with its session.
ghost use Rattle.std.specs.Prelude.{◌≡◌, ◌==◌, ◌&&◌, [], false};
ghost use Rattle.std.specs.List.{position};
ghost use Rattle.std.specs.Option.{ForSome};
ghost use Rattle.std.specs.HashMap.{get};
ghost use Rattle.play_types.specs.declared.event.Tag.{Tag};
ghost use Rattle.history_model.specs.scripts.History.{same_tag};

use amcp_text::ReqToken;
use play_session::{Session, Step};
use play_types::Tag;
use std::alloc::Global;
use std::collections::HashMap;

/// A connection: its tag and its session, which is dropped when the connection ends.
#[derive(Drop)]
pub struct Client {
    pub tag: Tag,
    pub session: Option<Session>,
    ghost going: { ForSome session (λ one. one.ended ≡ false) },
}

/// The step of a line of a connection, and the token that its reply has.
#[derive(Drop)]
pub struct ClientStep {
    pub step: Step,
    pub token: Option<ReqToken>,
}

/// The connections that have had a line, in the order of their first lines, and the index of each by its worker and session.
#[derive(Drop)]
pub struct Clients {
    pub list: Vec<Client>,
    pub places: HashMap<(u32, u32), usize>,
    ghost placed: { (tag : Tag) → get (λ x y. (x.0 == y.0) && (x.1 == y.1)) places (tag.worker, tag.session) ≡ position (λ client. same_tag tag client.tag) list.items },
}

impl Clients {
    /// Returns an empty list of connections.
    pub fn new(alloc: Global) -> Clients
        ensures { result.list.items ≡ [] }
    {
        Clients {
            list: Vec::new(alloc),
            places: HashMap::new(alloc),
        }
    }

    /// Returns the index of a connection in the list, or `None` if it has had no line.
    pub fn find(&self, tag: Tag) -> Option<usize>
        ensures { result ≡ position (λ client. same_tag tag client.tag) self.now.list.items }
    {
        self.places.get(&(tag.worker, tag.session)).copied()
    }
}
