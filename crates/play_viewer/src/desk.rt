//! What a viewer takes and gives.
ghost use Rattle.std.specs.Prelude.{◌≡◌, ◌<◌, length, map, MatchResult};
ghost use Rattle.std.specs.Borrow.{sem, Lends};
ghost use Rattle.play_viewer.specs.Desk.{ComesNext, IsNotOpened, Says};
ghost use Rattle.play_viewer.specs.Moves.{DeskState, Gave, Opened, Sent, after_move, opening_of};

use crate::words::ViewerWords;
use http_pages::Page;
use play_outside::{FileFault, MediaDir, WriteStep};
use std::alloc::Global;

/// A request of a browser.
#[derive(Debug, Drop)]
pub struct Asked {
    /// The path, which begins with `/`.
    pub path: String,
    /// The text after the first `?` of the target.
    pub query: Option<String>,
}

/// What comes next for a viewer.
#[derive(Debug, Drop)]
pub enum DeskStep {
    /// This many bytes of the log were put at the beginning of the room.
    Read(usize),
    /// A browser asked for a page, which has to be answered next.
    Asked(Asked),
    /// Nothing is there for now.
    Waits,
    /// The viewing is to end.
    Ended,
    /// The log, or the door for browsers, failed.
    Failed,
}

/// A folder of configuration and media, a log that grows, browsers that ask for pages, and receivers of status messages.
pub trait Desk {
    /// The folder.
    type Media: MediaDir;

    /// The moves, if the desk records them, and the number of faults of `open`, `next` and `say`.
    ghost state: { Self → DeskState };

    /// The folder as it is now.
    ghost folder: { Self → Self.Media };

    /// The desk with another folder in place of its own.
    ghost with_folder: { Self → Self.Media → Self };

    /// Lends the folder. Reads of it leave the rest of the desk unchanged.
    fn media(&mut self) -> &mut Self::Media
        ensures* writes_back { sem 𝓛 (Lends Self.row Self.Media.row self.entry result (with_folder self.old)) }
        ensures value { result.now ≡ folder self.old };

    /// Opens the log, the door for browsers and the way to the receivers of status messages.
    ///
    /// A failed call raises the count of faults by one, and was reported to a person. If memory runs out, nothing changes.
    fn open(&mut self, alloc: Global, words: &ViewerWords) -> Result<(), FileFault>
        ensures told { MatchResult result
            (λ _. state self.new ≡ after_move (Opened (opening_of words.now)) (state self.old))
            (λ fault. IsNotOpened fault (state self.old) (state self.new)) }
        ensures folder { folder self.new ≡ folder self.old };

    /// Waits for what comes next. Requests that wait come after each piece of the log, and `Waits` once nothing more of the log is there.
    ///
    /// A failed call raises the count of faults by one.
    fn next(&mut self, room: &mut [u8]) -> DeskStep
        requires { 0 < length room.old }
        ensures told { ComesNext result room.new (state self.old) (state self.new) }
        ensures folder { folder self.new ≡ folder self.old };

    /// Answers the request that the last call of `next` returned, or says that there is no such page.
    fn answer(&mut self, page: Option<Page>)
        ensures told { state self.new ≡ after_move (Gave page) (state self.old) }
        ensures folder { folder self.new ≡ folder self.old };

    /// Sends each of these datagrams to each receiver. One that is lost is no fault.
    fn send(&mut self, datagrams: &[Vec<u8>])
        ensures told { state self.new ≡ after_move (Sent (map (λ datagram. datagram.items) datagrams.now)) (state self.old) }
        ensures folder { folder self.new ≡ folder self.old };

    /// Prints `line`, which is given without its line feed. A failed call raises the count of faults by one, and records nothing
    /// of the line.
    fn say(&mut self, line: &str) -> WriteStep
        ensures told { Says result line.now (state self.old) (state self.new) }
        ensures folder { folder self.new ≡ folder self.old };

    ghost folder_is: { (desk : Self) (other : Self.Media) → folder (with_folder desk other) ≡ other };

    ghost state_stays: { (desk : Self) (other : Self.Media) → state (with_folder desk other) ≡ state desk };
}
