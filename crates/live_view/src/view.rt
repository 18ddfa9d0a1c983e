//! The view of a log.
ghost use Rattle.std.specs.Prelude.{◌≡◌, ◌≤◌, ◌++◌, [], ℕ, List, IfOk, IfErr, OnErr, OnOk, false, length, map, true, option_copied};
ghost use Rattle.history_model.specs.scripts.History.{Playout};
ghost use Rattle.script_player.specs.Playouts.{playout_of};
ghost use Rattle.server_setup.specs.declared.fault.RunFault.TheVariants.{OutOfMemory};
ghost use Rattle.live_view.specs.Faults.{RefusesLog};
ghost use Rattle.live_view.specs.History.{history_of};
ghost use Rattle.live_view.specs.Messages.{is_due, messages_due, sent_after};
ghost use Rattle.live_view.specs.Page.{IsPage};
ghost use Rattle.live_view.specs.View.{IsView, IsViewOf, events_of, source_of, state_of};

use crate::display::ViewDisplay;
use crate::maker::PageMaker;
use crate::options::ViewOptions;
use band_render::Renderer;
use history_model::MAX_INPUT_BYTES;
use http_pages::Page;
use play_outside::PlainSink;
use play_recorder::{LastTickSource, last_frames};
use script_player::{Player, Script, ScriptPlayer, Silent};
use server_setup::{RunFault, ServerSetup};
use status_display::status_datagrams;
use std::alloc::{AllocError, Global};
use std::thread::Threads;

/// How many ticks a view makes with their frames after it was settled, before it falls behind. They are more than come while the longest
/// history is settled.
const MAX_FRESH_TICKS: u32 = 2_000;

/// The view of a log: what was taken of it, its stage, and the frames of its last tick.
///
/// `IsViewOf playout bytes (state_of view)` says that the view has exactly the history of these bytes, and if its frames are fresh those
/// of the last tick.
#[derive(Drop)]
pub struct LiveView<R> {
    /// The lines so far, and the stage.
    pub script: Script,
    /// The display with the frames.
    pub display: ViewDisplay<R>,
    /// Whether pictures are wanted.
    pub pictures: bool,
    /// The number of threads that make the frames, 1 to 64.
    pub workers: u32,
    /// Whether a line has stopped the run.
    pub stopped: bool,
    /// How many bytes may still be taken.
    pub left: u64,
    /// The number of ticks up to the last one whose status messages were given.
    pub sent: u64,
}

impl<R: Threads + Sync + Copy + Drop> LiveView<R> {
    /// Creates the view of a log of which nothing was taken yet, without frames.
    pub fn new(
        rt: R,
        alloc: Global,
        setup: ServerSetup,
        options: ViewOptions,
    ) -> Result<LiveView<R>, AllocError>
        requires some_workers { 1 ≤ options.workers }
        requires few_workers { options.workers ≤ 64 }
        ensures view { IfOk result (λ view. IsViewOf (playout_of setup false) [] (state_of view)) }
        ensures pictures { IfOk result (λ view. view.pictures ≡ options.pictures) }
        ensures behind { IfOk result (λ view. (view.display.is_fresh ≡ false) × (view.sent ≡ 0)) }
    {
        let display = ViewDisplay {
            rt,
            renderer: Renderer::new(alloc, &setup.config, options.workers)?,
            is_fresh: false,
            left: 0,
        };
        let player = Player::new(alloc, setup, false, true)?;
        let script = Script::new(alloc, player);
        Ok(LiveView {
            script,
            display,
            pictures: options.pictures,
            workers: options.workers,
            stopped: false,
            left: MAX_INPUT_BYTES,
            sent: 0,
        })
    }

    /// Takes the next bytes of the log, plays the lines that end in them, and returns the view. Bytes after a line that stopped the
    /// server are passed over, and refused words are reported to nobody.
    ///
    /// `BadLine` has the number, counted from 1, of the first line that is none of a script. `InputTooLong` comes if the log has more
    /// than 4,294,967,296 bytes before a line that stopped the server, and `OutOfMemory` also for a line that would be answered with 500
    /// or 501. After a fault the view is gone.
    pub fn take(self, alloc: Global, piece: &[u8]) -> Result<LiveView<R>, RunFault>
        requires { IsView (state_of self) }
        ensures view { IfOk result (λ view. IsView (state_of view)) }
        ensures takes { (playout : Playout) (bytes : List ℕ) → IsViewOf playout bytes (state_of self) → IfOk result (λ view. IsViewOf playout (bytes ++ piece.now) (state_of view)) }
        ensures pictures { IfOk result (λ view. view.pictures ≡ self.pictures) }
        ensures sent { IfOk result (λ view. view.sent ≡ self.sent) }
        ensures fault { (playout : Playout) (bytes : List ℕ) → IsViewOf playout bytes (state_of self) → IfErr result (λ fault. RefusesLog playout (bytes ++ piece.now) fault) }
    {
        if self.stopped {
            return Ok(self);
        }
        let count = piece.len() as u64;
        if count > self.left {
            return Err(RunFault::InputTooLong);
        }
        self.play(alloc, piece)
    }

    /// Plays the lines that end in the next bytes of the log, and returns the view.
    fn play(self, alloc: Global, piece: &[u8]) -> Result<LiveView<R>, RunFault>
        requires view { IsView (state_of self) }
        requires going { self.stopped ≡ false }
        requires few { length piece.now ≤ self.left }
        ensures view { IfOk result (λ view. IsView (state_of view)) }
        ensures takes { (playout : Playout) (bytes : List ℕ) → IsViewOf playout bytes (state_of self) → IfOk result (λ view. IsViewOf playout (bytes ++ piece.now) (state_of view)) }
        ensures pictures { IfOk result (λ view. view.pictures ≡ self.pictures) }
        ensures sent { IfOk result (λ view. view.sent ≡ self.sent) }
        ensures fault { (playout : Playout) (bytes : List ℕ) → IsViewOf playout bytes (state_of self) → IfErr result (λ fault. RefusesLog playout (bytes ++ piece.now) fault) }
    {
        let mut silent = Silent;
        let mut player = ScriptPlayer {
            script: self.script,
            display: self.display,
            teller: &mut silent,
        };
        let taken = player.take(alloc, piece, &mut PlainSink::new(0));
        let ScriptPlayer {
            script,
            display,
            ..
        } = player;
        match taken {
            Ok(()) => Ok(LiveView {
                script,
                display,
                left: self.left - piece.len() as u64,
                ..self
            }),
            Err(ending) => {
                ending.outcome()?;
                Ok(LiveView {
                    script,
                    display,
                    stopped: true,
                    ..self
                })
            }
        }
    }

    /// Makes the frames of the last tick, if pictures are wanted and ticks were taken without their frames. It is called when no more
    /// bytes of the log are there for now: the next `MAX_FRESH_TICKS` ticks are then made with their frames.
    pub fn settle(&mut self, alloc: Global) -> Result<(), RunFault>
        requires { IsView (state_of self.old) }
        ensures view { IsView (state_of self.new) }
        ensures of_bytes { (playout : Playout) (bytes : List ℕ) → IsViewOf playout bytes (state_of self.old) → IsViewOf playout bytes (state_of self.new) }
        ensures fresh { OnOk result (self.new.pictures ≡ true → self.new.display.is_fresh ≡ true) }
        ensures pictures { self.new.pictures ≡ self.old.pictures }
        ensures sent { self.new.sent ≡ self.old.sent }
        ensures fault { IfErr result (λ fault. fault ≡ OutOfMemory) }
    {
        if self.pictures {
            self.catch_up(alloc)?;
        }
        Ok(())
    }

    /// Makes the frames of the last tick, if ticks were taken without their frames.
    fn catch_up(&mut self, alloc: Global) -> Result<(), AllocError>
        requires { IsView (state_of self.old) }
        ensures view { IsView (state_of self.new) }
        ensures of_bytes { (playout : Playout) (bytes : List ℕ) → IsViewOf playout bytes (state_of self.old) → IsViewOf playout bytes (state_of self.new) }
        ensures fresh { OnOk result (self.new.display.is_fresh ≡ true) }
        ensures pictures { self.new.pictures ≡ self.old.pictures }
        ensures sent { self.new.sent ≡ self.old.sent }
    {
        self.display.left = MAX_FRESH_TICKS;
        if self.display.is_fresh {
            return Ok(());
        }
        let player = &self.script.player;
        let rt = self.display.rt;
        let source = LastTickSource {
            config: &player.setup.config,
            media: &player.setup.media,
            journal: player.stage.journal(),
            workers: self.workers,
        };
        let renderer = last_frames(&rt, alloc, source)?;
        self.display.renderer = renderer;
        self.display.is_fresh = true;
        Ok(())
    }

    /// Returns the page at a path, which begins with `/`, for the text after the first `?` of a target, or `None` if there is no such
    /// page.
    ///
    /// At `/` there is a page for browsers, at `/status` what is on air as a document of JSON, at `/events` the events that are no ticks,
    /// with `?after=` from this position on, and at `/channel/1.bmp` the picture of channel 1, with `?width=` scaled down to this width.
    /// A query on the first two is ignored. A wrong query is answered 400: `after` is from 0 to 4,294,967,295, and `width` from 1 to
    /// 65,535. A picture is answered 503 until the frames of the last tick are made, and there is none if pictures are not wanted.
    pub fn page(
        &self,
        alloc: Global,
        path: &str,
        query: Option<&str>,
    ) -> Result<Option<Page>, AllocError>
        requires { IsView (state_of self.now) }
        ensures { (playout : Playout) (bytes : List ℕ) → IsViewOf playout bytes (state_of self.now)
            → IfOk result (λ page. IsPage (source_of playout bytes (state_of self.now)) path.now (option_copied query.entry) page) }
    {
        let maker = PageMaker {
            player: &self.script.player,
            renderer: &self.display.renderer,
            pictures: self.pictures,
            fresh: self.display.is_fresh,
        };
        maker.page(alloc, path, query)
    }

    /// Returns the status messages after the history, each as the bytes of a datagram, if its last event is a tick for which they were
    /// not returned yet. Else it returns none.
    pub fn status_datagrams(&mut self, alloc: Global) -> Result<Vec<Vec<u8>>, AllocError>
        requires { IsView (state_of self.old) }
        ensures view { IsView (state_of self.new) }
        ensures of_bytes { (playout : Playout) (bytes : List ℕ) → IsViewOf playout bytes (state_of self.old) → IsViewOf playout bytes (state_of self.new) }
        ensures given { (playout : Playout) (bytes : List ℕ) → IsViewOf playout bytes (state_of self.old)
            → IfOk result (λ list. map (λ message. message.items) list.items ≡ messages_due playout self.old.sent (history_of playout bytes)) }
        ensures sent { OnOk result (self.new.sent ≡ sent_after self.old.sent (events_of (state_of self.old))) }
        ensures err { OnErr result (self.new ≡ self.old) }
        ensures pictures { self.new.pictures ≡ self.old.pictures }
        ensures fresh { self.new.display.is_fresh ≡ self.old.display.is_fresh }
    {
        if !self.is_due() {
            return Ok(Vec::new(alloc));
        }
        let player = &self.script.player;
        let ticks = player.stage.journal().ticks();
        let list = status_datagrams(alloc, &player.setup, &player.stage)?;
        self.sent = ticks;
        Ok(list)
    }

    /// Returns whether the last event is a tick for which no status messages were given yet.
    fn is_due(&self) -> bool
        ensures { result ≡ is_due self.now.sent (events_of (state_of self.now)) }
    {
        let journal = self.script.player.stage.journal();
        journal.ends_in_tick() && self.sent < journal.ticks()
    }
}
