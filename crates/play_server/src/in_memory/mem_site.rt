//! A site in memory.
ghost use Rattle.std.specs.Prelude.{◌≡◌, Some, None, true, false, [], refl, option_map, IfOk, MatchResult, ◌-◌, vec_len, vec_capacity};
ghost use Rattle.play_outside.specs.declared.folder.FileFault.TheVariants as file;
ghost use Rattle.server_run.specs.Devices.{device_states};
ghost use Rattle.play_server.specs.Site.{AreNew, AreReady, Finishes, IsNotOpened, IsNotReady, Opens, Says, ready_call};
ghost use Rattle.play_server.specs.SiteState.{after_call};
ghost use Rattle.play_server.specs.MemSite.{can_open, fails_next, finish_step, is_ready};

use super::copies::{new_call, push_line};
use super::kept_devices::KeptDevices;
use super::kept_history::KeptHistory;
use crate::resumed::Resumed;
use crate::site::{FinishStep, ReadyCall, Site};
use history_reader::NoTeller;
use play_outside::{
    Clock, Devices, FileFault, Listener, MemMedia, MemSource, PlannedFaults, Rest, Sink, Source,
    WriteStep,
};
use play_types::{ByteList, Config};
use std::alloc::{AllocError, Global};

/// A site that hands out, once, the devices that it was created with. It records its calls, the devices that came back, the lines
/// that were printed, and the paths of the histories that were opened.
#[derive(Drop)]
pub struct MemSite<C: Clock, D: Listener, O: Sink> {
    media: MemMedia,
    held: Option<KeptDevices<C, D, O>>,
    calls: Vec<ReadyCall>,
    calls_without_memory: u64,
    finished: Option<Devices<C, D, O>>,
    finishes: u64,
    said: Vec<u8>,
    history: KeptHistory,
    resumed: Vec<ByteList>,
    planned: PlannedFaults,
}

impl<C: Clock, D: Listener, O: Rest + Send> MemSite<C, D, O> {
    /// Creates a site with the folder `media` and these devices, without a history, and with room for `room` bytes of printed
    /// lines. The calls of `ready`, `finish`, `resume` and `say` whose numbers are in `fails` return `Failed`. The numbers count
    /// from 1 over all four functions, without the calls of `ready` and `resume` that run out of memory.
    ///
    /// `ready` also fails for another number of doors or outputs, and after the devices were handed out; `resume` also fails
    /// without a history; `say` also fails if there is no room for the line and its line feed.
    pub fn new(
        alloc: Global,
        media: MemMedia,
        devices: Devices<C, D, O>,
        room: usize,
        fails: Vec<u64>,
    ) -> Result<MemSite<C, D, O>, AllocError>
        requires { AreNew (device_states C.state D.state O.state) devices }
        ensures fresh { IfOk result (λ site. ⟦<MemSite<C, D, O> as Site>⟧.state site ≡ record { told = Some (record { calls = []; calls_without_memory = 0; finished = None; finishes = 0; said = []; resumed = [] }); history = record { left = Some []; faults = 0 }; faults = 0 }) }
        ensures folder { IfOk result (λ site. ⟦<MemSite<C, D, O> as Site>⟧.folder site ≡ media) }
        ensures devices { IfOk result (λ site. option_map (λ kept. kept.devices) site.held ≡ Some devices) }
        ensures room { IfOk result (λ site. vec_capacity site.said - vec_len site.said ≡ room) }
    {
        let said = Vec::with_capacity(alloc, room)?;
        Ok(MemSite {
            media,
            held: Some(KeptDevices::new(devices)),
            calls: Vec::new(alloc),
            calls_without_memory: 0,
            finished: None,
            finishes: 0,
            said,
            history: KeptHistory::none(alloc),
            resumed: Vec::new(alloc),
            planned: PlannedFaults::new(fails),
        })
    }

    /// Returns the site with a history of these bytes at each path, in place of its own. The reads of it whose numbers, counted from
    /// 1, are in `fails` return `Failed`.
    pub fn with_history(mut self, bytes: Vec<u8>, fails: Vec<u64>) -> MemSite<C, D, O>
        ensures history { ⟦<MemSite<C, D, O> as Site>⟧.state result ≡ record (⟦<MemSite<C, D, O> as Site>⟧.state self) { history = record { left = Some bytes.items; faults = 0 } } }
        ensures kept { result.history.is_kept ≡ true }
    {
        self.history = KeptHistory::of(bytes, fails);
        self
    }

    /// Returns the calls of `ready` that did not run out of memory, in order.
    pub fn calls(&self) -> &[ReadyCall]
        ensures { option_map (λ told. told.calls) (⟦<MemSite<C, D, O> as Site>⟧.state self.now).told ≡ Some result.now }
    {
        self.calls.as_slice()
    }

    /// Returns how many calls of `ready` ran out of memory.
    pub fn calls_without_memory(&self) -> u64
        ensures { option_map (λ told. told.calls_without_memory) (⟦<MemSite<C, D, O> as Site>⟧.state self.now).told ≡ Some result }
    {
        self.calls_without_memory
    }

    /// Returns the devices that the last call of `finish` took back, if there was one.
    pub fn finished(&self) -> Option<&Devices<C, D, O>>
        ensures { option_map (λ told. told.finished) (⟦<MemSite<C, D, O> as Site>⟧.state self.now).told ≡ Some (option_map (λ devices. devices.now) result) }
    {
        self.finished.as_ref()
    }

    /// Returns the number of calls of `finish`.
    pub fn finishes(&self) -> u64
        ensures { option_map (λ told. told.finishes) (⟦<MemSite<C, D, O> as Site>⟧.state self.now).told ≡ Some result }
    {
        self.finishes
    }

    /// Returns the bytes of the lines that were printed, each with a line feed at its end.
    pub fn said(&self) -> &[u8]
        ensures { option_map (λ told. told.said) (⟦<MemSite<C, D, O> as Site>⟧.state self.now).told ≡ Some result.now }
    {
        self.said.as_slice()
    }

    /// Returns the paths of the histories that were opened, in order.
    pub fn resumed(&self) -> &[ByteList]
        ensures { option_map (λ told. told.resumed) (⟦<MemSite<C, D, O> as Site>⟧.state self.now).told ≡ Some result.now }
    {
        self.resumed.as_slice()
    }

    /// Returns how often a call of `ready`, `finish`, `resume` or `say` has failed.
    pub fn faults(&self) -> u64
        ensures { result ≡ (⟦<MemSite<C, D, O> as Site>⟧.state self.now).faults }
    {
        self.planned.count
    }
}

impl<C: Clock, D: Listener, O: Rest + Send> Site for MemSite<C, D, O> {
    type Media = MemMedia;

    type History = MemSource;

    type Teller = NoTeller;

    type Clock = C;

    type Door = D;

    type Out = O;

    ghost state = { λ s. record { told = Some (record { calls = s.calls.items; calls_without_memory = s.calls_without_memory; finished = s.finished; finishes = s.finishes; said = s.said.items; resumed = s.resumed.items }); history = record { left = Some s.history.bytes.items; faults = 0 }; faults = s.planned.count } };

    ghost folder = { λ s. s.media };

    ghost with_folder = { λ s other. record s { media = other } };

    fn media(&mut self) -> &mut MemMedia {
        &mut self.media
    }

    fn resume(&mut self, alloc: Global, path: &str) -> Result<MemSource, FileFault>
        ensures told { MatchResult result
            (λ file. Opens path.now (⟦<MemSource as Source>⟧.state file) (⟦<MemSite<C, D, O> as Site>⟧.state self.old) (⟦<MemSite<C, D, O> as Site>⟧.state self.new))
            (λ fault. IsNotOpened fault (⟦<MemSite<C, D, O> as Site>⟧.state self.old) (⟦<MemSite<C, D, O> as Site>⟧.state self.new)) }
        ensures folder { self.new.media ≡ self.old.media }
        ensures exact { MatchResult result (λ _. can_open (fails_next self.old.planned) self.old.history.is_kept ≡ true) (λ fault. fault ≡ file.Failed → can_open (fails_next self.old.planned) self.old.history.is_kept ≡ false) }
    {
        let path = ByteList::new(Vec::from_slice(alloc, path.as_bytes())?);
        let source = self.history.source(alloc)?;
        self.resumed.reserve(1)?;
        if self.planned.fails_now() || !self.history.is_kept() {
            self.planned.raise();
            return Err(FileFault::Failed);
        }
        self.resumed.push_reserved(path);
        Ok(source)
    }

    fn teller(&self) -> NoTeller {
        NoTeller
    }

    fn tell_resumed(&self, _path: &str, _teller: NoTeller, _resumed: Option<Resumed>) {}

    fn ready(
        &mut self,
        alloc: Global,
        config: &Config,
        history: Option<&str>,
    ) -> Result<Devices<C, D, O>, FileFault>
        ensures ready { IfOk result (AreReady (device_states C.state D.state O.state) config.now) }
        ensures told { MatchResult result
            (λ _. ⟦<MemSite<C, D, O> as Site>⟧.state self.new ≡ after_call (ready_call config.now (option_map (λ path. path.now) history.entry) true) (⟦<MemSite<C, D, O> as Site>⟧.state self.old))
            (λ fault. IsNotReady fault (ready_call config.now (option_map (λ path. path.now) history.entry) false) (⟦<MemSite<C, D, O> as Site>⟧.state self.old) (⟦<MemSite<C, D, O> as Site>⟧.state self.new)) }
        ensures folder { self.new.media ≡ self.old.media }
        ensures devices { MatchResult result
            (λ devices. (option_map (λ kept. kept.devices) self.old.held ≡ Some devices) × (self.new.held ≡ None))
            (λ _. self.new.held ≡ self.old.held) }
        ensures exact { MatchResult result (λ _. is_ready config.now (fails_next self.old.planned) (option_map (λ kept. kept.devices) self.old.held) ≡ true) (λ fault. fault ≡ FileFault.Failed → is_ready config.now (fails_next self.old.planned) (option_map (λ kept. kept.devices) self.old.held) ≡ false) }
    {
        let Ok(mut call) = new_call(alloc, config, history, &mut self.calls) else {
            self.calls_without_memory = self.calls_without_memory.saturating_add(1);
            return Err(FileFault::OutOfMemory);
        };
        let fails = self.planned.fails_now();
        let (doors, outs) = (config.connections() as usize, config.channels().len());
        match self.held.take() {
            Some(kept)
                if !fails && kept.devices.doors.len() == doors && kept.devices.outs.len() == outs =>
                {
                    call.ok = true;
                    self.calls.push_reserved(call);
                    let KeptDevices { devices } = kept;
                    Ok(devices)
                }
            other => {
                self.held = other;
                self.calls.push_reserved(call);
                self.planned.raise();
                Err(FileFault::Failed)
            }
        }
    }

    fn finish(&mut self, devices: Devices<C, D, O>) -> FinishStep
        ensures told { Finishes result devices (⟦<MemSite<C, D, O> as Site>⟧.state self.old) (⟦<MemSite<C, D, O> as Site>⟧.state self.new) }
        ensures folder { self.new.media ≡ self.old.media }
        ensures exact { result ≡ finish_step (fails_next self.old.planned) }
    {
        self.finished = Some(devices);
        self.finishes = self.finishes.saturating_add(1);
        if self.planned.fails_now() {
            self.planned.raise();
            FinishStep::Failed
        } else {
            FinishStep::Done
        }
    }

    fn say(&mut self, line: &str) -> WriteStep {
        let fails = self.planned.fails_now();
        if fails || self.said.capacity() - self.said.len() <= line.len() {
            self.planned.raise();
            return WriteStep::Failed;
        }
        push_line(&mut self.said, line.as_bytes());
        WriteStep::Took(line.len())
    }

    ghost folder_is = { λ _ _. refl };

    ghost state_stays = { λ _ _. refl };
}
