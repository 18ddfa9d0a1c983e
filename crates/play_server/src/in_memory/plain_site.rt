//! A site whose devices never fail.
ghost use Rattle.std.specs.Prelude.{◌≡◌, None, Some, [], refl, IfOk, All, vec_len};
ghost use Rattle.play_server.specs.Site.{AreNumbered, AreReady, Finishes, IsNewDoor};
ghost use Rattle.play_outside.specs.Fresh.{IsNewSink};

use crate::resumed::Resumed;
use crate::site::{FinishStep, Site};
use history_reader::NoTeller;
use play_outside::{
    Devices, FileFault, Listener, MemSource, PlainClock, PlainDoor, PlainMedia, PlainSink, Sink,
    WriteStep,
};
use play_types::Config;
use std::alloc::{AllocError, Global};

/// A site that gives plain devices at each call, as many as the configuration names, and an empty history. It fails only if memory
/// runs out, and does not record its calls.
#[derive(Clone, Copy)]
pub struct PlainSite {
    media: PlainMedia,
    pulses: u64,
    lines: u32,
}

impl PlainSite {
    /// Creates a site whose clocks give `pulses` pulses, and whose doors give `lines` links each.
    pub fn new(pulses: u64, lines: u32) -> PlainSite
        ensures { ⟦<PlainSite as Site>⟧.state result ≡ record { told = None; history = record { left = Some []; faults = 0 }; faults = 0 } }
    {
        PlainSite {
            media: PlainMedia,
            pulses,
            lines,
        }
    }
}

impl Site for PlainSite {
    type Media = PlainMedia;

    type History = MemSource;

    type Teller = NoTeller;

    type Clock = PlainClock;

    type Door = PlainDoor;

    type Out = PlainSink;

    ghost state = { λ _. record { told = None; history = record { left = Some []; faults = 0 }; faults = 0 } };

    ghost folder = { λ s. s.media };

    ghost with_folder = { λ s other. record s { media = other } };

    fn media(&mut self) -> &mut PlainMedia {
        &mut self.media
    }

    fn resume(&mut self, alloc: Global, _path: &str) -> Result<MemSource, FileFault> {
        Ok(MemSource::new(Vec::new(alloc), 1, Vec::new(alloc)))
    }

    fn teller(&self) -> NoTeller {
        NoTeller
    }

    fn tell_resumed(&self, _path: &str, _teller: NoTeller, _resumed: Option<Resumed>) {}

    fn ready(
        &mut self,
        alloc: Global,
        config: &Config,
        _history: Option<&str>,
    ) -> Result<Devices<PlainClock, PlainDoor, PlainSink>, FileFault> {
        let doors = plain_doors(alloc, config.connections(), self.lines)?;
        let outs = plain_outs(alloc, config.channels().len())?;
        Ok(Devices {
            clock: PlainClock::new(self.pulses),
            doors,
            outs,
            history: PlainSink::new(0),
            log: PlainSink::new(0),
        })
    }

    fn finish(&mut self, devices: Devices<PlainClock, PlainDoor, PlainSink>) -> FinishStep
        ensures told { Finishes result devices (⟦<PlainSite as Site>⟧.state self.old) (⟦<PlainSite as Site>⟧.state self.new) }
        ensures folder { self.new.media ≡ self.old.media }
        ensures done { result ≡ FinishStep.Done }
    {
        drop(devices);
        FinishStep::Done
    }

    fn say(&mut self, line: &str) -> WriteStep {
        WriteStep::Took(line.len())
    }

    ghost folder_is = { λ _ _. refl };

    ghost state_stays = { λ _ _. refl };
}

/// Returns `count` doors that give `lines` links each, marked by their places from 1 on.
fn plain_doors(alloc: Global, count: u32, lines: u32) -> Result<Vec<PlainDoor>, AllocError>
    ensures count { IfOk result (λ doors. vec_len doors ≡ count) }
    ensures new { IfOk result (λ doors. All (λ door. IsNewDoor (⟦<PlainDoor as Listener>⟧.state door)) doors.items) }
    ensures marks { IfOk result (λ doors. AreNumbered (λ door. (⟦<PlainDoor as Listener>⟧.state door).mark) doors.items) }
{
    let mut doors = Vec::new(alloc);
    for place in 0..count {
        doors.push(PlainDoor::new(u64::from(place) + 1, lines))?;
    }
    Ok(doors)
}

/// Returns `count` outputs, marked by their places from 1 on.
fn plain_outs(alloc: Global, count: usize) -> Result<Vec<PlainSink>, AllocError>
    ensures count { IfOk result (λ outs. vec_len outs ≡ count) }
    ensures new { IfOk result (λ outs. All (λ out. IsNewSink (⟦<PlainSink as Sink>⟧.state out)) outs.items) }
    ensures marks { IfOk result (λ outs. AreNumbered (λ out. (⟦<PlainSink as Sink>⟧.state out).mark) outs.items) }
{
    let mut outs = Vec::new(alloc);
    for place in 0..count {
        outs.push(PlainSink::new(place as u64 + 1))?;
    }
    Ok(outs)
}
