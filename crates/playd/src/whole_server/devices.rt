//! Devices in memory, made by a plan.
ghost use Rattle.std.specs.Prelude.{◌≡◌, All, IfOk};
ghost use Rattle.play_outside.specs.Fresh.{IsNewSink};
ghost use Rattle.server_run.specs.Devices.{device_states};
ghost use Rattle.play_server.specs.Site.{AreNew, AreNumbered, IsNewClock, IsNewDoor};

use super::plan::{Calls, Client, Moment, Plan};
use play_outside::{
    Clock, Devices, DoorAnswer, Flag, FlaggedCall, HeldClock, HeldDoor, HeldLink, HeldSink,
    LinkPlan, Listener, MemClock, MemConfig, MemDoor, MemFile, MemLink, MemMedia, MemSink, Sink,
};
use play_server::{MemSite, Site, serve_main};
use std::alloc::Global;
use std::process::Abort;
use std::str;
use std::sync::atomic::AtomicBool;
use std::sync::{Arc, Wait};
use std::test::Fail;
use std::thread::Threads;

/// A door of which a call may wait, as may a call of one of its links.
pub type Door = HeldDoor<MemDoor<HeldLink>>;

/// A site of which a call of each device may wait.
pub type HeldSite = MemSite<HeldClock, Door, HeldSink>;

/// The devices of such a site.
pub type HeldDevices = Devices<HeldClock, Door, HeldSink>;

/// The room of an output in bytes: more than any run writes.
const ROOM: usize = 20_000_000;

/// The configurations, each after its path: one channel without sound with one connection, the same channel with two
/// connections, two channels, and one that is refused.
const CONFIGS: [(&str, &str); 4] = [
    (
        "one",
        "listen='l'\nmedia='m'\nrate=25\nconnections=1\nchannel=[{width=1,height=1,output='o'}]",
    ),
    (
        "two",
        "listen='l'\nmedia='m'\nrate=25\nconnections=2\nchannel=[{width=1,height=1,output='o'}]",
    ),
    (
        "channels",
        "listen='l'\nmedia='m'\nrate=25\nconnections=1\nchannel=[{width=1,height=1,output='o'},{width=1,height=1,output='p'}]",
    ),
    (
        "zero",
        "listen='l'\nmedia='m'\nrate=0\nchannel=[{width=1,height=1,output='o'}]",
    ),
];

/// Returns a folder with the configurations and with empty clip files named `clips`. Its calls with the numbers in
/// `fails` fail.
pub fn folder_of(alloc: Global, clips: &[&str], fails: &[u64]) -> Result<MemMedia, Fail> {
    let mut configs = Vec::new(alloc);
    for (path, text) in CONFIGS {
        configs.push(MemConfig {
            path: String::from_str(alloc, path)?,
            bytes: Vec::from_slice(alloc, text.as_bytes())?,
        })?;
    }
    let mut files = Vec::new(alloc);
    for name in clips {
        files.push(MemFile {
            folder: String::from_str(alloc, "m")?,
            name: String::from_str(alloc, name)?,
            bytes: Vec::new(alloc),
        })?;
    }
    let fails = Vec::from_slice(alloc, fails)?;
    Ok(MemMedia::new(configs, files, fails))
}

/// Returns copies of words.
pub fn words_of(alloc: Global, words: &[&str]) -> Result<Vec<String>, Fail> {
    let mut copies = Vec::new(alloc);
    for word in words {
        copies.push(String::from_str(alloc, word)?)?;
    }
    Ok(copies)
}

/// Serves over a site with these words, and returns the exit status.
pub fn run<R: Threads + Wait + Sync, S: Site>(
    rt: &R,
    alloc: Global,
    words: &[&str],
    site: &mut S,
) -> Result<u8, Fail> {
    let words = words_of(alloc, words)?;
    Ok(serve_main(rt, alloc, words.as_slice(), site))
}

/// Checks which lines a site wrote.
pub fn check_said(rt: &impl Abort, name: &str, site: &HeldSite, said: &str) -> Result<(), Fail> {
    assert_eq!(rt; str::from_utf8(site.said())?, said, "{name}");
    Ok(())
}

/// Returns a site with this folder and the planned devices. Its calls of `ready`, `finish` and `say` with the numbers
/// in `fails` fail.
pub fn site_of(
    alloc: Global,
    plan: &Plan,
    media: MemMedia,
    fails: &[u64],
) -> Result<HeldSite, Fail> {
    let devices = devices_of(alloc, plan)?;
    let fails = Vec::from_slice(alloc, fails)?;
    Ok(MemSite::new(alloc, media, devices, 100, fails)?)
}

/// A flag for each moment.
#[derive(Drop)]
struct Flags {
    answered: Flag,
    written: Flag,
    released: Flag,
}

impl Flags {
    /// Returns flags that are not set.
    fn new(alloc: Global) -> Result<Flags, Fail> {
        Ok(Flags {
            answered: Arc::new(alloc, AtomicBool::new(false))?,
            written: Arc::new(alloc, AtomicBool::new(false))?,
            released: Arc::new(alloc, AtomicBool::new(false))?,
        })
    }

    /// Returns the planned call with the flag of its moment.
    fn at(&self, planned: Option<(u64, Moment)>) -> Result<Option<FlaggedCall>, Fail> {
        let Some((call, moment)) = planned else {
            return Ok(None);
        };
        let flag = match moment {
            Moment::Answered => &self.answered,
            Moment::Written => &self.written,
            Moment::Released => &self.released,
        };
        let flag = Arc::try_clone(flag)?;
        Ok(Some(FlaggedCall { call, flag }))
    }
}

/// Returns the planned devices.
fn devices_of(alloc: Global, plan: &Plan) -> Result<HeldDevices, Fail>
    ensures { IfOk result (AreNew (device_states ⟦<HeldClock as Clock>⟧.state ⟦<Door as Listener>⟧.state ⟦<HeldSink as Sink>⟧.state)) }
{
    let flags = Flags::new(alloc)?;
    let clock = clock_of(alloc, &flags, plan.pulses, &plan.clock)?;
    let doors = doors_of(alloc, &flags, plan)?;
    let outs = outputs_of(alloc, &flags, plan.outputs)?;
    let history = output_of(alloc, &flags, 0, &plan.history)?;
    let log = output_of(alloc, &flags, 0, &plan.log)?;
    Ok(Devices {
        clock,
        doors,
        outs,
        history,
        log,
    })
}

/// Returns a clock that gives `pulses` pulses.
fn clock_of(alloc: Global, flags: &Flags, pulses: u64, calls: &Calls) -> Result<HeldClock, Fail>
    ensures { IfOk result (λ clock. IsNewClock (⟦<HeldClock as Clock>⟧.state clock)) }
{
    let clock = MemClock::new(pulses, Vec::from_slice(alloc, calls.fails)?);
    Ok(HeldClock::new(clock, flags.at(calls.waits)?, flags.at(calls.sets)?))
}

/// Returns an output for each channel, with the marks 1, 2 and so on.
fn outputs_of(alloc: Global, flags: &Flags, calls: &[Calls]) -> Result<Vec<HeldSink>, Fail>
    ensures new { IfOk result (λ outs. All (λ out. IsNewSink (⟦<HeldSink as Sink>⟧.state out)) outs.items) }
    ensures marks { IfOk result (λ outs. AreNumbered (λ out. (⟦<HeldSink as Sink>⟧.state out).mark) outs.items) }
{
    let mut outs = Vec::new(alloc);
    for place in 0..calls.len() {
        let mark = place as u64 + 1;
        outs.push(output_of(alloc, flags, mark, &calls[place])?)?;
    }
    Ok(outs)
}

/// Returns an output with the mark `mark`.
fn output_of(alloc: Global, flags: &Flags, mark: u64, calls: &Calls) -> Result<HeldSink, Fail>
    ensures new { IfOk result (λ output. IsNewSink (⟦<HeldSink as Sink>⟧.state output)) }
    ensures mark { IfOk result (λ output. (⟦<HeldSink as Sink>⟧.state output).mark ≡ mark) }
{
    let fails = Vec::from_slice(alloc, calls.fails)?;
    let sink = MemSink::new(alloc, mark, ROOM, ROOM, fails)?;
    Ok(HeldSink::new(sink, flags.at(calls.waits)?, flags.at(calls.sets)?))
}

/// Returns a door for each client, with the marks 1, 2 and so on.
fn doors_of(alloc: Global, flags: &Flags, plan: &Plan) -> Result<Vec<Door>, Fail>
    ensures new { IfOk result (λ doors. All (λ door. IsNewDoor (⟦<Door as Listener>⟧.state door)) doors.items) }
    ensures marks { IfOk result (λ doors. AreNumbered (λ door. (⟦<Door as Listener>⟧.state door).mark) doors.items) }
{
    let mut doors = Vec::new(alloc);
    for place in 0..plan.clients.len() {
        let mark = place as u64 + 1;
        doors.push(door_of(alloc, flags, mark, &plan.clients[place], &plan.doors)?)?;
    }
    Ok(doors)
}

/// Returns a door at which no link comes at first, and then the link of the client.
fn door_of(
    alloc: Global,
    flags: &Flags,
    mark: u64,
    client: &Client,
    calls: &Calls,
) -> Result<Door, Fail>
    ensures new { IfOk result (λ door. IsNewDoor (⟦<Door as Listener>⟧.state door)) }
    ensures mark { IfOk result (λ door. (⟦<Door as Listener>⟧.state door).mark ≡ mark) }
{
    let mut answers = Vec::new(alloc);
    answers.push(DoorAnswer::Again)?;
    answers.push(DoorAnswer::Line(link_of(alloc, flags, client)?))?;
    let fails = Vec::from_slice(alloc, calls.fails)?;
    let door = MemDoor::new(alloc, mark, answers, fails)?;
    Ok(HeldDoor::new(door, flags.at(calls.waits)?, flags.at(calls.sets)?))
}

/// Returns the link of a client.
fn link_of(alloc: Global, flags: &Flags, client: &Client) -> Result<HeldLink, Fail>
    ensures { IfOk result (λ link. IsNewSink (⟦<HeldLink as Sink>⟧.state link)) }
{
    let plan = LinkPlan {
        input: Vec::from_slice(alloc, client.lines.as_bytes())?,
        piece: client.piece.max(1),
        room: 1000,
        looks: 100,
        fails: Vec::from_slice(alloc, client.calls.fails)?,
        waits: Vec::from_slice(alloc, client.idle)?,
    };
    let link = MemLink::new(alloc, 0, plan)?;
    Ok(HeldLink::new(
        link,
        flags.at(client.calls.waits)?,
        flags.at(client.calls.sets)?,
    ))
}
