//! How the server ends.
mod table;

use super::devices::{HeldDevices, HeldSite, check_said, folder_of, run, site_of};
use play_outside::{PlainClock, PlainDoor, PlainSink};
use play_server::{MemSite, PlainSite, Site};
use server_run::{ServeEnd, serve};
use server_setup::{ServerSetup, set_up};
use std::alloc::Global;
use std::process::Abort;
use std::str;
use std::sync::Wait;
use std::test::Fail;
use std::thread::Threads;
use table::{ENDS, End};

#[test]
fn the_server_ends_with_its_status(rt: HostRuntime) -> Result<(), Fail> {
    let alloc = rt.alloc();
    for end in &ENDS {
        let media = folder_of(alloc, end.clips, end.folder_fails)?;
        let mut site = site_of(alloc, &end.plan, media, end.fails)?;
        check_site(&rt, alloc, end, &mut site)?;
    }
    Ok(())
}

/// Serves over a site, and checks the status, the lines that were written, and what the finished devices hold.
fn check_site<R: Threads + Wait + Sync + Abort>(
    rt: &R,
    alloc: Global,
    end: &End,
    site: &mut HeldSite,
) -> Result<(), Fail> {
    let name = end.name;
    let status = run(rt, alloc, end.words, site)?;
    assert_eq!(rt; status, end.status, "{name}");
    check_said(rt, name, site, end.said)?;
    match (site.finished(), end.run) {
        (Some(devices), Some((texts, bytes))) => {
            check_history(rt, end, devices, texts)?;
            check_outputs(rt, end, devices, bytes)?;
            check_links(rt, end, devices)
        }
        (None, None) => Ok(()),
        _ => Err("devices that were finished, just where they are expected")?,
    }
}

/// Checks that the history is one of these texts, and the log beside it.
fn check_history(
    rt: &impl Abort,
    end: &End,
    devices: &HeldDevices,
    texts: &[&str],
) -> Result<(), Fail> {
    let name = end.name;
    let history = str::from_utf8(devices.history.sink().taken())?;
    assert!(rt;
        texts.iter().any(|text| *text == history),
        "{name}: {history}"
    );
    check_log(rt, end, devices, history)
}

/// Checks how many bytes each output has.
fn check_outputs(
    rt: &impl Abort,
    end: &End,
    devices: &HeldDevices,
    bytes: &[usize],
) -> Result<(), Fail> {
    let name = end.name;
    assert_eq!(rt; devices.outs.len(), bytes.len(), "{name}");
    for (out, length) in devices.outs.iter().zip(bytes) {
        assert_eq!(rt; out.sink().taken().len(), *length, "{name}");
    }
    Ok(())
}

/// Checks that the log ends with the stop and has as many ticks as the history, if that was written; or that the log is
/// empty if its first write is planned to fail.
fn check_log(rt: &impl Abort, end: &End, devices: &HeldDevices, history: &str) -> Result<(), Fail> {
    let name = end.name;
    let log = str::from_utf8(devices.log.sink().taken())?;
    if !end.plan.log.fails.is_empty() {
        assert_eq!(rt; log, "", "{name}");
        return Ok(());
    }
    assert!(rt; log.ends_with("X\n"), "{name}: {log}");
    if !history.is_empty() {
        assert_eq!(rt; ticks_in(log)?, ticks_in(history)?, "{name}: {log}");
    }
    Ok(())
}

/// Returns how many ticks the lines of a text have in all.
fn ticks_in(text: &str) -> Result<u64, Fail> {
    let mut ticks = 0u64;
    for line in text.lines() {
        if let Some(count) = line.strip_prefix("T ") {
            let count = count.parse::<u64>().ok().ok_or("a number of ticks")?;
            ticks = ticks.saturating_add(count);
        }
    }
    Ok(ticks)
}

/// If the link is planned to fail, checks that it failed and took nothing.
fn check_links(rt: &impl Abort, end: &End, devices: &HeldDevices) -> Result<(), Fail> {
    if !end.is_link_fault {
        return Ok(());
    }
    for door in &devices.doors {
        let [line] = door.door().returned() else {
            return Err("one link that was given back")?;
        };
        let line = line.link();
        assert_eq!(rt; (line.faults(), line.taken().len()), (1, 0), "{}", end.name);
    }
    Ok(())
}

/// Each file of a plain folder is empty, so its configuration has no keys and is refused. Over a folder with a
/// configuration the plain devices serve.
#[test]
fn plain_devices_serve(rt: HostRuntime) -> Result<(), Fail> {
    let alloc = rt.alloc();
    let mut plain = PlainSite::new(3, 2);
    let status = run(&rt, alloc, WORDS, &mut plain)?;
    assert_eq!(rt; status, 2);
    let mut site = plain_site(&rt, alloc)?;
    let status = run(&rt, alloc, WORDS, &mut site);
    assert_eq!(rt; site.finishes(), 1);
    assert_eq!(rt; status?, 0);
    Ok(())
}

/// The words of a run with plain devices.
const WORDS: &[&str] = &["--config", "two"];

/// Returns the configuration of `WORDS` and its clips.
fn setup<R: Threads + Sync>(rt: &R, alloc: Global) -> Result<ServerSetup, Fail> {
    let mut folder = folder_of(alloc, &[], &[])?;
    Ok(set_up(rt, alloc, "two", &mut folder)?)
}

/// Returns a site with the folder of `WORDS` and plain devices.
fn plain_site<R: Threads + Sync>(
    rt: &R,
    alloc: Global,
) -> Result<MemSite<PlainClock, PlainDoor, PlainSink>, Fail> {
    let setup = setup(rt, alloc)?;
    let devices = PlainSite::new(3, 2).ready(alloc, &setup.config, None)?;
    let folder = folder_of(alloc, &[], &[])?;
    Ok(MemSite::new(alloc, folder, devices, 0, Vec::new(alloc))?)
}

#[test]
fn devices_come_back(rt: HostRuntime) -> Result<(), Fail> {
    let alloc = rt.alloc();
    let setup = setup(&rt, alloc)?;
    let devices = PlainSite::new(3, 2).ready(alloc, &setup.config, None)?;
    let served = serve(&rt, alloc, &setup.config, &setup.media, 2, devices);
    assert_eq!(rt; served.end, ServeEnd::Ended);
    let devices = &served.devices;
    assert_eq!(rt;
        (
            devices.clock.left(),
            devices.doors.len(),
            devices.outs.len()
        ),
        (0, 2, 1)
    );
    Ok(())
}
