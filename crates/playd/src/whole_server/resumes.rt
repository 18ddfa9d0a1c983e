//! Runs that go on from a history.

use super::devices::{HeldSite, check_said, folder_of, run, site_of};
use super::plan::Moment::Answered;
use super::plan::{Calls, Client, Plan};
use super::replay::{frames_in, replay};
use std::alloc::Global;
use std::process::Abort;
use std::str;
use std::sync::Wait;
use std::test::Fail;
use std::thread::Threads;

/// A client plays above what the history left on air. The clock, of three pulses, begins when it was answered.
const PLAN: Plan = Plan {
    clients: &[Client {
        lines: "PLAY 1-5 BLUE\r\n",
        piece: 100,
        idle: &[],
        calls: Calls {
            sets: Some((3, Answered)),
            ..Calls::FREE
        },
        replies: "202 PLAY OK\r\n",
    }],
    doors: Calls::FREE,
    pulses: 3,
    clock: Calls {
        waits: Some((1, Answered)),
        ..Calls::FREE
    },
    outputs: &[Calls::FREE],
    history: Calls::FREE,
    log: Calls::FREE,
};

/// The words of a run that goes on from a history.
const WORDS: &[&str] = &["--resume", "h", "--config", "one"];

/// A history with a stop, and bytes that no line feed ends.
const HISTORY: &str = "1.1 PLAY 1-0 RED\nT 1\nT 1\nX\n1.1 ST";

/// Returns a site with a history of this text, whose reads with the numbers in `fails` fail. Its calls with the numbers
/// in `site_fails` fail.
fn site_with(
    alloc: Global,
    text: &str,
    fails: &[u64],
    site_fails: &[u64],
) -> Result<HeldSite, Fail> {
    let site = site_of(alloc, &PLAN, folder_of(alloc, &[], &[])?, site_fails)?;
    let text = Vec::from_slice(alloc, text.as_bytes())?;
    Ok(site.with_history(text, Vec::from_slice(alloc, fails)?))
}

#[test]
fn a_run_goes_on_from_a_history(rt: HostRuntime) -> Result<(), Fail> {
    let alloc = rt.alloc();
    let mut site = site_with(alloc, HISTORY, &[], &[])?;
    check_site(&rt, alloc, &mut site)
}

/// Serves over a site, and checks that it went on from the history and what the devices hold.
fn check_site<R: Threads + Wait + Sync + Abort>(
    rt: &R,
    alloc: Global,
    site: &mut HeldSite,
) -> Result<(), Fail> {
    let status = run(rt, alloc, WORDS, site)?;
    assert_eq!(rt; (status, str::from_utf8(site.said())?), (0, ""));
    let [path] = site.resumed() else {
        return Err("one history that was opened")?;
    };
    assert_eq!(rt; path.as_slice(), b"h".as_slice());
    check_devices(rt, alloc, site)
}

/// Checks that the outputs have the frames of the new ticks alone, and that the new history replays all of them.
fn check_devices<R: Threads + Sync + Abort>(
    rt: &R,
    alloc: Global,
    site: &HeldSite,
) -> Result<(), Fail> {
    let devices = site.finished().ok_or("devices that came back")?;
    let [out] = devices.outs.as_slice() else {
        return Err("one output")?;
    };
    let frames = hex::encode(alloc, out.sink().taken())?;
    assert_eq!(rt; frames.as_str(), "ff0000ffff0000ffff0000ff");
    check_text(rt, alloc, devices.history.sink().taken())?;
    check_text(rt, alloc, devices.log.sink().taken())?;
    // The client of the run is the second one at its door.
    let text = str::from_utf8(devices.history.sink().taken())?;
    assert!(rt; text.contains("\n1.2 PLAY 1-5 "), "{text}");
    Ok(())
}

/// Checks that a text, played as a script, gives the frames of all ticks.
fn check_text<R: Threads + Sync + Abort>(rt: &R, alloc: Global, text: &[u8]) -> Result<(), Fail> {
    let (status, played) = replay(rt, alloc, text, "one", 40)?;
    let output = str::from_utf8(played.taken())?;
    assert_eq!(rt; status, 0);
    assert_eq!(rt;
        frames_in(alloc, output)?.as_str(),
        "0000ffff0000ffffff0000ffff0000ffff0000ff"
    );
    Ok(())
}

/// A run that does not go on, and its expected results.
#[derive(Clone, Copy)]
struct Refusal {
    name: &'static str,
    words: &'static [&'static str],
    text: &'static str,
    /// The reads of the history that fail.
    fails: &'static [u64],
    /// The calls of the site that fail: the first opens the history.
    site_fails: &'static [u64],
    status: u8,
    said: &'static str,
}

static REFUSALS: [Refusal; 6] = [
    Refusal {
        name: "a line of no form",
        words: WORDS,
        text: "T 2\nT 2\nT two\n",
        fails: &[],
        site_fails: &[],
        status: 2,
        said: "E resume 3\n",
    },
    Refusal {
        name: "a line after the stop",
        words: WORDS,
        text: "X\nT 1\n",
        fails: &[],
        site_fails: &[],
        status: 2,
        said: "E resume 2\n",
    },
    Refusal {
        name: "a read that fails",
        words: WORDS,
        text: "T 2\n",
        fails: &[1],
        site_fails: &[],
        status: 4,
        said: "E device\n",
    },
    Refusal {
        name: "a history that is not opened",
        words: WORDS,
        text: "T 2\n",
        fails: &[],
        site_fails: &[1],
        status: 4,
        said: "E device\n",
    },
    Refusal {
        name: "the history's own file",
        words: &["--resume", "h", "--config", "one", "--journal", "h"],
        text: "T 2\n",
        fails: &[],
        site_fails: &[],
        status: 1,
        said: "E usage\n",
    },
    Refusal {
        name: "the history's own log",
        words: &["--resume", "h.log", "--config", "one", "--journal", "h"],
        text: "T 2\n",
        fails: &[],
        site_fails: &[],
        status: 1,
        said: "E usage\n",
    },
];

#[test]
fn a_run_does_not_go_on(rt: HostRuntime) -> Result<(), Fail> {
    let alloc = rt.alloc();
    for refusal in &REFUSALS {
        let (text, fails) = (refusal.text, refusal.fails);
        let mut site = site_with(alloc, text, fails, refusal.site_fails)?;
        check_refusal(&rt, alloc, refusal, &mut site)?;
    }
    Ok(())
}

/// Serves over a site, and checks that the run ends before a device is made.
fn check_refusal<R: Threads + Wait + Sync + Abort>(
    rt: &R,
    alloc: Global,
    refusal: &Refusal,
    site: &mut HeldSite,
) -> Result<(), Fail> {
    let name = refusal.name;
    let status = run(rt, alloc, refusal.words, site)?;
    assert_eq!(rt; status, refusal.status, "{name}");
    check_said(rt, name, site, refusal.said)?;
    assert_eq!(rt; (site.calls().len(), site.finishes()), (0, 0), "{name}");
    Ok(())
}
