//! A site over files and a socket of the system.
use super::*;
use play_outside::{FileFault, MediaDir, WriteStep};
use play_server::{FinishStep, Site};
use play_types::{Channel, ChannelList, Config, Text};
use std::alloc::{AllocGlobal, Global};
use std::fs::{self, File, Files};
use std::net::TcpListener;
use std::process::Abort;
use std::test::Fail;

/// The paths of the frames and of the history.
const FILES: [&str; 3] = ["playd_test/a", "playd_test/b", "playd_test/history"];

/// The contents that an earlier run left in them.
const EARLIER: &str = "what an earlier run wrote";

/// Returns a configuration of two channels that listens on `address`.
fn config_of(alloc: Global, address: &str) -> Result<Config, Fail> {
    let mut channels = ChannelList::new(alloc);
    for output in [FILES[0], FILES[1]] {
        let channel = Channel::new(1, 1, 0, Text::copy(alloc, output)?);
        channels.push(channel.ok_or("no channel")?)?;
    }
    let (address, media) = (Text::copy(alloc, address)?, Text::copy(alloc, "m")?);
    Ok(Config::new(address, media, 25, 3, 9, channels).ok_or("no configuration")?)
}

/// No clause says that devices are made, that the socket is closed when they are finished, nor what a file holds.
#[test]
fn gives_devices_again(rt: HostRuntime) -> Result<(), Fail> {
    write_files(&rt)?;
    let port = TcpListener::bind(&rt, "127.0.0.1:0")?.local_addr()?.port();
    let mut site = RealSite::new(rt, rt, Progress::Silent);
    check_site(&rt, port, &mut site)
}

/// Writes the files as an earlier run left them.
fn write_files<R: Files<File = File>>(rt: &R) -> Result<(), Fail> {
    fs::create_dir_all(rt, "playd_test")?;
    for path in FILES {
        fs::write(rt, path, EARLIER)?;
    }
    Ok(())
}

/// Takes devices that listen on `port`, and checks what is left when they are finished.
fn check_site<R: Files<File = File> + AllocGlobal + Abort, S: Site>(
    rt: &R,
    port: u16,
    site: &mut S,
) -> Result<(), Fail> {
    let (again, steps) = take_at(rt.alloc(), port, site)?;
    // The address is in use.
    assert_eq!(rt; again, Some(FileFault::Failed));
    assert_eq!(rt; steps, [FinishStep::Done; 2]);
    check_files(rt)?;
    Ok(fs::remove_dir_all(rt, "playd_test")?)
}

/// The fault of taking devices while they are taken, and what finishing them twice gave.
type Taken = (Option<FileFault>, [FinishStep; 2]);

/// Takes devices that listen on `port`.
fn take_at<S: Site>(alloc: Global, port: u16, site: &mut S) -> Result<Taken, Fail> {
    let address = format!(in alloc; "127.0.0.1:{port}")?;
    let config = config_of(alloc, address.as_str())?;
    Ok(take_devices(alloc, &config, site)?)
}

/// Takes the devices from a site and gives them back, twice.
fn take_devices<S: Site>(alloc: Global, config: &Config, site: &mut S) -> Result<Taken, FileFault> {
    let devices = site.ready(alloc, config, Some(FILES[2]))?;
    let again = site.ready(alloc, config, None).err();
    let first = site.finish(devices);
    let devices = site.ready(alloc, config, None)?;
    Ok((again, [first, site.finish(devices)]))
}

/// Checks that the files of the frames are empty. A history to which nothing was written does not replace an earlier one.
fn check_files<R: Files<File = File> + AllocGlobal + Abort>(rt: &R) -> Result<(), Fail> {
    for (path, text) in [(FILES[0], ""), (FILES[1], ""), (FILES[2], EARLIER)] {
        let read = fs::read_to_string(rt, path)?;
        assert_eq!(rt; read.as_str(), text, "{path}");
    }
    Ok(())
}

/// No clause says that a line can be written.
#[test]
fn says_lines(rt: HostRuntime) -> Result<(), Fail> {
    let mut site = RealSite::new(rt, rt, Progress::Silent);
    for line in ["E device", "E usage"] {
        assert_eq!(rt; site.say(line), WriteStep::Took(line.len()));
    }
    Ok(())
}
