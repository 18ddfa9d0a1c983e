//! Reading the words of a server, and a site in memory, call by call, with ample memory.
use play_outside::{FileFault, MemMedia, PlainClock, PlainDoor, PlainSink, WriteStep};
use play_server::*;
use play_types::{Channel, ChannelList, Config, Text};
use std::alloc::Global;
use std::test::Fail;

#[test]
fn reads_words(rt: HostRuntime) -> Result<(), Fail> {
    let alloc = rt.alloc();
    let mut words = Vec::new(alloc);
    for word in ["--journal", "j", "--config", "c", "--resume", "r"] {
        words.push(String::from_str(alloc, word)?)?;
    }
    let named = ServerWords::read(alloc, words.as_slice())?;
    let journal = named.journal.as_ref().map(|path| path.as_str());
    let resume = named.resume.as_ref().map(|path| path.as_str());
    assert_eq!(rt;
        (named.config.as_str(), named.workers, journal, resume),
        ("c", 1, Some("j"), Some("r"))
    );
    Ok(())
}

/// Returns a configuration of one channel and `connections` connections.
fn config(alloc: Global, connections: u32) -> Result<Config, Fail> {
    let mut channels = ChannelList::new(alloc);
    channels.push(Channel::new(1, 1, 0, Text::copy(alloc, "o")?).ok_or("a channel")?)?;
    let listen = Text::copy(alloc, "l")?;
    let media = Text::copy(alloc, "m")?;
    Ok(Config::new(listen, media, 25, connections, 1, channels).ok_or("a configuration")?)
}

/// Returns a site with plain devices for two connections, and room for lines of 8 bytes in all. Its first call fails.
fn site(alloc: Global) -> Result<MemSite<PlainClock, PlainDoor, PlainSink>, Fail> {
    let devices = PlainSite::new(1, 1).ready(alloc, &config(alloc, 2)?, None)?;
    let media = MemMedia::new(Vec::new(alloc), Vec::new(alloc), Vec::new(alloc));
    Ok(MemSite::new(alloc, media, devices, 8, vec![in alloc; 1]?)?)
}

/// Asks the site for devices, finishes them, and returns how many doors there were.
fn doors<S: Site>(site: &mut S, alloc: Global, config: &Config) -> Result<usize, FileFault> {
    let devices = site.ready(alloc, config, Some("j"))?;
    let doors = devices.doors.len();
    let _ = site.finish(devices);
    Ok(doors)
}

#[test]
fn hands_out_devices_once(rt: HostRuntime) -> Result<(), Fail> {
    let alloc = rt.alloc();
    let (two, three) = (config(alloc, 2)?, config(alloc, 3)?);
    let mut site = site(alloc)?;
    let failed = Err(FileFault::Failed);
    for (config, answer) in [
        (&two, failed),
        (&three, failed),
        (&two, Ok(2)),
        (&two, failed),
    ] {
        assert_eq!(rt; doors(&mut site, alloc, config), answer);
    }
    assert_eq!(rt;
        (
            site.calls().len(),
            site.calls_without_memory(),
            site.finishes(),
            site.faults()
        ),
        (4, 0, 1, 3)
    );
    Ok(())
}

#[test]
fn says_lines(rt: HostRuntime) -> Result<(), Fail> {
    let mut site = site(rt.alloc())?;
    let said = [site.say("a"), site.say("abcdefg"), site.say("")];
    let failed = WriteStep::Failed;
    assert_eq!(rt; said, [failed, WriteStep::Took(7), failed]);
    assert_eq!(rt; site.said(), b"abcdefg\n".as_slice());
    Ok(())
}
