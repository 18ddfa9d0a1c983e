//! Calls that allocate, with ample memory.

use play_types::{Channel, ChannelList, Cmd, CmdList, MediaName, MediaNames, Text};
use std::alloc::{AllocError, Global};
use std::test::Fail;

fn channel(alloc: Global) -> Result<Channel, Fail> {
    Ok(Channel::new(1, 1, 0, Text::copy(alloc, "one.raw")?).ok_or("a channel")?)
}

fn name(alloc: Global) -> Result<MediaName, AllocError> {
    Ok(MediaName::unreadable(Text::copy(alloc, "ÄPFEL")?))
}

#[test]
fn calls_succeed_with_ample_memory(rt: HostRuntime) -> Result<(), Fail> {
    let alloc = rt.alloc();
    for (succeeds, call) in [
        (Text::copy(alloc, "é").is_ok(), "Text::copy"),
        (CmdList::new(alloc).push(Cmd::Info).is_ok(), "CmdList::push"),
        (
            ChannelList::new(alloc).push(channel(alloc)?).is_ok(),
            "ChannelList::push",
        ),
        (
            MediaNames::new(alloc).push(name(alloc)?).is_ok(),
            "MediaNames::push",
        ),
    ] {
        assert!(rt; succeeds, "{call}");
    }
    Ok(())
}
