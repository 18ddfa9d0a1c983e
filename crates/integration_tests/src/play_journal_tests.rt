//! Calls that allocate, with ample memory.

use play_journal::Journal;
use play_types::{Cmd, MAX_TICKS, Tag};
use std::alloc::Global;
use std::test::Fail;

/// More commands than a block of the journal has room for.
const COMMANDS: u32 = 2_500;

/// Adds a tick and then a command.
fn push_after_tick(journal: &mut Journal, alloc: Global, tag: Tag) -> Result<(), Fail> {
    if journal.stopped().is_some() || journal.ticks() >= MAX_TICKS {
        return Err("a journal that goes on")?;
    }
    journal.push_tick();
    if journal.stopped().is_some() || journal.push(alloc, tag, Cmd::Info).is_err() {
        return Err("room for a command")?;
    }
    Ok(())
}

#[test]
fn a_journal_takes_more_commands_than_a_block_holds(rt: HostRuntime) -> Result<(), Fail> {
    let alloc = rt.alloc();
    let tag = Tag {
        worker: 1,
        session: 1,
    };
    let mut journal = Journal::new(alloc, COMMANDS)?;
    for _ in 0..COMMANDS {
        push_after_tick(&mut journal, alloc, tag)?;
    }
    Ok(())
}

#[test]
fn a_journal_takes_a_batch(rt: HostRuntime) -> Result<(), Fail> {
    let alloc = rt.alloc();
    let tag = Tag {
        worker: 1,
        session: 1,
    };
    let mut journal = Journal::new(alloc, 2)?;
    if journal
        .push_batch(alloc, tag, &[Cmd::Info, Cmd::Info])
        .is_err()
    {
        return Err("room for a batch")?;
    }
    Ok(())
}
