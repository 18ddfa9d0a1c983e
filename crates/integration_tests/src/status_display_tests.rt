//! The messages of the status after a history, with ample memory, worked out by hand.

use crate::history_reader_tests::{setup, source};
use history_reader::{NoTeller, read_history};
use status_display::status_datagrams;
use std::test::Fail;

/// A red layer that is paused after its first tick.
const HISTORY: &str = "1.1 PLAY 1-10 #FFFF0000\nT 1\n1.1 PAUSE 1-10\nT 1\n";

/// The messages after this history.
const MESSAGES: [&[u8]; 4] = [
    b"/channel/1/ticks\0\0\0\0,i\0\0\0\0\0\x02",
    b"/channel/1/layer/10/producer\0\0\0\0,s\0\0#FFFF0000\0\0\0",
    b"/channel/1/layer/10/frame\0\0\0,ii\0\0\0\0\0\0\0\0\0",
    b"/channel/1/layer/10/paused\0\0,i\0\0\0\0\0\x01",
];

#[test]
fn messages_after_a_history_are_datagrams(rt: HostRuntime) -> Result<(), Fail> {
    let alloc = rt.alloc();
    let mut input = source(alloc, HISTORY)?;
    let found = read_history(alloc, setup(&rt, alloc)?, &mut input, &mut NoTeller);
    let history = found.ok().ok_or("a history")?;
    let list = status_datagrams(alloc, &setup(&rt, alloc)?, &history.stage)?;
    assert_eq!(rt; list.len(), MESSAGES.len());
    for (message, bytes) in list.iter().zip(&MESSAGES) {
        assert!(rt; message.as_slice() == *bytes);
    }
    Ok(())
}
