//! The documents of the viewer after a history, with ample memory, worked out by hand.

ghost use Rattle.std.specs.Prelude.{◌≡◌, length};

use crate::history_reader_tests::{setup, source};
use history_reader::{NoTeller, ReadHistory, read_history};
use std::alloc::{AllocError, Global};
use std::test::Fail;
use view_status::{StatusSource, events_json, status_json};

/// A red layer that is paused after its first tick.
const HISTORY: &str = "1.1 PLAY 1-10 #FFFF0000\nT 1\n1.1 PAUSE 1-10\nT 1\n";

/// The status after this history.
const STATUS: &str = concat!(
    r#"{"ticks":2,"timecode":"00:00:00:02","rate":25,"events":4,"ended":false,"#,
    r#""channels":[{"channel":1,"width":1,"height":1,"levels":null,"layers":["#,
    r#"{"layer":10,"producer":"#,
    r##""#FFFF0000","##,
    r#""frame":0,"seek":0,"length":0,"left":0,"time":"00:00:00:00","#,
    r#""time_left":"00:00:00:00","looped":false,"paused":true,"transition":null,"mixer":{}}]}]}"#
);

/// Its events from position 1 on.
const EVENTS: &str =
    r#"[{"position":2,"tick":1,"timecode":"00:00:00:01","text":"1.1 PAUSE 1-10\n"}]"#;

/// Returns the status after a history, and its events from position 1 on.
fn documents(alloc: Global, history: &ReadHistory) -> Result<(Vec<u8>, Vec<u8>), AllocError>
    requires { history.now.stage.channels ≡ length history.now.setup.config.channels }
{
    let setup = &history.setup;
    let source = StatusSource {
        config: &setup.config,
        names: &setup.names,
        stage: &history.stage,
        levels: None,
    };
    let status = status_json(alloc, source)?;
    let events = events_json(alloc, history.stage.journal(), &setup.names, 25, 1)?;
    Ok((status, events))
}

#[test]
fn documents_after_a_history(rt: HostRuntime) -> Result<(), Fail> {
    let alloc = rt.alloc();
    let mut input = source(alloc, HISTORY)?;
    let found = read_history(alloc, setup(&rt, alloc)?, &mut input, &mut NoTeller);
    let history = found.ok().ok_or("a history")?;
    let (status, events) = documents(alloc, &history)?;
    assert!(rt; status.as_slice() == STATUS.as_bytes());
    assert!(rt; events.as_slice() == EVENTS.as_bytes());
    Ok(())
}
