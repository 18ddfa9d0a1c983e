//! Sessions, with ample memory: no line is given up. There is one channel and no clip.

use crate::config::one_channel;
use play_session::Session;
use play_types::{Config, MediaNames};
use std::alloc::Global;
use std::process::Abort;
use std::test::Fail;

/// Lines, and the step of each. Memory is allocated for the words of a line, and for the text of a line that is no command.
const LINES: [(&[u8], &str); 11] = [
    (b" ", "Skip"),
    (b"info", "Ask(Info)"),
    (b"REQ a INFO", "Ask(Info)"),
    (b"PAUSE 9-0", "Local(Refused(401, Pause))"),
    (b"FROB 1", "Local(Unknown(Text { text: \"FROB 1\" }))"),
    (b"FROB \"1", "Local(Unknown(Text { text: \"FROB \\\"1\" }))"),
    (b"\xff", "Local(Unknown(Text { text: \"\" }))"),
    (b"BEGIN", "Local(Done(Begin))"),
    (b"STOP 1-1", "Local(Done(Stop))"),
    (b"COMMIT", "AskBatch"),
    (b"BYE", "Bye"),
];

/// Gives a line to a session by `feed`, and returns whether its step is this one, and `false` if the session has ended.
fn is_step_if_fed(
    alloc: Global,
    config: &Config,
    session: &mut Session,
    line: &[u8],
    wanted: &str,
) -> Result<bool, Fail> {
    if session.has_ended() {
        return Ok(false);
    }
    let media = MediaNames::new(alloc);
    session.feed(line);
    session.feed(b"\n");
    let step = session.next(alloc, config, &media);
    let step = format!(in alloc; "{step:?}")?;
    Ok(step.as_str() == wanted)
}

/// Gives a line to a session as a whole, and returns whether its step is this one, and `false` if the session has ended.
fn is_step_if_taken(
    alloc: Global,
    config: &Config,
    session: &mut Session,
    line: &[u8],
    wanted: &str,
) -> Result<bool, Fail> {
    if session.has_ended() {
        return Ok(false);
    }
    let media = MediaNames::new(alloc);
    let step = session.take_line(alloc, line, config, &media);
    let step = format!(in alloc; "{step:?}")?;
    Ok(step.as_str() == wanted)
}

/// Gives a line to two sessions, to one by `feed` and to the other whole, and returns whether the step of both is this one, and
/// `false` if one of them has ended.
fn is_step(
    alloc: Global,
    fed: &mut Session,
    taking: &mut Session,
    line: &[u8],
    wanted: &str,
) -> Result<bool, Fail> {
    let config = one_channel(alloc)?;
    let is_fed = is_step_if_fed(alloc, &config, fed, line, wanted)?;
    let is_taken = is_step_if_taken(alloc, &config, taking, line, wanted)?;
    Ok(is_fed && is_taken)
}

#[test]
fn no_line_is_given_up_with_ample_memory(rt: HostRuntime) -> Result<(), Fail> {
    let alloc = rt.alloc();
    let mut fed = Session::new(alloc)?;
    let mut taking = Session::new(alloc)?;
    check_steps(&rt, alloc, &mut fed, &mut taking)
}

/// Checks the step of a line that is too long, and then those of the lines.
fn check_steps(
    rt: &impl Abort,
    alloc: Global,
    fed: &mut Session,
    taking: &mut Session,
) -> Result<(), Fail> {
    check_long_line(rt, alloc, fed, taking)?;
    for (line, wanted) in LINES {
        assert!(rt; is_step(alloc, fed, taking, line, wanted)?, "{wanted}");
    }
    Ok(())
}

/// Checks the step of a line that is too long, which has no token.
fn check_long_line(
    rt: &impl Abort,
    alloc: Global,
    fed: &mut Session,
    taking: &mut Session,
) -> Result<(), Fail> {
    let long = "REQ a ".repeat(alloc, 683)?;
    let unknown = "Local(Unknown(Text { text: \"\" }))";
    assert!(rt; is_step(alloc, fed, taking, long.as_bytes(), unknown)?);
    assert!(rt; fed.token().is_none() && taking.token().is_none());
    Ok(())
}
