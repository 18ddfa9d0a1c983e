//! Links and a door in memory, with ample memory. The stage has one channel, and there is no clip.
ghost use Rattle.std.specs.Prelude.{◌≡◌, ◌<◌, IfOk};
ghost use Rattle.play_outside.specs.Fresh.{IsNewSink};

use crate::config::one_channel;
use crate::stages::{close, shared_by_two};
use conn_worker::{LinkEnd, WorkEnd, serve_link, work};
use play_outside::{DoorAnswer, LinkPlan, Listener, MemDoor, MemLink, Sink};
use play_session::Session;
use play_types::{Config, MediaNames};
use stage_core::Stage;
use std::alloc::Global;
use std::process::Abort;
use std::sync::Wait;
use std::test::Fail;

/// Three lines of a client, and the replies to them: a LOAD shows the first picture of its producer, paused.
const LINES: &[u8] = b"LOAD 1-10 RED\r\nINFO\r\nBYE\r\n";

const REPLIES: &[u8] = b"202 LOAD OK\r\n200 INFO OK\r\n1 1x1 PAUSED\r\n\r\n";

/// Lines that end with a KILL, and the replies to them.
const LAST_LINES: &[u8] = b"PLAY 1-10 RED\r\nINFO\r\nKILL\r\n";

const LAST_REPLIES: &[u8] = b"202 PLAY OK\r\n200 INFO OK\r\n1 1x1 PLAYING\r\n\r\n202 KILL OK\r\n";

/// Returns a link that gives these bytes, `piece` of them at a time, and has nothing at its second call.
fn link_of(alloc: Global, input: &[u8], piece: usize) -> Result<MemLink, Fail>
    requires { 0 < piece }
    ensures { IfOk result (λ link. IsNewSink (⟦<MemLink as Sink>⟧.state link)) }
{
    let mut waits = Vec::new(alloc);
    waits.push(2)?;
    let plan = LinkPlan {
        input: Vec::from_slice(alloc, input)?,
        piece,
        room: 200,
        looks: 100,
        fails: Vec::new(alloc),
        waits,
    };
    Ok(MemLink::new(alloc, 0, plan)?)
}

/// Returns a door at which one link comes that gives these bytes.
fn door_of(alloc: Global, input: &[u8]) -> Result<MemDoor<MemLink>, Fail>
    ensures { IfOk result (λ door. (⟦<MemDoor<MemLink> as Listener>⟧.state door).away ≡ 0) }
{
    let link = link_of(alloc, input, 7)?;
    let mut answers = Vec::new(alloc);
    answers.push(DoorAnswer::Line(link))?;
    Ok(MemDoor::new(alloc, 0, answers, Vec::new(alloc))?)
}

/// Serves a link in a session of its own, and returns how that ended, and the stage after it.
fn serve<R: Wait>(
    rt: &R,
    alloc: Global,
    config: &Config,
    link: &mut MemLink,
) -> Result<(LinkEnd, Stage), Fail> {
    let media = MediaNames::new(alloc);
    let mut session = Session::new(alloc)?;
    let (shared, first, mut second) = shared_by_two(alloc, config)?;
    let end = serve_link(
        rt,
        alloc,
        &shared,
        &mut second,
        &mut session,
        1,
        config,
        &media,
        link,
    );
    let stage = close(rt, alloc, shared, first, second)?;
    Ok((end, stage))
}

#[test]
fn three_lines_are_answered_in_any_pieces(rt: HostRuntime) -> Result<(), Fail> {
    let alloc = rt.alloc();
    let config = one_channel(alloc)?;
    for piece in 1..12 {
        check_pieces(&rt, alloc, &config, piece)?;
    }
    Ok(())
}

/// Checks the replies to the three lines, which come in pieces of `piece` bytes.
fn check_pieces<R: Wait + Abort>(
    rt: &R,
    alloc: Global,
    config: &Config,
    piece: usize,
) -> Result<(), Fail>
    requires { 0 < piece }
{
    let mut link = link_of(alloc, LINES, piece)?;
    let (end, _) = serve(rt, alloc, config, &mut link)?;
    assert!(rt; end == LinkEnd::Over, "{piece}");
    assert_eq!(rt; link.taken(), REPLIES, "{piece}");
    Ok(())
}

/// A link that gives letters and then bytes, and ends without a `BYE`.
struct Input {
    /// How many letters come first.
    letters: usize,
    bytes: &'static [u8],
    replies: &'static [u8],
    /// How many commands the journal holds then.
    held: u32,
}

const INPUTS: [Input; 4] = [
    // A line that is too long.
    Input {
        letters: 10_000,
        bytes: b"\nVERSION\n",
        replies: b"400 ERROR\r\n\r\n201 VERSION OK\r\n2.0 PLAYD\r\n",
        held: 0,
    },
    // A line that is not UTF-8.
    Input {
        letters: 0,
        bytes: b"\xFF\xFE\nVERSION\n",
        replies: b"400 ERROR\r\n\r\n201 VERSION OK\r\n2.0 PLAYD\r\n",
        held: 0,
    },
    // The end inside a line.
    Input {
        letters: 0,
        bytes: b"PLAY 1-0 RED\r\nPLAY 1-0 BLUE",
        replies: b"202 PLAY OK\r\n",
        held: 1,
    },
    // The end with an open batch.
    Input {
        letters: 0,
        bytes: b"PLAY 1-0 RED\r\nBEGIN\r\nPLAY 1-0 BLUE\r\nCLEAR 1\r\n",
        replies: b"202 PLAY OK\r\n202 BEGIN OK\r\n202 PLAY OK\r\n202 CLEAR OK\r\n",
        held: 1,
    },
];

#[test]
fn garbage_and_what_is_cut_off_make_no_event(rt: HostRuntime) -> Result<(), Fail> {
    let alloc = rt.alloc();
    let config = one_channel(alloc)?;
    for input in &INPUTS {
        check_input(&rt, alloc, &config, input)?;
    }
    Ok(())
}

/// Checks the replies to what a link gives, and how many commands the journal holds then.
fn check_input<R: Wait + Abort>(
    rt: &R,
    alloc: Global,
    config: &Config,
    input: &Input,
) -> Result<(), Fail> {
    let mut link = link_of_input(alloc, input)?;
    let (end, stage) = serve(rt, alloc, config, &mut link)?;
    assert!(rt; end == LinkEnd::Over);
    assert_eq!(rt; link.taken(), input.replies);
    assert_eq!(rt; stage.journal().held(), input.held);
    Ok(())
}

/// Returns a link that gives an input, 1,000 bytes of it at a time.
fn link_of_input(alloc: Global, input: &Input) -> Result<MemLink, Fail> {
    let letters = "Z".repeat(alloc, input.letters)?;
    let mut bytes = Vec::from_slice(alloc, letters.as_bytes())?;
    bytes.extend_from_slice(input.bytes)?;
    link_of(alloc, bytes.as_slice(), 1000)
}

/// Serves the links of a door by the second pass of a new stage, and returns how that ended.
fn work_at<R: Wait>(rt: &R, alloc: Global, door: &mut MemDoor<MemLink>) -> Result<WorkEnd, Fail>
    requires { (⟦<MemDoor<MemLink> as Listener>⟧.state door.old).away ≡ 0 }
{
    let config = one_channel(alloc)?;
    work_with(rt, alloc, &config, door)
}

/// Serves the links of a door by the second pass of a new stage of a configuration, and returns how that ended.
fn work_with<R: Wait>(
    rt: &R,
    alloc: Global,
    config: &Config,
    door: &mut MemDoor<MemLink>,
) -> Result<WorkEnd, Fail>
    requires { (⟦<MemDoor<MemLink> as Listener>⟧.state door.old).away ≡ 0 }
{
    let media = MediaNames::new(alloc);
    let mut session = Session::new(alloc)?;
    let (shared, _first, mut second) = shared_by_two(alloc, config)?;
    Ok(work(
        rt,
        alloc,
        &shared,
        &mut second,
        &mut session,
        config,
        &media,
        door,
    ))
}

#[test]
fn a_kill_ends_the_work(rt: HostRuntime) -> Result<(), Fail> {
    let alloc = rt.alloc();
    let mut door = door_of(alloc, LAST_LINES)?;
    check_one_link(&rt, alloc, &mut door)
}

/// Checks how the work at a door ends, and the replies to the one link that comes there.
fn check_one_link<R: Wait + Abort>(
    rt: &R,
    alloc: Global,
    door: &mut MemDoor<MemLink>,
) -> Result<(), Fail>
    requires { (⟦<MemDoor<MemLink> as Listener>⟧.state door.old).away ≡ 0 }
{
    let end = work_at(rt, alloc, door)?;
    assert!(rt; end == WorkEnd::Ended { at: 2 });
    let [link] = door.returned() else {
        return Err("one link that was given back")?;
    };
    assert!(rt; link.taken() == LAST_REPLIES);
    Ok(())
}

/// Returns a door at which two links come, one after the other, that end with a BYE and with a KILL.
fn door_of_two(alloc: Global) -> Result<MemDoor<MemLink>, Fail>
    ensures { IfOk result (λ door. (⟦<MemDoor<MemLink> as Listener>⟧.state door).away ≡ 0) }
{
    let mut answers = Vec::new(alloc);
    answers.push(DoorAnswer::Line(link_of(alloc, LINES, 7)?))?;
    answers.push(DoorAnswer::Line(link_of(alloc, LAST_LINES, 7)?))?;
    Ok(MemDoor::new(alloc, 0, answers, Vec::new(alloc))?)
}

/// Besides the KILL, the history has two events of each link: a BYE is no event.
#[test]
fn two_links_at_one_door_both_speak(rt: HostRuntime) -> Result<(), Fail> {
    let alloc = rt.alloc();
    let mut door = door_of_two(alloc)?;
    check_two_links(&rt, alloc, &mut door)
}

/// Checks how the work at a door ends, and the replies to the two links that come there.
fn check_two_links<R: Wait + Abort>(
    rt: &R,
    alloc: Global,
    door: &mut MemDoor<MemLink>,
) -> Result<(), Fail>
    requires { (⟦<MemDoor<MemLink> as Listener>⟧.state door.old).away ≡ 0 }
{
    let end = work_at(rt, alloc, door)?;
    assert!(rt; end == WorkEnd::Ended { at: 4 });
    let [first, last] = door.returned() else {
        return Err("two links that were given back")?;
    };
    assert!(rt; first.taken() == REPLIES);
    assert!(rt; last.taken() == LAST_REPLIES);
    Ok(())
}
