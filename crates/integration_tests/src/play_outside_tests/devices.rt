//! What clocks, links and doors in memory do call by call, with ample memory, and what held ones wait for.
ghost use Rattle.std.specs.Prelude.{◌≡◌, ◌<◌, []};

use play_outside::{
    Arrival, Beat, Clock, DoorAnswer, Flag, FlaggedCall, HeldClock, HeldSink, Link, LinkPlan,
    LinkStep, Listener, Look, MemClock, MemDoor, MemLink, MemSink, PlainClock, PlainDoor,
    PlainLink, Sink, WriteStep,
};
use std::sync::Arc;
use std::sync::atomic::AtomicBool;
use std::test::Fail;

#[test]
fn clocks_beat_fail_as_planned_and_close(rt: HostRuntime) -> Result<(), Fail> {
    let mut plain = PlainClock::new(1);
    assert_eq!(rt; [plain.next(), plain.next()], [Beat::Pulse, Beat::Closed]);
    let mut clock = MemClock::new(2, vec![in rt.alloc(); 2]?);
    let beats = [clock.next(), clock.next(), clock.next(), clock.next()];
    assert_eq!(rt;
        beats,
        [Beat::Pulse, Beat::Failed, Beat::Pulse, Beat::Closed]
    );
    Ok(())
}

/// Returns what a read into four bytes does.
fn read<L: Link>(link: &mut L) -> LinkStep {
    let mut buf = [0; 4];
    link.read(&mut buf)
}

#[test]
fn links_read_and_write_pieces_and_fail_as_planned(rt: HostRuntime) -> Result<(), Fail> {
    let alloc = rt.alloc();
    let plan = LinkPlan {
        input: Vec::from_slice(alloc, b"abcdef")?,
        piece: 4,
        room: 5,
        looks: 4,
        fails: vec![in alloc; 2]?,
        waits: vec![in alloc; 3]?,
    };
    let mut link = MemLink::new(alloc, 0, plan)?;
    let first = [read(&mut link), read(&mut link), read(&mut link)];
    assert_eq!(rt;
        first,
        [LinkStep::Got(4), LinkStep::Failed, LinkStep::Again]
    );
    assert_eq!(rt; link.write(b"vwxyz"), WriteStep::Took(4));
    assert_eq!(rt; read(&mut link), LinkStep::Got(2));
    let full = [link.write(b"zz"), link.write(b"z")];
    assert_eq!(rt; full, [WriteStep::Took(1), WriteStep::Failed]);
    assert_eq!(rt;
        [read(&mut link), read(&mut link)],
        [LinkStep::End, LinkStep::Failed]
    );
    let looks = [(0, 0), (0, 4), (4, 4), (5, 6)];
    for (look, (taken, read)) in link.looks().iter().zip(looks) {
        assert_eq!(rt; *look, Look { taken, read });
    }
    assert_eq!(rt; (link.looks().len(), link.idle(), link.faults()), (4, 1, 3));
    let mut plain = PlainLink::new(0);
    assert_eq!(rt;
        (plain.write(b"ab"), read(&mut plain)),
        (WriteStep::Took(2), LinkStep::End)
    );
    Ok(())
}

/// Returns the answer of the door as a word, and gives back a link that came.
fn ask<D: Listener>(door: &mut D) -> &'static str
    requires { (D.state door.old).away ≡ 0 }
    ensures { (D.state door.new).away ≡ 0 }
{
    match door.next() {
        Arrival::Came(line) => {
            door.give_back(line);
            "came"
        }
        Arrival::Again => "again",
        Arrival::Closed => "closed",
        Arrival::Failed => "failed",
    }
}

#[test]
fn doors_give_links_fail_as_planned_and_close(rt: HostRuntime) -> Result<(), Fail> {
    let alloc = rt.alloc();
    let answers = vec![in alloc; DoorAnswer::Again, DoorAnswer::Line(PlainLink::new(7))]?;
    let mut door = MemDoor::new(alloc, 0, answers, vec![in alloc; 2]?)?;
    let words = [
        ask(&mut door),
        ask(&mut door),
        ask(&mut door),
        ask(&mut door),
    ];
    assert_eq!(rt; words, ["again", "failed", "came", "closed"]);
    assert_eq!(rt; door.returned().len(), 1);
    let mut plain = PlainDoor::new(0, 1);
    assert_eq!(rt; [ask(&mut plain), ask(&mut plain)], ["came", "closed"]);
    Ok(())
}

#[test]
fn held_devices_wait_for_their_flag(rt: HostRuntime) -> Result<(), Fail> {
    let alloc = rt.alloc();
    let flag: Flag = Arc::new(alloc, AtomicBool::new(false))?;
    let second = FlaggedCall {
        call: 2,
        flag: Arc::try_clone(&flag)?,
    };
    let mut clock = HeldClock::new(MemClock::new(2, Vec::new(alloc)), None, Some(second));
    assert_eq!(rt; [clock.next(), clock.next()], [Beat::Pulse, Beat::Pulse]);
    let first = FlaggedCall { call: 1, flag };
    let sink = MemSink::new(alloc, 0, 9, 9, Vec::new(alloc))?;
    let mut sink = HeldSink::new(sink, Some(first), None);
    assert_eq!(rt; sink.write(b"ab"), WriteStep::Took(2));
    assert_eq!(rt; sink.sink().taken(), b"ab".as_slice());
    Ok(())
}
