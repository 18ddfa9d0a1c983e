//! Runs in which clients are served beside the ticker.

use super::devices::{HeldDevices, HeldSite, folder_of, run, site_of};
use super::plan::Moment::{Answered, Released, Written};
use super::plan::{Calls, Client, Plan};
use super::replay::{frames_in, replay, replies_in, without_tokens};
use std::alloc::Global;
use std::process::Abort;
use std::str;
use std::sync::Wait;
use std::test::Fail;
use std::thread::Threads;

/// A run that ends with status 0 and without a fault.
#[derive(Clone, Copy)]
struct Show {
    name: &'static str,
    /// The path of its configuration.
    config: &'static str,
    plan: Plan,
    /// The last frame in hexadecimal digits.
    last_frame: &'static str,
    /// Whether the text of the history has all lines of the clients, which are neither VERSION nor INFO then.
    is_replayed: bool,
}

// This is a static, since a constant would be built anew in the test that names it.
static SHOWS: [Show; 6] = [
    TWO_CONNECTIONS,
    TOKENS,
    READ_AFTER_REPLY,
    WRITE_AFTER_REPLY,
    READ_AFTER_WRITE,
    BATCH,
];

/// One client sets a value, asks for it and stops the server, while another one plays. The clock begins when the KILL
/// is read, and has more pulses than are used by then.
///
/// The read of the KILL waits for the fifth frame, and the first frame waits for the reply to the PLAY. At most four
/// ticks are made before the first frame is taken, so the PLAY is answered and its picture is shown before the stop.
/// The lines of the first client have one length, since all reads of a link have one length.
const TWO_CONNECTIONS: Show = Show {
    name: "two connections",
    config: "two",
    plan: TWO_CLIENTS,
    last_frame: "0000ffff",
    is_replayed: true,
};

/// The devices of that run.
const TWO_CLIENTS: Plan = Plan {
    clients: &[
        Client {
            lines: "MIXER 1-0 OPACITY 0.3\r\nMIXER 1-0 OPACITY    \r\nKILL                 \r\n",
            piece: 23,
            idle: &[],
            calls: Calls {
                waits: Some((5, Written)),
                sets: Some((5, Released)),
                ..Calls::FREE
            },
            replies: "202 MIXER OK\r\n201 MIXER OK\r\n0.3\r\n202 KILL OK\r\n",
        },
        Client {
            lines: "PLAY 1-5 RED\r\n",
            piece: 100,
            idle: &[],
            calls: Calls {
                sets: Some((3, Answered)),
                ..Calls::FREE
            },
            replies: "202 PLAY OK\r\n",
        },
    ],
    doors: Calls::FREE,
    pulses: 4_000_000,
    clock: Calls {
        waits: Some((1, Released)),
        ..Calls::FREE
    },
    outputs: &[Calls {
        waits: Some((1, Answered)),
        sets: Some((5, Written)),
        ..Calls::FREE
    }],
    history: Calls::FREE,
    log: Calls::FREE,
};

/// `TWO_CONNECTIONS` with a token on each line of the first client. A replay writes its replies without the tokens.
const TOKENS: Show = Show {
    name: "tokens",
    plan: Plan {
        clients: &[
            Client {
                lines: "REQ a1 MIXER 1-0 OPACITY 0.3\r\nREQ a2 MIXER 1-0 OPACITY    \r\nREQ a3 KILL                 \r\n",
                piece: 30,
                idle: &[],
                calls: Calls {
                    waits: Some((5, Written)),
                    sets: Some((5, Released)),
                    ..Calls::FREE
                },
                replies: "RES a1 202 MIXER OK\r\nRES a2 201 MIXER OK\r\n0.3\r\nRES a3 202 KILL OK\r\n",
            },
            Client {
                lines: "PLAY 1-5 RED\r\n",
                piece: 100,
                idle: &[],
                calls: Calls {
                    sets: Some((3, Answered)),
                    ..Calls::FREE
                },
                replies: "202 PLAY OK\r\n",
            },
        ],
        ..TWO_CLIENTS
    },
    ..TWO_CONNECTIONS
};

/// The second read of a link waits until a reply was written to another link.
const READ_AFTER_REPLY: Show = Show {
    name: "a read waits for a reply to another client",
    config: "two",
    plan: Plan {
        clients: &[
            Client {
                lines: "VERSION\r\n",
                piece: 100,
                idle: &[1],
                calls: Calls {
                    waits: Some((2, Answered)),
                    sets: Some((3, Released)),
                    ..Calls::FREE
                },
                replies: "201 VERSION OK\r\n2.0 PLAYD\r\n",
            },
            Client {
                lines: "INFO\r\n",
                piece: 100,
                idle: &[],
                calls: Calls {
                    sets: Some((3, Answered)),
                    ..Calls::FREE
                },
                replies: "200 INFO OK\r\n1 1x1 EMPTY\r\n\r\n",
            },
        ],
        doors: Calls::FREE,
        pulses: 1,
        clock: Calls {
            waits: Some((2, Released)),
            ..Calls::FREE
        },
        outputs: &[Calls::FREE],
        history: Calls::FREE,
        log: Calls::FREE,
    },
    last_frame: "00000000",
    is_replayed: false,
};

/// The first write of an output waits until a command was answered. The command is read after that write has begun.
const WRITE_AFTER_REPLY: Show = Show {
    name: "a write of an output waits for a reply",
    config: "one",
    plan: Plan {
        clients: &[Client {
            lines: "PLAY 1-0 RED\r\n",
            piece: 100,
            idle: &[],
            calls: Calls {
                waits: Some((1, Written)),
                sets: Some((2, Answered)),
                ..Calls::FREE
            },
            replies: "202 PLAY OK\r\n",
        }],
        doors: Calls::FREE,
        pulses: 1,
        clock: Calls {
            waits: Some((2, Answered)),
            ..Calls::FREE
        },
        outputs: &[Calls {
            waits: Some((1, Answered)),
            sets: Some((1, Written)),
            ..Calls::FREE
        }],
        history: Calls::FREE,
        log: Calls::FREE,
    },
    last_frame: "00000000",
    is_replayed: true,
};

/// The second read of a link waits for the first write of an output.
const READ_AFTER_WRITE: Show = Show {
    name: "a read waits for a write of an output",
    config: "one",
    plan: Plan {
        clients: &[Client {
            lines: "VERSION\r\n",
            piece: 100,
            idle: &[1],
            calls: Calls {
                waits: Some((2, Written)),
                sets: Some((3, Released)),
                ..Calls::FREE
            },
            replies: "201 VERSION OK\r\n2.0 PLAYD\r\n",
        }],
        doors: Calls::FREE,
        pulses: 1,
        clock: Calls {
            waits: Some((2, Released)),
            ..Calls::FREE
        },
        outputs: &[Calls {
            sets: Some((1, Written)),
            ..Calls::FREE
        }],
        history: Calls::FREE,
        log: Calls::FREE,
    },
    last_frame: "00000000",
    is_replayed: false,
};

/// A batch of one client is open while another one asks for a value. Its COMMIT is answered before the first tick.
const BATCH: Show = Show {
    name: "a batch",
    config: "two",
    plan: Plan {
        clients: &[
            Client {
                lines: "BEGIN\r\nPLAY 1-0 BLUE\r\nPLAY 1-1 #80FF0000\r\nCOMMIT\r\n",
                piece: 42,
                idle: &[],
                calls: Calls {
                    waits: Some((5, Answered)),
                    sets: Some((7, Released)),
                    ..Calls::FREE
                },
                replies: "202 BEGIN OK\r\n202 PLAY OK\r\n202 PLAY OK\r\n202 COMMIT OK\r\n",
            },
            Client {
                lines: "MIXER 1-0 OPACITY\r\n",
                piece: 100,
                idle: &[],
                calls: Calls {
                    sets: Some((3, Answered)),
                    ..Calls::FREE
                },
                replies: "201 MIXER OK\r\n1\r\n",
            },
        ],
        doors: Calls::FREE,
        pulses: 1,
        clock: Calls {
            waits: Some((1, Released)),
            ..Calls::FREE
        },
        outputs: &[Calls::FREE],
        history: Calls::FREE,
        log: Calls::FREE,
    },
    last_frame: "7f0080ff",
    is_replayed: true,
};

#[test]
fn clients_are_served_beside_the_ticker(rt: HostRuntime) -> Result<(), Fail> {
    let alloc = rt.alloc();
    for show in &SHOWS {
        check_show(&rt, alloc, show)?;
    }
    Ok(())
}

/// Serves the clients of a show, and checks what they and the outputs got.
fn check_show<R: Threads + Wait + Sync + Abort>(
    rt: &R,
    alloc: Global,
    show: &Show,
) -> Result<(), Fail> {
    let media = folder_of(alloc, &[], &[])?;
    let mut site = site_of(alloc, &show.plan, media, &[])?;
    check_site(rt, alloc, show, &mut site)
}

/// Serves over the site of a show, and checks the replies, the history and the log.
fn check_site<R: Threads + Wait + Sync + Abort>(
    rt: &R,
    alloc: Global,
    show: &Show,
    site: &mut HeldSite,
) -> Result<(), Fail> {
    let status = run(rt, alloc, &["--config", show.config], site)?;
    assert_eq!(rt; status, 0, "{}", show.name);
    let devices = site.finished().ok_or("devices that came back")?;
    check_replies(rt, show, devices)?;
    check_history(rt, alloc, show, devices)
}

/// Checks that each client was answered as planned, and that no link failed.
fn check_replies(rt: &impl Abort, show: &Show, devices: &HeldDevices) -> Result<(), Fail> {
    let name = show.name;
    assert_eq!(rt; devices.doors.len(), show.plan.clients.len(), "{name}");
    for (door, client) in devices.doors.iter().zip(show.plan.clients) {
        let [line] = door.door().returned() else {
            return Err("one link that was given back")?;
        };
        let line = line.link();
        assert_eq!(rt; line.faults(), 0, "{name}");
        assert_eq!(rt; str::from_utf8(line.taken())?, client.replies, "{name}");
    }
    Ok(())
}

/// Checks the frames that were written, and that the text of the history and the log replay them.
fn check_history<R: Threads + Sync + Abort>(
    rt: &R,
    alloc: Global,
    show: &Show,
    devices: &HeldDevices,
) -> Result<(), Fail> {
    let name = show.name;
    let [out] = devices.outs.as_slice() else {
        return Err("one output")?;
    };
    let frames = hex::encode(alloc, out.sink().taken())?;
    let frames = frames.as_str();
    assert!(rt; frames.ends_with(show.last_frame), "{name}");
    check_text(rt, alloc, show, frames, devices.history.sink().taken())?;
    check_text(rt, alloc, show, frames, devices.log.sink().taken())
}

/// Checks that a text, played as a script, gives the frames that were written, and the replies without their tokens.
fn check_text<R: Threads + Sync + Abort>(
    rt: &R,
    alloc: Global,
    show: &Show,
    frames: &str,
    text: &[u8],
) -> Result<(), Fail> {
    let name = show.name;
    let (status, played) = replay(rt, alloc, text, show.config, frames.len())?;
    let output = str::from_utf8(played.taken())?;
    assert_eq!(rt; status, 0, "{name}");
    assert_eq!(rt; frames_in(alloc, output)?.as_str(), frames, "{name}");
    if show.is_replayed {
        for (place, client) in show.plan.clients.iter().enumerate() {
            let worker = place.saturating_add(1);
            let tag = format!(in alloc; "{worker}.1 ")?;
            let replies = replies_in(alloc, output, tag.as_str())?;
            assert_eq!(rt; replies, without_tokens(alloc, client.replies)?, "{name}");
        }
    }
    Ok(())
}
