//! The ways in which a run of the server without a successful command ends.
use crate::whole_server::plan::Moment::Released;
use crate::whole_server::plan::{Calls, Client, Plan};

/// A run in which no command succeeds, and its expected results.
#[derive(Clone, Copy)]
pub struct End {
    pub name: &'static str,
    pub words: &'static [&'static str],
    /// The names of the clip files.
    pub clips: &'static [&'static str],
    /// The calls of the folder that fail: the first reads the configuration, the second the names of the clip files,
    /// and each further one the bytes of a clip.
    pub folder_fails: &'static [u64],
    /// The calls of `ready`, `finish` and `say` that fail.
    pub fails: &'static [u64],
    pub plan: Plan,
    pub status: u8,
    /// The lines that are written.
    pub said: &'static str,
    /// The possible texts of the history and the number of bytes of each output, if devices were finished.
    pub run: Option<(&'static [&'static str], &'static [usize])>,
    /// Whether the link of the client fails before it takes a byte.
    pub is_link_fault: bool,
}

/// The possible histories of a run in which an output fails at the first tick: up to three more ticks may be made
/// before the failure is known.
const UP_TO_FOUR: &[&str] = &["T 1\nX\n", "T 2\nX\n", "T 3\nX\n", "T 4\nX\n"];

/// The possible histories of such a run if the clock has three pulses.
const UP_TO_THREE: &[&str] = &["T 1\nX\n", "T 2\nX\n", "T 3\nX\n"];

/// The words of a run with one channel and one connection.
const ONE: &[&str] = &["--config", "one"];

/// A client that sends nothing.
const SILENT: Client = Client {
    lines: "",
    piece: 1,
    idle: &[],
    calls: Calls::FREE,
    replies: "",
};

/// A clock of five pulses, one output, and no call that fails.
const PLAN: Plan = Plan {
    clients: &[SILENT],
    doors: Calls::FREE,
    pulses: 5,
    clock: Calls::FREE,
    outputs: &[Calls::FREE],
    history: Calls::FREE,
    log: Calls::FREE,
};

/// The first call of the clock waits for the call of a link or a door that fails.
const CLOCK_WAITS: Calls = Calls {
    waits: Some((1, Released)),
    ..Calls::FREE
};

/// The first write of an output waits for a call of the clock.
const OUTPUT_WAITS: Calls = Calls {
    waits: Some((1, Released)),
    ..Calls::FREE
};

/// The first call fails.
const FAILS: Calls = Calls {
    fails: &[1],
    ..Calls::FREE
};

/// The first call of a link or a door fails, and the clock waits for it.
const FAILS_FIRST: Calls = Calls {
    sets: Some((1, Released)),
    ..FAILS
};

/// The server ends at once, with no run.
const NO_RUN: End = End {
    name: "",
    words: ONE,
    clips: &[],
    folder_fails: &[],
    fails: &[],
    plan: PLAN,
    status: 4,
    said: "E device\n",
    run: None,
    is_link_fault: false,
};

/// No call fails, and the clock is closed after its last pulse.
const WHOLE_RUN: End = End {
    status: 0,
    said: "",
    run: Some((&["T 5\nX\n"], &[20])),
    ..NO_RUN
};

// This is a static, since a constant would be built anew in the test that names it.
pub static ENDS: [End; 22] = [
    End {
        name: "no words",
        words: &[],
        status: 1,
        said: "E usage\n",
        ..NO_RUN
    },
    End {
        name: "no configuration",
        words: &["--config", "none"],
        ..NO_RUN
    },
    End {
        name: "a wrong key",
        words: &["--config", "zero"],
        status: 2,
        said: "E config key rate\n",
        ..NO_RUN
    },
    End {
        name: "two clips of one name",
        clips: &["a.rclp", "A.RCLP"],
        status: 3,
        said: "E media twice A\n",
        ..NO_RUN
    },
    End {
        name: "the names of the clips cannot be read",
        clips: &["a.rclp"],
        folder_fails: &[2],
        ..NO_RUN
    },
    End {
        name: "the bytes of a clip cannot be read",
        clips: &["a.rclp", "b.rclp"],
        folder_fails: &[4],
        ..NO_RUN
    },
    End {
        name: "no devices",
        fails: &[1],
        ..NO_RUN
    },
    End {
        name: "a clock that fails",
        plan: Plan {
            clock: Calls {
                fails: &[3],
                ..Calls::FREE
            },
            ..PLAN
        },
        run: Some((&["T 2\nX\n"], &[8])),
        ..NO_RUN
    },
    End {
        name: "an output that fails",
        plan: Plan {
            outputs: &[FAILS],
            ..PLAN
        },
        run: Some((UP_TO_FOUR, &[0])),
        ..NO_RUN
    },
    End {
        name: "the second of two outputs fails",
        words: &["--config", "channels"],
        plan: Plan {
            outputs: &[Calls::FREE, FAILS],
            ..PLAN
        },
        run: Some((UP_TO_FOUR, &[4, 0])),
        ..NO_RUN
    },
    End {
        name: "an output that fails, with three pulses",
        plan: Plan {
            pulses: 3,
            outputs: &[FAILS],
            ..PLAN
        },
        run: Some((UP_TO_THREE, &[0])),
        ..NO_RUN
    },
    End {
        name: "an output that waits for the third pulse",
        plan: Plan {
            pulses: 3,
            clock: Calls {
                sets: Some((3, Released)),
                ..Calls::FREE
            },
            outputs: &[OUTPUT_WAITS],
            ..PLAN
        },
        run: Some((&["T 3\nX\n"], &[12])),
        ..WHOLE_RUN
    },
    End {
        name: "the history cannot be written",
        plan: Plan {
            history: FAILS,
            ..PLAN
        },
        run: Some((&[""], &[20])),
        ..NO_RUN
    },
    End {
        name: "the history does not get its name",
        fails: &[2],
        run: Some((&["T 5\nX\n"], &[20])),
        ..NO_RUN
    },
    End {
        name: "neither is the history written nor does it get its name",
        fails: &[2],
        plan: Plan {
            history: FAILS,
            ..PLAN
        },
        run: Some((&[""], &[20])),
        ..NO_RUN
    },
    End {
        name: "a history of two lines is one write",
        plan: Plan {
            history: Calls {
                fails: &[2],
                ..Calls::FREE
            },
            ..PLAN
        },
        ..WHOLE_RUN
    },
    End {
        name: "the log cannot be written",
        plan: Plan { log: FAILS, ..PLAN },
        run: Some((&["T 5\nX\n"], &[20])),
        ..NO_RUN
    },
    End {
        name: "a log that waits for the last pulse",
        plan: Plan {
            clock: Calls {
                sets: Some((5, Released)),
                ..Calls::FREE
            },
            log: OUTPUT_WAITS,
            ..PLAN
        },
        ..WHOLE_RUN
    },
    End {
        name: "the only door fails",
        plan: Plan {
            doors: FAILS_FIRST,
            pulses: 0,
            clock: CLOCK_WAITS,
            ..PLAN
        },
        run: Some((&["X\n"], &[0])),
        ..NO_RUN
    },
    End {
        name: "a link that cannot be read",
        plan: Plan {
            clients: &[Client {
                calls: FAILS_FIRST,
                ..SILENT
            }],
            pulses: 2,
            clock: CLOCK_WAITS,
            ..PLAN
        },
        run: Some((&["T 2\nX\n"], &[8])),
        is_link_fault: true,
        ..WHOLE_RUN
    },
    End {
        name: "a link that cannot be written",
        plan: Plan {
            clients: &[Client {
                lines: "VERSION\r\n",
                piece: 100,
                calls: Calls {
                    fails: &[2],
                    sets: Some((2, Released)),
                    ..Calls::FREE
                },
                ..SILENT
            }],
            clock: CLOCK_WAITS,
            ..PLAN
        },
        is_link_fault: true,
        ..WHOLE_RUN
    },
    End {
        name: "all words",
        words: &["--journal", "j", "--workers", "64", "--config", "one"],
        clips: &["a.rclp"],
        ..WHOLE_RUN
    },
];
