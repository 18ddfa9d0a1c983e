//! The threads beside that of the viewer.

use crate::door::Door;
use crate::stream_input::StreamInput;
use crate::visitors::start_door;
use std::alloc::{AllocGlobal, Global};
use std::io::{self, Eprint, Stdin};
use std::random::RandomSource;
use std::sync::{Arc, Wait};
use std::thread::Threads;
use std::time::Clock;

/// What the threads that answer browsers and read standard input share with the viewer.
#[derive(Drop)]
pub struct Helpers {
    pub door: Arc<Door, Global>,
    pub input: StreamInput,
}

impl Helpers {
    /// Starts the threads, which wait until they are wanted. They end with the process. `main` starts them, since a thread
    /// can be given only what is of a known type there.
    pub fn start<
        R: Threads
            + Wait
            + Clock
            + Eprint
            + RandomSource
            + AllocGlobal
            + Copy
            + Send
            + Drop
            + 'static,
    >(rt: &R, alloc: Global, input: Stdin) -> io::Result<Helpers> {
        let door = start_door(rt, alloc)?;
        let input = StreamInput::start(rt, alloc, input)?;
        Ok(Helpers { door, input })
    }
}
