//! Plays a script: reads lines of connections and of ticks, and writes replies and frames. Also plays cue sheets, generates scripts,
//! converts clips, and writes the films that were recorded.
//!
//! [`run_main`] is all of the program `playrun` except its devices, which are its arguments. It reads the words of the command line, sets
//! up the channels and the clips, plays the script line by line, and returns the exit status. Its contract defines what is read and
//! written with each status, and that a valid script is played to its end unless a device fails or memory runs out. [`run_and_tell`] does
//! the same, and reports to a [`Teller`] what a person may want to know.
#![tactic(auto)]

mod command_line;
mod converting;
mod devices;
pub mod examples;
mod program;
mod running;

pub use devices::Devices;
pub use program::{run_and_tell, run_main};
pub use script_player::{MAX_TOLD_CUES, RefusalLine, RefusedCue, Silent, Teller};
