//! Plays a script: reads lines of connections and of ticks, and writes the replies and what a display shows of the ticks.
//!
//! A [`Player`] has the connections and the stage, and executes one line at a time. A [`Display`] is handed each tick, and writes it or
//! keeps what it needs of it; [`Unshown`] shows none. A [`Script`] is what was read of an input: the line that has not ended, and the
//! player. A [`ScriptPlayer`] takes bytes and executes the lines that end in them, or plays a whole input. An [`Ending`] is how such a
//! run ended. A [`Teller`] receives reports for a person, beside the output.
#![tactic(auto)]

mod client_lines;
mod clients;
mod display;
mod ending;
mod line;
mod plain;
mod player;
mod reading;
mod reply;
mod running;
mod script;
mod teller;
mod ticks;

pub use clients::{Client, Clients};
pub use display::{Display, MadeTick, Unshown};
pub use ending::{Ending, Halt};
pub use plain::{generator_setup, plain_setup};
pub use player::Player;
pub use reading::read_all;
pub use reply::{RefusalLine, is_refusal};
pub use script::{Script, ScriptPlayer};
pub use teller::{MAX_TOLD_CUES, RefusedCue, Silent, Teller};
