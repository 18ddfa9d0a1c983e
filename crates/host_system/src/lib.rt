//! What the programs take from the system: the words of their command lines, and configurations and media in files.
//!
//! `words_of` gives the words after the program's own name, or a `WordsFault`, which is a fault of a run. `FolderMedia`
//! implements `MediaDir` of `play_outside`: its state counts the reads that failed, but does not hold the contents of
//! the files. Its reports on standard error begin with the name of the program: failures, configurations that are
//! refused, clips that are unreadable or have too many bytes together, and how many clips are read. `Grouped` writes a
//! number in groups of digits. `ProgramFile` finds out from which sources the running program was built. `StdSink` writes
//! to standard output.
#![tactic(auto)]

mod clip_bytes;
mod clip_count;
mod complaint;
mod folder_media;
mod grouped;
mod program_file;
mod read_fault;
mod std_sink;
mod unreadable;
mod words;

pub use clip_count::Progress;
pub use complaint::complain;
pub use folder_media::FolderMedia;
pub use grouped::Grouped;
pub use program_file::ProgramFile;
pub use std_sink::{INTERRUPTIONS, StdSink};
pub use words::{WordsFault, words_of};
