//! Reports on the clips of a folder while they are read. Failures to write them are ignored.
ghost use Rattle.std.specs.Prelude.{◌≡◌};

use std::io::Eprint;

/// The end of the name of a clip's file, in upper or lower case.
const ENDING: &[u8] = b".rclp";

/// After how many clips the progress of the reading is reported again on a terminal.
const CLIPS_BETWEEN_WORDS: usize = 100;

/// How much is reported on standard error about the clips that are read.
#[derive(Clone, Copy, Debug, PartialEq, Eq)]
pub enum Progress {
    /// Nothing.
    Silent,
    /// How many clips there are.
    Total,
    /// How many clips there are, and, while they are read, how many were read so far, in one line of a terminal.
    Counted,
}

impl Progress {
    /// Returns how much is reported on standard error, depending on whether that is a terminal.
    pub fn on(is_terminal: bool) -> Progress {
        if is_terminal {
            Progress::Counted
        } else {
            Progress::Total
        }
    }
}

/// How many clips of a folder are to be read, and how many were.
#[derive(Clone, Copy)]
pub(crate) struct ClipCount {
    progress: Progress,
    listed: usize,
    read: usize,
    /// Whether a line of a terminal was begun and not ended.
    has_begun_line: bool,
}

impl ClipCount {
    /// Returns the count before anything is listed.
    pub(crate) fn new(progress: Progress) -> ClipCount {
        ClipCount {
            progress,
            listed: 0,
            read: 0,
            has_begun_line: false,
        }
    }

    /// Resets the count for the names of a folder, and reports how many clips will be read.
    pub(crate) fn begin<E: Eprint>(
        &mut self,
        errors: &E,
        program: &str,
        folder: &str,
        names: &[String],
    ) {
        self.read = 0;
        self.listed = names
            .iter()
            .filter(|name| is_clip_file(name.as_str()))
            .count();
        match self.progress {
            Progress::Silent => {}
            Progress::Total | Progress::Counted => say_listed(errors, program, folder, self.listed),
        }
    }

    /// Counts a clip that was read, and reports on a terminal how many were.
    pub(crate) fn add<E: Eprint>(&mut self, errors: &E, program: &str, folder: &str) {
        self.read = self.read.saturating_add(1);
        match self.progress {
            Progress::Silent | Progress::Total => {}
            Progress::Counted => self.say_read(errors, program, folder),
        }
    }

    /// Reports how many clips were read, at the last one and at each hundredth, over the last such report.
    fn say_read<E: Eprint>(&mut self, errors: &E, program: &str, folder: &str) {
        let (read, listed) = (self.read, self.listed);
        let is_last = read == listed;
        if is_last || read % CLIPS_BETWEEN_WORDS == 0 {
            let _ = errors.eprint(format_args!(
                "\r{program}: {folder}: {read} of {listed} clips read"
            ));
            self.has_begun_line = true;
        }
        if is_last {
            self.end_line(errors);
        }
    }

    /// Ends the line of a terminal, if one was begun, so that another line can be written.
    pub(crate) fn end_line<E: Eprint>(&mut self, errors: &E) {
        if self.has_begun_line {
            let _ = errors.eprintln("");
            self.has_begun_line = false;
        }
    }
}

/// Reports how many clips will be read.
fn say_listed<E: Eprint>(errors: &E, program: &str, folder: &str, listed: usize) {
    let clips = if listed == 1 { "clip" } else { "clips" };
    let _ = errors.eprintln(format_args!("{program}: {folder}: reading {listed} {clips}"));
}

/// Returns whether a file has the name of a clip file.
fn is_clip_file(name: &str) -> bool {
    let name = name.as_bytes();
    match name.len().checked_sub(ENDING.len()) {
        Some(at) => name[at..].eq_ignore_ascii_case(ENDING),
        None => false,
    }
}
