//! Histories that are read with ample memory, a read that fails, and the reports of the reading.

use history_reader::{NoTeller, ReadHistoryFault, ReadTeller, read_history};
use play_outside::{MemConfig, MemMedia, MemSource};
use server_setup::{ServerSetup, set_up};
use std::alloc::Global;
use std::test::Fail;
use std::thread::Threads;

/// A configuration of one pixel without clips, whose journal holds two commands.
const CONFIG: &[u8] =
    b"listen='a'\nmedia='m'\nrate=25\njournal_limit=2\nchannel=[{width=1,height=1,output='o'}]";

/// Texts that are read: each text, its commands and ticks, the number of bytes that are left out, and whether a stop is.
const TEXTS: [(&str, u32, u64, u64, bool); 10] = [
    ("", 0, 0, 0, false),
    ("T 2\n1.1 PAUSE 1-0\nT 3\n", 1, 5, 0, false),
    // A line that was cut in its middle, and just before its line feed.
    ("T 2\n1.1 PAU", 0, 2, 7, false),
    ("T 2\n1.1 PAUSE 1-0\r", 0, 2, 14, false),
    // Ticks that follow one another in two lines, which end with a carriage return.
    ("T 100000\r\nT 7\r\n", 0, 100_007, 0, false),
    // A batch, and one without COMMIT.
    (
        "1.1 BEGIN\n1.1 PAUSE 1-0\n1.1 STOP 1-0\n1.1 COMMIT\n",
        2,
        0,
        0,
        false,
    ),
    (
        "T 1\n1.1 BEGIN\n1.1 PAUSE 1-0\n1.1 STOP 1-0\n",
        0,
        1,
        0,
        false,
    ),
    // The server's own stop at the end, and a KILL.
    ("1.1 PAUSE 1-0\nT 3\nX\n", 1, 3, 0, true),
    ("1.1 PAUSE 1-0\nT 3\n2.1 KILL\n", 1, 3, 0, true),
    ("2.1 KILL\nT", 0, 0, 1, true),
];

/// Texts that are refused, each with the number of its first faulty line.
const FAULTY: [(&str, u64); 8] = [
    // A line after a stop.
    ("X\nT 1\n", 2),
    ("T 1\n2.1 KILL\nX\n", 3),
    // A comment, and lines that make no event.
    ("T 1\n# none\n", 2),
    ("T 1\nT 1\n1.1 VERSION\n", 3),
    ("1.1 COMMIT\n", 1),
    // A clip that the table does not have, and a channel that is not configured.
    ("1.1 PLAY 1-0 BARS\n", 1),
    ("T 1\n1.1 PAUSE 2-0\n", 2),
    // More commands than the journal holds.
    ("1.1 PAUSE 1-0\n1.1 PAUSE 1-0\nT 1\n1.1 PAUSE 1-0\n", 4),
];

/// Returns the setup of the configuration.
pub(crate) fn setup<R: Threads + Sync>(rt: &R, alloc: Global) -> Result<ServerSetup, Fail> {
    let config = MemConfig {
        path: String::from_str(alloc, "c")?,
        bytes: Vec::from_slice(alloc, CONFIG)?,
    };
    let mut folder = MemMedia::new(vec![in alloc; config]?, Vec::new(alloc), Vec::new(alloc));
    Ok(set_up(rt, alloc, "c", &mut folder).ok().ok_or("a setup")?)
}

/// Returns a source of a text, which gives three bytes a read.
pub(crate) fn source(alloc: Global, text: &str) -> Result<MemSource, Fail> {
    Ok(MemSource::new(text.as_bytes().to_vec(alloc)?, 3, Vec::new(alloc)))
}

#[test]
fn texts_of_histories_are_read(rt: HostRuntime) -> Result<(), Fail> {
    let alloc = rt.alloc();
    for (text, commands, ticks, bytes, stop) in TEXTS {
        let mut input = source(alloc, text)?;
        let found = read_history(alloc, setup(&rt, alloc)?, &mut input, &mut NoTeller);
        let history = found.ok().ok_or("a history")?;
        let journal = history.stage.journal();
        assert_eq!(rt; journal.held(), commands, "{text}");
        assert_eq!(rt; journal.ticks(), ticks, "{text}");
        assert_eq!(rt; history.bytes_left_out, bytes, "{text}");
        assert_eq!(rt; history.stop_left_out, stop, "{text}");
    }
    Ok(())
}

#[test]
fn the_first_faulty_line_is_found(rt: HostRuntime) -> Result<(), Fail> {
    let alloc = rt.alloc();
    for (text, line) in FAULTY {
        let mut input = source(alloc, text)?;
        let found = read_history(alloc, setup(&rt, alloc)?, &mut input, &mut NoTeller);
        assert_eq!(rt; found.err(), Some(ReadHistoryFault::Line(line)), "{text}");
    }
    Ok(())
}

#[test]
fn a_failed_read_is_no_end_of_the_text(rt: HostRuntime) -> Result<(), Fail> {
    let alloc = rt.alloc();
    let text = "T 1\nT 2\n".as_bytes().to_vec(alloc)?;
    let mut input = MemSource::new(text, 4, vec![in alloc; 2]?);
    let found = read_history(alloc, setup(&rt, alloc)?, &mut input, &mut NoTeller);
    assert_eq!(rt; found.err(), Some(ReadHistoryFault::Device));
    Ok(())
}

/// A teller that keeps its reports.
#[derive(Drop)]
struct MemTeller {
    told: Vec<(usize, usize)>,
}

impl ReadTeller for MemTeller {
    fn played(&mut self, bytes: usize, of: usize) {
        let _ = self.told.push((bytes, of));
    }
}

/// Texts, and the reports on each.
const REPORTS: [(&str, &[(usize, usize)]); 4] = [
    ("T 1\nT 12\nT", &[(4, 10), (9, 10)]),
    ("T 1\r\nX\n", &[(5, 7)]),
    // The lines before a KILL are played twice.
    ("T 1\nT 1\n1.1 KILL\n", &[(4, 17), (8, 17), (4, 8), (8, 8)]),
    ("T 1\n#\n", &[(4, 6)]),
];

#[test]
fn a_person_is_told_how_far_the_reading_is(rt: HostRuntime) -> Result<(), Fail> {
    let alloc = rt.alloc();
    for (text, expected) in REPORTS {
        let mut input = source(alloc, text)?;
        let mut teller = MemTeller {
            told: Vec::new(alloc),
        };
        let _ = read_history(alloc, setup(&rt, alloc)?, &mut input, &mut teller);
        assert_eq!(rt; teller.told.as_slice(), expected, "{text}");
    }
    Ok(())
}
