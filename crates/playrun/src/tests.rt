//! What the devices do over streams that are interrupted or fail, and how clips in files of the system are played.
ghost use Rattle.std.specs.Prelude.{◌≤◌, IfOk};

use super::*;
use host_system::INTERRUPTIONS;
use play_outside::{MemSink, MemSource, ReadStep, Sent, Sink, Source, WriteStep, send};
use run_script::run_main;
use run_times::{HourTime, Rate, time_left};
use script_ticks::ticks_in;
use std::fmt::Display;
use std::io::{Eprint, ErrorKind, Read, Write};
use std::rt::Files;
use std::test::Fail;
use std::time::{Clock, Duration};
use std::{fs, io};
use tick_lines::TickLines;

/// A stream that is interrupted, moves two bytes a call until `calls` are made, and then fails once and ends.
#[derive(Drop)]
struct Shaky {
    interruptions: u32,
    calls: u32,
    failed: bool,
}

impl Shaky {
    fn new(interruptions: u32) -> Shaky {
        Shaky {
            interruptions,
            calls: 1,
            failed: false,
        }
    }

    fn next_count(&mut self, room: usize) -> io::Result<usize>
        ensures { IfOk result (λ count. count ≤ room) }
    {
        if self.interruptions > 0 {
            self.interruptions -= 1;
            return Err(io::Error::from(ErrorKind::Interrupted));
        }
        if self.calls > 0 {
            self.calls -= 1;
            return Ok(room.min(2));
        }
        if !self.failed {
            self.failed = true;
            return Err(io::Error::from(ErrorKind::Other));
        }
        Ok(0)
    }
}

impl Read for Shaky {
    fn read(&mut self, buf: &mut [u8]) -> io::Result<usize> {
        self.next_count(buf.len())
    }
}

impl Write for Shaky {
    fn write(&mut self, buf: &[u8]) -> io::Result<usize> {
        self.next_count(buf.len())
    }

    fn flush(&mut self) -> io::Result<()> {
        Ok(())
    }
}

/// No clause says that an interruption alone is no failure.
#[test]
fn reads_again_after_interruptions(rt: HostRuntime) -> Result<(), Fail> {
    let mut buf = [0; 4];
    let mut source = StdSource::new(Shaky::new(INTERRUPTIONS - 1), rt.clone()?);
    for step in [ReadStep::Got(2), ReadStep::Failed, ReadStep::End] {
        assert_eq!(rt; source.read(&mut buf), step);
    }
    let mut stuck = StdSource::new(Shaky::new(INTERRUPTIONS), rt.clone()?);
    for step in [ReadStep::Failed, ReadStep::Got(2)] {
        assert_eq!(rt; stuck.read(&mut buf), step);
    }
    Ok(())
}

/// No clause says that an interruption alone is no failure.
#[test]
fn writes_again_after_interruptions(rt: HostRuntime) -> Result<(), Fail> {
    let mut sink = StdSink::new(Shaky::new(INTERRUPTIONS - 1), rt.clone()?, PROGRAM);
    for step in [WriteStep::Took(2), WriteStep::Failed, WriteStep::Failed] {
        assert_eq!(rt; sink.write(b"abc"), step);
    }
    let mut stuck = StdSink::new(Shaky::new(INTERRUPTIONS), rt.clone()?, PROGRAM);
    for step in [WriteStep::Failed, WriteStep::Took(2)] {
        assert_eq!(rt; stuck.write(b"abc"), step);
    }
    Ok(())
}

/// A clip of three frames of one pixel.
const THREE: &[u8] =
    b"RCLP\0\x01\0\0\0\x01\0\x01\0\0\0\x03\0\0\0\0\0\0\0\xff\0\0\x50\xff\0\0\xa0\xff";

/// The files in the folders of clips.
const FILES: [(&str, &[u8]); 5] = [
    ("playrun_show/clips/three.rclp", THREE),
    ("playrun_show/clips/short.RCLP", b"RCLP"),
    ("playrun_show/clips/note.txt", THREE),
    ("playrun_show/twice/a.rclp", THREE),
    ("playrun_show/twice/A.Rclp", THREE),
];

/// Folders of clips, each with the exit status and the output of a run on it.
const SHOWS: [(&str, u8, &str); 4] = [
    (
        "clips",
        0,
        "1.1 200 CLS OK
1.1 \"SHORT\" UNREADABLE
1.1 \"THREE\" 1x1 3 0
1.1 \n1.1 502 PLAY FAILED
1.1 202 PLAY OK
1.1 202 PLAY OK
F 1 1
0000a0ff0000a0ff
F 2 1
000000ff
F 1 2
0000a0ff0000a0ff
F 2 2
000050ff
F 1 3
0000a0ff0000a0ff
F 2 3
000000ff
",
    ),
    ("twice", 3, "E media twice A\n"),
    ("none", 4, "E device\n"),
    // A folder with the name of a clip file is no file that can be read.
    ("folder", 4, "E device\n"),
];

/// The script of these runs.
const SCRIPT: &[u8] = b"1.1 CLS
1.1 PLAY 1-0 SHORT
1.1 PLAY 1-0 THREE SEEK 2
1.1 PLAY 2-0 THREE LENGTH 2 LOOP
T 3
";

/// Writes a file of the system.
fn write_file<R: Files + Eprint + Clone + Drop>(
    rt: &R,
    path: &str,
    bytes: &[u8],
) -> Result<(), Fail> {
    match send(
        bytes,
        &mut StdSink::new(fs::create(rt, path)?, rt.clone()?, PROGRAM),
    ) {
        Sent::All => Ok(()),
        Sent::Failed => Err(Fail::new("a file is not written")),
    }
}

/// No clause says how clips in files of the system are played.
#[test]
fn plays_the_clips_of_a_folder(rt: HostRuntime) -> Result<(), Fail> {
    let alloc = rt.alloc();
    fs::create_dir_all(&rt, "playrun_show/clips/inner")?;
    fs::create_dir_all(&rt, "playrun_show/twice")?;
    fs::create_dir_all(&rt, "playrun_show/folder/inner.rclp")?;
    for (path, bytes) in FILES {
        write_file(&rt, path, bytes)?;
    }
    for (folder, status, output) in SHOWS {
        let path = format!(in alloc; "playrun_show/{folder}.toml")?;
        let config = format!(in alloc;
            "listen='l'\nmedia='playrun_show/{folder}'\nrate=25\nchannel=[{{width=2,height=1,output='o'}},{{width=1,height=1,output='o'}}]"
        )?;
        write_file(&rt, path.as_str(), config.as_bytes())?;
        let words = vec![in alloc;
            String::from_str(alloc, "run")?,
            String::from_str(alloc, "--config")?,
            path,
        ]?;
        let mut input = MemSource::new(SCRIPT.to_vec(alloc)?, 4096, Vec::new(alloc));
        let mut media = FolderMedia::new(rt.clone()?, PROGRAM, Progress::Silent);
        let mut out = MemSink::new(alloc, 0, 1000, 4096, Vec::new(alloc))?;
        let found = run_main(
            &rt,
            alloc,
            words.as_slice(),
            &mut input,
            &mut media,
            &mut out,
        );
        assert_eq!(&rt; found, status, "{folder}");
        assert_eq!(&rt; out.taken(), output.as_bytes(), "{folder}");
    }
    fs::remove_dir_all(&rt, "playrun_show")?;
    Ok(())
}

/// No clause says how the ticks of a script are counted before it is played.
#[test]
fn counts_the_ticks_of_a_script(rt: HostRuntime) -> Result<(), Fail> {
    let cases: [(&[u8], u64); 6] = [
        (b"", 0),
        (b"T", 1),
        (b"T\nT 90000\r\n1.1 PLAY 1-0 RED\nT 9", 90_010),
        (b"T 3\n#T 4\n1.1 T 5\nT 0\nT 100001\nTT\n T\n", 3),
        (b"T 3\nX\nT 4\n", 3),
        (b"T 3\n1.1 X\nT 4\n", 7),
    ];
    for (script, ticks) in cases {
        assert_eq!(rt; ticks_in(script), ticks);
    }
    Ok(())
}

/// No clause says which ticks are counted for the progress of a run.
#[test]
fn counts_the_digests_of_the_first_channel(rt: HostRuntime) -> Result<(), Fail> {
    let mut lines = TickLines::new();
    let pieces: [(&[u8], u64); 7] = [
        (b"1.1 202 PLAY OK\nD 1 1 5f", 0),
        (b"\nD 2 1 5f\n", 1),
        (b"D", 1),
        (b" 1 ", 1),
        (b"2 5f\nD 11 2 5f\nE D 1 2\n", 2),
        (b"D 1\n", 2),
        (b"D 1 3 5f\nD 2 3 5f\nD 1 4 5f\n", 4),
    ];
    for (piece, ticks) in pieces {
        lines.take(piece);
        assert_eq!(rt; lines.ticks(), ticks);
    }
    Ok(())
}

/// A clock that is a quarter of a second later at each look, and an error output that counts how often something is
/// written.
#[derive(Drop)]
struct Desk<'a> {
    looks: &'a Cell<u64>,
    words: &'a Cell<u64>,
}

impl<'a> Desk<'a> {
    /// Returns a time that is a quarter of a second later than the one before.
    fn look(&self) -> Duration {
        let looks = self.looks.get().saturating_add(1);
        self.looks.set(looks);
        Duration::from_millis(looks.saturating_mul(250))
    }

    /// Counts a write.
    fn count(&self) {
        let words = self.words.get().saturating_add(1);
        self.words.set(words);
    }
}

impl<'a> Clock for Desk<'a> {
    fn monotonic(&self) -> io::Result<Duration> {
        Ok(self.look())
    }

    fn since_1970(&self) -> io::Result<Duration> {
        Ok(self.look())
    }
}

impl<'a> Eprint for Desk<'a> {
    fn eprint<D: Display + Drop>(&self, _value: D) -> io::Result<()> {
        self.count();
        Ok(())
    }

    fn eprintln<D: Display + Drop>(&self, _value: D) -> io::Result<()> {
        self.count();
        Ok(())
    }
}

/// No clause says how often the progress of a run is reported.
#[test]
fn says_once_a_second_how_far_a_run_is(rt: HostRuntime) -> Result<(), Fail> {
    let looks = Cell::new(0);
    let words = Cell::new(0);
    let mut progress = RunProgress::new(
        Desk {
            looks: &looks,
            words: &words,
        },
        Some(100),
    );
    progress.take(b"1.1 202 PLAY OK\n");
    assert_eq!(rt; looks.get(), 0);
    for _tick in 0..4 {
        progress.take(b"D 1 1 5f\n");
    }
    progress.end();
    assert_eq!(rt; words.get(), 0);
    for _tick in 0..9 {
        progress.take(b"D 1 1 5f\nD 2 1 5f\n");
    }
    assert_eq!(rt; looks.get(), 13);
    assert_eq!(rt; words.get(), 3);
    progress.end();
    assert_eq!(rt; words.get(), 4);
    Ok(())
}

/// No clause says how a time or a rate is written.
#[test]
fn says_times_and_rates(rt: HostRuntime) -> Result<(), Fail> {
    let alloc = rt.alloc();
    let hour = Duration::from_secs(3_909);
    let said = format!(in alloc;
        "{} {} {} {} {}",
        HourTime::of(hour),
        Rate::of(90_000, Duration::from_secs(924)),
        time_left(30_000, 90_000, hour),
        time_left(0, 90_000, hour),
        time_left(5, 4, hour)
    )?;
    assert_eq!(rt; said.as_str(), "1:05:09 97.4 2:10:18 97725:00:00 0:00:00");
    Ok(())
}
