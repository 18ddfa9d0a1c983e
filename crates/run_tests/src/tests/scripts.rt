//! Runs with ample memory: no clause says that memory suffices. The digests are those of `sha256sum`.
mod table;

ghost use Rattle.play_outside.specs.Sink.{Writes};
ghost use Rattle.play_outside.specs.Source.{Reads};

use super::shared::{clip_in, config_at, gives, status_of};
use play_outside::{MemMedia, MemSink, MemSource, ReadStep, Sink, Source, WriteStep};
use std::alloc::Global;
use std::sync::Arc;
use std::sync::atomic::{AtomicUsize, Ordering};
use std::test::Fail;
use table::RUNS;

/// The configurations, each after its path.
const CONFIGS: [(&str, &str); 2] = [
    (
        "two",
        "listen='l'\nmedia='m'\nrate=25\nchannel=[{width=2,height=1,output='o'},{width=1,height=1,output='o'}]",
    ),
    (
        "sound",
        "listen='l'\nmedia='m'\nrate=25\nchannel=[{width=2,height=1,pairs=1,output='o'},{width=1,height=1,pairs=1,output='o'}]",
    ),
];

/// The bytes of the clip file song.rclp: a green and a blue pixel with the samples 1000 and -1000, 2000 and -2000.
const SONG: &[u8] =
    b"RCLP\0\x01\0\0\0\x01\0\x01\0\0\0\x02\0\x01\0\0\0\xff\0\xff\xe8\x03\x18\xfc\xff\0\0\xff\xd0\x07\x30\xf8";

/// Clip files of one red pixel of alpha 128, each after its name: two of version 1, whose colours are lowered to the alpha, and two of
/// version 2, whose colours are multiplied by it.
const PIXELS: [(&str, &[u8]); 4] = [
    (
        "low1.rclp",
        b"RCLP\0\x01\0\0\0\x01\0\x01\0\0\0\x01\0\0\0\0\0\0\x40\x80",
    ),
    (
        "low2.rclp",
        b"RCLP\0\x02\0\0\0\x01\0\x01\0\0\0\x01\0\0\0\0\0\0\x80\x80",
    ),
    (
        "high1.rclp",
        b"RCLP\0\x01\0\0\0\x01\0\x01\0\0\0\x01\0\0\0\0\0\0\xff\x80",
    ),
    (
        "high2.rclp",
        b"RCLP\0\x02\0\0\0\x01\0\x01\0\0\0\x01\0\0\0\0\0\0\xff\x80",
    ),
];

/// The bytes of each other clip file: three frames of one pixel.
const CLIP: &[u8] =
    b"RCLP\0\x01\0\0\0\x01\0\x01\0\0\0\x03\0\0\0\0\0\0\0\xff\0\0\x50\xff\0\0\xa0\xff";

/// Returns the bytes of the clip file of this name.
fn clip_bytes(name: &str) -> &'static [u8] {
    for (pixel_name, bytes) in PIXELS {
        if name == pixel_name {
            return bytes;
        }
    }
    if name == "song.rclp" { SONG } else { CLIP }
}

/// Returns a folder with the configurations and with clip files of these names.
fn folder_of(alloc: Global, names: &str) -> Result<MemMedia, Fail> {
    let mut configs = Vec::new(alloc);
    for (path, text) in CONFIGS {
        configs.push(config_at(alloc, path, text)?)?;
    }
    let mut files = Vec::new(alloc);
    for name in names.split_whitespace() {
        files.push(clip_in(alloc, "m", name, clip_bytes(name))?)?;
    }
    Ok(MemMedia::new(configs, files, Vec::new(alloc)))
}

#[test]
fn runs_end_with_their_status(rt: HostRuntime) -> Result<(), Fail> {
    let alloc = rt.alloc();
    for run in RUNS {
        let mut media = folder_of(alloc, run.clips)?;
        gives(
            &rt, alloc, run.words, run.script, &mut media, run.status, run.output,
        )?;
    }
    Ok(())
}

/// The most reads that a watched source notes.
const NOTED_READS: usize = 8;

/// A source in memory that notes before each of its first reads how many bytes the sink beside it has taken.
#[derive(Drop)]
struct WatchedSource {
    inner: MemSource,
    taken: Arc<AtomicUsize, Global>,
    noted: [usize; NOTED_READS],
    reads: usize,
}

impl Source for WatchedSource {
    ghost state = { λ s. ⟦<MemSource as Source>⟧.state s.inner };

    fn read(&mut self, buf: &mut [u8]) -> ReadStep {
        if self.reads < NOTED_READS {
            self.noted[self.reads] = self.taken.load(Ordering::SeqCst);
            self.reads += 1;
        }
        self.inner.read(buf)
    }
}

/// A sink in memory that stores how many bytes it has taken where the source sees it.
#[derive(Drop)]
struct WatchedSink {
    inner: MemSink,
    taken: Arc<AtomicUsize, Global>,
}

impl Sink for WatchedSink {
    ghost state = { λ s. ⟦<MemSink as Sink>⟧.state s.inner };

    fn write(&mut self, piece: &[u8]) -> WriteStep {
        let step = self.inner.write(piece);
        self.taken.store(self.inner.taken().len(), Ordering::SeqCst);
        step
    }
}

/// A client that writes a script line by line, and waits for the output of each line, never waits for ever: before each read the
/// output of all lines that were read is written.
#[test]
fn output_is_written_before_the_next_read(rt: HostRuntime) -> Result<(), Fail> {
    let alloc = rt.alloc();
    let taken = Arc::new(alloc, AtomicUsize::new(0))?;
    let script = "T\n#\nT\nX\nT\n";
    let mut input = WatchedSource {
        inner: MemSource::new(script.as_bytes().to_vec(alloc)?, 2, Vec::new(alloc)),
        taken: taken.clone()?,
        noted: [usize::MAX; NOTED_READS],
        reads: 0,
    };
    let mut out = WatchedSink {
        inner: MemSink::new(alloc, 0, 100, 4, Vec::new(alloc))?,
        taken,
    };
    let mut media = folder_of(alloc, "")?;
    let status = status_of(&rt, alloc, "run 1 1", &mut input, &mut media, &mut out)?;
    assert_eq!(&rt; status, 0);
    // Each frame has 15 bytes. After the stop nothing is read.
    let none = usize::MAX;
    let noted = [0, 15, 15, 30, none, none, none, none];
    assert_eq!(&rt; input.noted.as_slice(), noted.as_slice());
    Ok(())
}
