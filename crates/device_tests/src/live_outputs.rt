//! Queues of live outputs, with readers in memory.

use live_output::{FrameCutter, LiveOutput, Progress, queue, waiting_frames};
use std::alloc::Global;
use std::io::{self, Error, ErrorKind, Write};
use std::sync::Arc;
use std::sync::atomic::{AtomicUsize, Ordering};

/// The number of bytes of a frame.
const SIZE: usize = 4;

/// A reader that takes as many bytes as it is given room for.
#[derive(Drop)]
struct Slow {
    room: Arc<AtomicUsize, Global>,
    got: Vec<u8>,
}

impl Write for Slow {
    fn write(&mut self, bytes: &[u8]) -> io::Result<usize> {
        let room = self.room.load(Ordering::SeqCst);
        let count = bytes.len().min(room);
        if count == 0 {
            return Err(Error::from(ErrorKind::WouldBlock));
        }
        self.got.extend_from_slice(&bytes[..count])?;
        self.room.store(room - count, Ordering::SeqCst);
        Ok(count)
    }

    fn flush(&mut self) -> io::Result<()> {
        Ok(())
    }
}

/// Makes both ends of a queue for one reader.
fn ends(alloc: Global) -> io::Result<(FrameCutter, LiveOutput<Slow>)> {
    let (cutter, window) = queue(alloc, SIZE, 1)?;
    Ok((cutter, LiveOutput::new(alloc, window, 1)?))
}

/// Adds a reader with this room. Returns whether there was a place for it.
fn add(
    alloc: Global,
    output: &mut LiveOutput<Slow>,
    room: &Arc<AtomicUsize, Global>,
) -> io::Result<bool> {
    let slow = Slow {
        room: Arc::try_clone(room)?,
        got: Vec::new(alloc),
    };
    Ok(output.add(slow).is_ok())
}

/// Removes the only reader, and returns what it got.
fn got(output: &mut LiveOutput<Slow>) -> io::Result<Vec<u8>> {
    if output.count() == 0 {
        return Err(Error::from(ErrorKind::NotFound));
    }
    let reader = output.remove(0);
    Ok(output.take_back(reader).got)
}

/// Returns how many frames the only reader missed.
fn skipped(output: &LiveOutput<Slow>) -> u64 {
    if output.count() == 0 {
        return 0;
    }
    output.reader(0).skipped()
}

/// Writes to the only reader until it takes nothing or has all.
fn write_all(output: &mut LiveOutput<Slow>) -> Progress {
    for _ in 0..10_000 {
        if output.count() == 0 {
            return Progress::Left;
        }
        match output.write_to(0) {
            Progress::Took => {}
            other => return other,
        }
    }
    Progress::Took
}

#[test]
fn a_reader_gets_whole_frames_from_the_next_one_on(rt: HostRuntime) -> io::Result<()> {
    let alloc = rt.alloc();
    let (mut cutter, mut output) = ends(alloc)?;
    let room = Arc::new(alloc, AtomicUsize::new(100))?;
    cutter.write(b"aaaa", true);
    assert!(rt; output.take());
    assert!(rt; add(alloc, &mut output, &room)?);
    assert!(rt; !add(alloc, &mut output, &room)?);
    cutter.write(b"bb", true);
    cutter.write(b"bbccccd", true);
    assert!(rt; output.take() && output.take() && !output.take());
    assert_eq!(rt; write_all(&mut output), Progress::Idle);
    let first = got(&mut output)?;
    assert!(rt; first.as_slice() == b"bbbbcccc".as_slice());
    assert!(rt; add(alloc, &mut output, &room)?);
    cutter.write(b"ddd", true);
    assert!(rt; output.take());
    assert_eq!(rt; write_all(&mut output), Progress::Idle);
    let second = got(&mut output)?;
    assert!(rt; second.as_slice() == b"dddd".as_slice());
    assert_eq!(rt; cutter.dropped(), 0);
    Ok(())
}

#[test]
fn a_reader_that_is_too_slow_misses_whole_frames(rt: HostRuntime) -> io::Result<()> {
    let alloc = rt.alloc();
    let (mut cutter, mut output) = ends(alloc)?;
    let room = Arc::new(alloc, AtomicUsize::new(2))?;
    assert!(rt; add(alloc, &mut output, &room)?);
    let waiting = waiting_frames(SIZE) as u32;
    for number in 0..waiting + 76 {
        cutter.write(&number.to_le_bytes(), true);
        assert!(rt; output.take());
        assert_eq!(rt; write_all(&mut output), Progress::Full);
    }
    room.store(1 << 20, Ordering::SeqCst);
    assert_eq!(rt; write_all(&mut output), Progress::Idle);
    assert_eq!(rt; skipped(&output), 75);
    let mut wanted = Vec::new(alloc);
    wanted.extend_from_slice(&0u32.to_le_bytes())?;
    for number in 76..waiting + 76 {
        wanted.extend_from_slice(&number.to_le_bytes())?;
    }
    let all = got(&mut output)?;
    assert!(rt; all.as_slice() == wanted.as_slice());
    assert_eq!(rt; cutter.dropped(), 0);
    Ok(())
}

#[test]
fn frames_that_find_no_reader_or_no_room_are_counted(rt: HostRuntime) -> io::Result<()> {
    let alloc = rt.alloc();
    let (mut cutter, mut output) = ends(alloc)?;
    for number in 0..10u32 {
        cutter.write(&number.to_le_bytes(), false);
    }
    assert_eq!(rt; cutter.dropped(), 10);
    assert!(rt; !output.take());
    let buffers = waiting_frames(SIZE) as u32 + 3;
    for number in 0..buffers + 5 {
        cutter.write(&number.to_le_bytes(), true);
    }
    assert_eq!(rt; cutter.dropped(), 15);
    for _ in 0..buffers {
        assert!(rt; output.take());
    }
    assert!(rt; !output.take());
    Ok(())
}

#[test]
fn the_buffers_of_frames_that_readers_left_come_back(rt: HostRuntime) -> io::Result<()> {
    let alloc = rt.alloc();
    let (mut cutter, mut output) = ends(alloc)?;
    let room = Arc::new(alloc, AtomicUsize::new(0))?;
    for number in 0..2_000u32 {
        room.store(2, Ordering::SeqCst);
        assert!(rt; add(alloc, &mut output, &room)?);
        cutter.write(&number.to_le_bytes(), true);
        assert!(rt; output.take());
        assert_eq!(rt; write_all(&mut output), Progress::Full);
        let part = got(&mut output)?;
        assert_eq!(rt; part.len(), 2);
    }
    assert_eq!(rt; cutter.dropped(), 0);
    Ok(())
}
