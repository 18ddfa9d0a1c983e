//! Runs of `run_main` whose output was worked out by hand, and runs whose input or output fails.
mod table;

use super::shared::{clip_in, config_at, gives, status_of};
use play_outside::{MemMedia, MemSink, MemSource};
use std::alloc::Global;
use std::test::Fail;
use table::RUNS;

/// The configurations, each after its path.
const CONFIGS: [(&str, &str); 8] = [
    (
        "one",
        "listen='l'\nmedia='clips'\nrate=25\nchannel=[{width=1,height=1,output='o'}]",
    ),
    (
        "wide",
        "listen='l'\nmedia='clips'\nrate=25\nchannel=[{width=4,height=1,output='o'}]",
    ),
    (
        "three_pairs",
        "listen='l'\nmedia='clips'\nrate=25\nchannel=[{width=1,height=1,pairs=3,output='o'}]",
    ),
    (
        "two",
        "listen='l'\nmedia='clips'\nrate=25\nchannel=[{width=1,height=1,output='o'},{width=1,height=1,output='o'}]",
    ),
    (
        "short",
        "listen='l'\nmedia='clips'\nrate=25\njournal_limit=2\nchannel=[{width=1,height=1,output='o'}]",
    ),
    (
        "stopped",
        "listen='l'\nmedia='clips'\nrate=0\nchannel=[{width=1,height=1,output='o'}]",
    ),
    (
        "cut",
        "listen='l'\nmedia='cut'\nrate=25\nchannel=[{width=1,height=1,output='o'}]",
    ),
    (
        "twice",
        "listen='l'\nmedia='twice'\nrate=25\nchannel=[{width=1,height=1,output='o'}]",
    ),
];

/// The clip files: a folder, a name and the bytes.
const CLIPS: [(&str, &str, &[u8]); 8] = [
    // Four pixels of one frame.
    (
        "clips",
        "BARS.rclp",
        b"RCLP\0\x01\0\0\0\x04\0\x01\0\0\0\x01\0\0\0\0\0\0\x0a\xff\0\0\x14\xff\0\0\x1e\xff\0\0\x28\xff",
    ),
    // A white pixel, and one that is half transparent.
    (
        "clips",
        "HALF.rclp",
        b"RCLP\0\x01\0\0\0\x02\0\x01\0\0\0\x01\0\0\0\0\xff\xff\xff\xff\x80\x80\x80\x80",
    ),
    // Three frames of one pixel.
    (
        "clips",
        "THREE.rclp",
        b"RCLP\0\x01\0\0\0\x01\0\x01\0\0\0\x03\0\0\0\0\0\0\0\xff\0\0\x50\xff\0\0\xa0\xff",
    ),
    // A pixel with the samples 1000 and -1000, 32767 and -32768.
    (
        "clips",
        "TONE.rclp",
        b"RCLP\0\x01\0\0\0\x01\0\x01\0\0\0\x01\0\x02\0\0\0\0\0\xff\xe8\x03\x18\xfc\xff\x7f\0\x80",
    ),
    // A byte too many, and a byte too few.
    (
        "cut",
        "LONGER.rclp",
        b"RCLP\0\x01\0\0\0\x01\0\x01\0\0\0\x01\0\0\0\0\0\0\xff\xff\0",
    ),
    (
        "cut",
        "SHORTER.rclp",
        b"RCLP\0\x01\0\0\0\x01\0\x01\0\0\0\x01\0\0\0\0\0\0\xff",
    ),
    ("twice", "a.rclp", b""),
    ("twice", "A.RCLP", b""),
];

/// Returns a folder with the configurations and the clip files.
fn folder(alloc: Global) -> Result<MemMedia, Fail> {
    let mut configs = Vec::new(alloc);
    for (path, text) in CONFIGS {
        configs.push(config_at(alloc, path, text)?)?;
    }
    let mut files = Vec::new(alloc);
    for (folder, name, bytes) in CLIPS {
        files.push(clip_in(alloc, folder, name, bytes)?)?;
    }
    Ok(MemMedia::new(configs, files, Vec::new(alloc)))
}

#[test]
fn runs_write_what_was_worked_out(rt: HostRuntime) -> Result<(), Fail> {
    let alloc = rt.alloc();
    for run in RUNS {
        let mut media = folder(alloc)?;
        gives(
            &rt, alloc, run.words, run.script, &mut media, run.status, run.output,
        )?;
    }
    Ok(())
}

/// Returns a script that plays RED on the first `layers` layers, and the replies to it.
fn full_channel(alloc: Global, layers: u32) -> Result<(String, String), Fail> {
    let mut script = String::new(alloc);
    let mut replies = String::new(alloc);
    for layer in 0..layers {
        write!(&mut script, "1.1 PLAY 1-{layer} RED\n")?;
        replies.push_str("1.1 202 PLAY OK\n")?;
    }
    Ok((script, replies))
}

/// A channel has 64 live layers at most, and a batch that would have more is refused as a whole.
#[test]
fn the_65th_layer_is_refused(rt: HostRuntime) -> Result<(), Fail> {
    let alloc = rt.alloc();
    let (mut script, mut replies) = full_channel(alloc, 64)?;
    script.push_str(
        "1.1 PLAY 1-64 RED\n1.1 BEGIN\n1.1 PLAY 1-63 BLUE\n1.1 PLAY 1-64 RED\n1.1 COMMIT\nT\n",
    )?;
    replies.push_str(
        "1.1 403 PLAY ERROR\n1.1 202 BEGIN OK\n1.1 202 PLAY OK\n1.1 202 PLAY OK\n1.1 403 COMMIT ERROR\nF 1 1\n0000ffff\n",
    )?;
    let mut media = folder(alloc)?;
    let (script, replies) = (script.as_str(), replies.as_str());
    gives(&rt, alloc, "run 1 1", script, &mut media, 0, replies)
}

/// The reply to an unknown line of 4,096 bytes repeats it, and the reply to a longer one does not.
#[test]
fn lines_have_4096_bytes(rt: HostRuntime) -> Result<(), Fail> {
    let alloc = rt.alloc();
    let longest = "Z".repeat(alloc, 4096)?;
    let mut script = String::new(alloc);
    write!(&mut script, "1.1 {longest}\n1.1 {longest}Z\n1.1 VERSION\n")?;
    let mut replies = String::new(alloc);
    write!(
        &mut replies,
        "1.1 400 ERROR\n1.1 {longest}\n1.1 400 ERROR\n1.1 \n1.1 201 VERSION OK\n1.1 2.0 PLAYD\n"
    )?;
    let mut media = folder(alloc)?;
    let (script, replies) = (script.as_str(), replies.as_str());
    gives(&rt, alloc, "run 1 1", script, &mut media, 0, replies)
}

/// Runs whose devices fail: the numbers of the reads and of the writes that fail, counted from 1, and the output. The second write
/// of a run that failed writes the error line.
const FAULTS: [(&[u64], &[u64], &str); 3] = [
    (&[1], &[], "E device\n"),
    (&[], &[1], "E device\n"),
    (&[], &[1, 2], ""),
];

#[test]
fn a_device_that_fails_ends_the_run(rt: HostRuntime) -> Result<(), Fail> {
    let alloc = rt.alloc();
    for (reads, writes, output) in FAULTS {
        let script = "1.1 PLAY 1-0 #FFFF0000\nT\n".as_bytes().to_vec(alloc)?;
        let mut input = MemSource::new(script, 4096, reads.to_vec(alloc)?);
        let mut media = folder(alloc)?;
        let mut out = MemSink::new(alloc, 0, 1000, 4096, writes.to_vec(alloc)?)?;
        let status = status_of(&rt, alloc, "run 4 2", &mut input, &mut media, &mut out)?;
        assert_eq!(&rt; status, 4);
        assert_eq!(&rt; out.taken(), output.as_bytes());
    }
    Ok(())
}
