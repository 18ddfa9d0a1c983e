//! Clips that are converted. The bytes were worked out by hand.

use super::shared::status_of;
use play_outside::{MemMedia, MemSink, MemSource};
use std::test::Fail;

/// Conversions: the input, the exit status and the output.
const CONVERSIONS: [(&[u8], u8, &[u8]); 9] = [
    // A quarter of red at half alpha.
    (
        b"RCLP\0\x01\0\0\0\x01\0\x01\0\0\0\x01\0\0\0\0\0\0\x40\x80",
        0,
        b"RCLP\0\x02\0\0\0\x01\0\x01\0\0\0\x01\0\0\0\0\0\0\x80\x80",
    ),
    // A colour above its alpha is lowered first.
    (
        b"RCLP\0\x01\0\0\0\x01\0\x01\0\0\0\x01\0\0\0\0\0\0\xff\x80",
        0,
        b"RCLP\0\x02\0\0\0\x01\0\x01\0\0\0\x01\0\0\0\0\0\0\xff\x80",
    ),
    // A clip of version 2 stays as it is, even if a colour is above its alpha.
    (
        b"RCLP\0\x02\0\0\0\x01\0\x01\0\0\0\x01\0\0\0\0\0\0\xff\x80",
        0,
        b"RCLP\0\x02\0\0\0\x01\0\x01\0\0\0\x01\0\0\0\0\0\0\xff\x80",
    ),
    // Two frames with a pair of sound, which stays.
    (
        b"RCLP\0\x01\0\0\0\x01\0\x01\0\0\0\x02\0\x01\0\0\x01\x02\x03\x04\xe8\x03\x18\xfc\x09\x09\x09\0\xd0\x07\x30\xf8",
        0,
        b"RCLP\0\x02\0\0\0\x01\0\x01\0\0\0\x02\0\x01\0\0\x40\x80\xbf\x04\xe8\x03\x18\xfc\0\0\0\0\xd0\x07\x30\xf8",
    ),
    (b"RCLP\0", 2, b"E clip short 20 5\n"),
    (
        b"RCLp\0\x01\0\0\0\x01\0\x01\0\0\0\x01\0\0\0\0\0\0\x40\x80",
        2,
        b"E clip magic\n",
    ),
    (
        b"RCLP\0\x03\0\0\0\x01\0\x01\0\0\0\x01\0\0\0\0\0\0\x40\x80",
        2,
        b"E clip version\n",
    ),
    (
        b"RCLP\0\x01\0\0\0\0\0\x01\0\0\0\x01\0\0\0\0\0\0\x40\x80",
        2,
        b"E clip field 8\n",
    ),
    (
        b"RCLP\0\x01\0\0\0\x01\0\x01\0\0\0\x01\0\0\0\0\0\0\x40\x80\0",
        2,
        b"E clip long 1\n",
    ),
];

#[test]
fn clips_are_made_straight(rt: HostRuntime) -> Result<(), Fail> {
    let alloc = rt.alloc();
    for (clip, status, output) in CONVERSIONS {
        let mut input = MemSource::new(clip.to_vec(alloc)?, 7, Vec::new(alloc));
        let mut media = MemMedia::new(Vec::new(alloc), Vec::new(alloc), Vec::new(alloc));
        let mut out = MemSink::new(alloc, 0, 1000, 5, Vec::new(alloc))?;
        let found = status_of(&rt, alloc, "convert", &mut input, &mut media, &mut out)?;
        assert_eq!(&rt; found, status);
        assert_eq!(&rt; out.taken(), output);
    }
    Ok(())
}
