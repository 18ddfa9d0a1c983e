//! Clips that are read, made straight and written, files that are no clips, and a table, with ample memory and room.

use clip_format::{MediaTable, decode, encode, straight_clip};
use play_outside::{MemSink, Sent};
use play_types::{ClipFault, Text};
use std::test::Fail;

#[test]
fn a_clip_is_written_with_the_bytes_that_were_read(rt: HostRuntime) -> Result<(), Fail> {
    let file = b"RCLP\0\x01\0\0\0\x02\0\x01\0\0\0\x02\0\x01\0\0aaaAbbbBl1r1cccCdddDl2r2";
    let clip = decode(Vec::from_slice(rt.alloc(), file)?)
        .ok()
        .ok_or("the bytes are a clip")?;
    let mut sink = MemSink::new(rt.alloc(), 0, 50, 7, Vec::new(rt.alloc()))?;
    assert_eq!(rt; encode(&clip, &mut sink), Sent::All);
    assert_eq!(rt; sink.taken(), file.as_slice());
    Ok(())
}

/// Clip files, each before the file of version 2 with the same pictures. The second has a colour above its alpha and one whose alpha
/// is 0, and the last two are of version 2.
const STRAIGHT: [(&[u8], &[u8]); 4] = [
    (
        b"RCLP\0\x01\0\0\0\x01\0\x01\0\0\0\x01\0\0\0\0\0\0\x40\x80",
        b"RCLP\0\x02\0\0\0\x01\0\x01\0\0\0\x01\0\0\0\0\0\0\x80\x80",
    ),
    (
        b"RCLP\0\x01\0\0\0\x02\0\x01\0\0\0\x01\0\x01\0\0\0\0\xff\x80\x01\x02\x03\0l1r1",
        b"RCLP\0\x02\0\0\0\x02\0\x01\0\0\0\x01\0\x01\0\0\0\0\xff\x80\0\0\0\0l1r1",
    ),
    (
        b"RCLP\0\x02\0\0\0\x01\0\x01\0\0\0\x01\0\0\0\0\0\0\x80\x80",
        b"RCLP\0\x02\0\0\0\x01\0\x01\0\0\0\x01\0\0\0\0\0\0\x80\x80",
    ),
    (
        b"RCLP\0\x02\0\0\0\x01\0\x01\0\0\0\x01\0\0\0\0\0\0\xff\x80",
        b"RCLP\0\x02\0\0\0\x01\0\x01\0\0\0\x01\0\0\0\0\0\0\xff\x80",
    ),
];

#[test]
fn a_straight_clip_has_the_bytes_of_version_2(rt: HostRuntime) -> Result<(), Fail> {
    for (file, straight) in STRAIGHT {
        let clip = decode(Vec::from_slice(rt.alloc(), file)?)
            .ok()
            .ok_or("the bytes are a clip")?;
        let mut sink = MemSink::new(rt.alloc(), 0, 50, 7, Vec::new(rt.alloc()))?;
        assert_eq!(&rt; encode(&straight_clip(clip), &mut sink), Sent::All);
        assert_eq!(&rt; sink.taken(), straight);
    }
    Ok(())
}

/// The file of one pixel without sound.
const PIXEL: &[u8] = b"RCLP\0\x01\0\0\0\x01\0\x01\0\0\0\x01\0\0\0\0abcd";

/// Headers, and the fault of a file that has nothing else. The last one has the greatest numbers.
const HEADERS: [(&[u8], ClipFault); 4] = [
    (
        b"RCLP\0\x01\0\0\x10\x01\0\x01\0\0\0\x01\0\0\0\0",
        ClipFault::BadField { at: 8 },
    ),
    (
        b"RCLP\0\x01\0\0\0\x01\0\x01\0\0\0\0\0\0\0\0",
        ClipFault::BadField { at: 12 },
    ),
    (
        b"RCLP\0\x01\0\0\0\x01\0\x01\0\0\0\x01\0\0\0\x01",
        ClipFault::BadField { at: 18 },
    ),
    (
        b"RCLP\0\x01\0\0\x10\0\x10\0\0\x0F\x42\x40\x10\0\0\0",
        ClipFault::Short {
            needed: 67_125_248_000_020,
            had: 20,
        },
    ),
];

#[test]
fn a_cut_clip_and_a_wrong_header_are_refused(rt: HostRuntime) -> Result<(), Fail> {
    let alloc = rt.alloc();
    for had in 0..PIXEL.len() {
        let needed = if had < 20 { 20 } else { 24 };
        let fault = ClipFault::Short {
            needed,
            had: had as u64,
        };
        let file = Vec::from_slice(alloc, &PIXEL[..had])?;
        assert_eq!(rt; decode(file).err(), Some(fault));
    }
    for (header, fault) in HEADERS {
        let file = Vec::from_slice(alloc, header)?;
        assert_eq!(rt; decode(file).err(), Some(fault));
    }
    Ok(())
}

#[test]
fn a_table_has_the_name_of_an_unreadable_clip(rt: HostRuntime) -> Result<(), Fail> {
    let alloc = rt.alloc();
    let mut table = MediaTable::empty(alloc)?;
    table.add(Text::copy(alloc, "SHORTER")?, Err(ClipFault::BadMagic))?;
    assert_eq!(rt; table.names(alloc)?.len(), 1);
    Ok(())
}
