//! Folders in memory that are scanned with ample memory, and calls of them that fail.

use clip_format::MediaTable;
use clip_store::{ScanFault, scan};
use play_outside::{MemFile, MemMedia, PlainMedia};
use std::alloc::Global;
use std::test::Fail;
use std::thread::Threads;

/// Two frames of 2x1 pixels and a pair of sound. Some colour bytes are above their alpha.
const BRIGHT: &[u8] =
    b"RCLP\0\x01\0\0\0\x02\0\x01\0\0\0\x02\0\x01\0\0\x09\x07\x08\x07\x01\xff\x03\x64\xff\xff\x01\0\x05\x05\x05\0\x0a\x14\x1e\xff\x09\x08\x07\0";

/// Scans a folder with two clip files of these names, whose call number `fails` fails.
fn scan_failing<R: Threads + Sync>(
    rt: &R,
    alloc: Global,
    names: [&str; 2],
    fails: u64,
) -> Result<Result<MediaTable, ScanFault>, Fail> {
    let mut files = Vec::new(alloc);
    for name in names {
        files.push(MemFile {
            folder: String::from_str(alloc, "clips")?,
            name: String::from_str(alloc, name)?,
            bytes: Vec::from_slice(alloc, BRIGHT)?,
        })?;
    }
    let mut media = MemMedia::new(Vec::new(alloc), files, vec![in alloc; fails]?);
    Ok(scan(rt, alloc, "clips", &mut media))
}

#[test]
fn a_scan_fails_if_a_call_fails_or_a_name_comes_twice(rt: HostRuntime) -> Result<(), Fail> {
    let alloc = rt.alloc();
    let names = ["b.rclp", "a.RCLP"];
    for fails in 1..4 {
        let fault = scan_failing(&rt, alloc, names, fails)?.err();
        assert!(rt; matches!(fault, Some(ScanFault::ReadFault)));
    }
    let table = scan_failing(&rt, alloc, names, 4)?.ok().ok_or("a table")?;
    assert_eq!(rt; table.len(), 2);
    // No file is read if two clips have one name.
    let fault = scan_failing(&rt, alloc, ["a.rclp", "a.RCLP"], 2)?.err();
    assert!(rt; matches!(fault, Some(ScanFault::TwoNames { .. })));
    assert!(rt; scan(&rt, alloc, "clips", &mut PlainMedia).is_ok());
    Ok(())
}
