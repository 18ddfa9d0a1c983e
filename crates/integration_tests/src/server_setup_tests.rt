//! A folder in memory that is set up with ample memory, and calls of it that fail.
use play_outside::{MemConfig, MemFile, MemMedia};
use server_setup::{RunFault, ServerSetup, set_up};
use std::alloc::Global;
use std::test::Fail;
use std::thread::Threads;

/// A configuration without sound, whose clips are in the folder `m`.
const TEXT: &[u8] =
    b"listen='a'\nmedia='m'\nrate=25\nchannel=[{width=1,height=2,output='o'},{width=1,height=2,output='o'}]";

/// Two files that are no clips, and one that is passed over.
const NAMES: [&str; 3] = ["b.rclp", "a.rclp", "a.txt"];

/// Sets up from the configuration `c` with a folder whose call number `fails` fails.
fn set_up_failing<R: Threads + Sync>(
    rt: &R,
    alloc: Global,
    fails: u64,
) -> Result<Result<ServerSetup, RunFault>, Fail> {
    let config = MemConfig {
        path: String::from_str(alloc, "c")?,
        bytes: Vec::from_slice(alloc, TEXT)?,
    };
    let mut files = Vec::new(alloc);
    for name in NAMES {
        files.push(MemFile {
            folder: String::from_str(alloc, "m")?,
            name: String::from_str(alloc, name)?,
            bytes: Vec::new(alloc),
        })?;
    }
    let mut folder = MemMedia::new(vec![in alloc; config]?, files, vec![in alloc; fails]?);
    Ok(set_up(rt, alloc, "c", &mut folder))
}

#[test]
fn a_failed_call_of_the_folder_has_status_4(rt: HostRuntime) -> Result<(), Fail> {
    let alloc = rt.alloc();
    for fails in 1..5 {
        let fault = set_up_failing(&rt, alloc, fails)?.err().ok_or("a fault")?;
        assert_eq!(rt; fault.status(), 4);
    }
    assert!(rt; set_up_failing(&rt, alloc, 5)?.is_ok());
    Ok(())
}
