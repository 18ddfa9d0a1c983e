//! Generated scripts: the summary of `gen` is that of a run of its script, which is written out here.

use super::shared::{folder_with, status_of};
use play_outside::{MemSink, MemSource};
use sha2::{Digest, Sha256};
use std::alloc::Global;
use std::test::Fail;
use std::thread::Threads;

/// The configuration that a generated script is played on.
const CONFIG: &str =
    "listen='l'\nmedia='m'\nrate=25\nchannel=[{width=64,height=36,pairs=4,output='o'},{width=64,height=36,pairs=4,output='o'}]";

/// The script of seed 7 and 12 steps, by the table of the documents.
const SCRIPT: &str = "3.1 LOADBG 2-1 route://2 WIPE 5 LEFT AUTO
T
3.1 MIXER 2-0 FILL 0.9 0 0.2 1 DEFER
3.1 SWAP 2-0 2-0 TRANSFORMS
3.1 PLAY 1-2 #7058D9C5 MIX 4
T
2.1 SWAP 2-1 2-0 TRANSFORMS
T
1.1 MIXER 1-0 OPACITY 0.4 6
3.1 MIXER 1-2 OPACITY 0.8 4
1.1 MIXER 1-0 FILL 0.3 0 0.9 1 DEFER
3.1 SWAP 2-0 2-1 TRANSFORMS
T
";

/// Returns the exit status and the output of a run with this input.
fn written<R: Threads + Sync>(
    rt: &R,
    alloc: Global,
    words: &str,
    input: &str,
) -> Result<(u8, MemSink), Fail> {
    let mut media = folder_with(alloc, "made", CONFIG)?;
    let mut input = MemSource::new(input.as_bytes().to_vec(alloc)?, 4096, Vec::new(alloc));
    let mut out = MemSink::new(alloc, 0, 400_000, 65_536, Vec::new(alloc))?;
    let status = status_of(rt, alloc, words, &mut input, &mut media, &mut out)?;
    Ok((status, out))
}

#[test]
fn a_summary_is_that_of_its_script(rt: HostRuntime) -> Result<(), Fail> {
    let alloc = rt.alloc();
    let (status, played) = written(&rt, alloc, "run --config made", SCRIPT)?;
    assert_eq!(&rt; status, 0);
    let digest = hex::encode(alloc, Sha256::digest(played.taken()))?;
    let mut summary = String::new(alloc);
    write!(
        &mut summary,
        "commands 9\nticks 4\nrefused 0\ndigest {digest}\n"
    )?;
    for _again in 0..2 {
        let (status, made) = written(&rt, alloc, "gen 7 12", "")?;
        assert_eq!(&rt; status, 0);
        assert_eq!(&rt; made.taken(), summary.as_bytes());
    }
    Ok(())
}
