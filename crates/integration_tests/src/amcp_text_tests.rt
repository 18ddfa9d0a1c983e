//! Calls that allocate, with ample memory.

use amcp_text::{LineReader, WordList, tokens};

#[test]
fn calls_succeed_with_ample_memory(rt: HostRuntime) {
    let alloc = rt.alloc();
    for (succeeds, call) in [
        (LineReader::new(alloc).is_ok(), "LineReader::new"),
        (WordList::new(alloc).push("PLAY").is_ok(), "WordList::push"),
        (tokens(alloc, "PLAY 1-0 \"RED\"").is_ok(), "tokens"),
    ] {
        assert!(rt; succeeds, "{call}");
    }
}
