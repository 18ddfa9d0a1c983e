//! What objects in memory do call by call, with ample memory: pieces, room, and faults where they are planned.
mod devices;

use play_outside::{
    FileFault, Gather, MediaDir, MemConfig, MemFile, MemMedia, MemSink, MemSource, PlainMedia,
    PlainSink, PlainSource, ReadStep, Sent, Sink, Source, WriteStep, send, send_parts,
};
use std::process::Abort;
use std::test::Fail;

/// Reads into four bytes, once for each step that is expected.
fn check_reads<S: Source>(rt: &impl Abort, source: &mut S, expected: &[ReadStep]) {
    for step in expected {
        let mut buf = [0; 4];
        assert_eq!(rt; source.read(&mut buf), *step);
    }
}

#[test]
fn sources_give_pieces_and_fail_as_planned(rt: HostRuntime) -> Result<(), Fail> {
    let bytes = Vec::from_slice(rt.alloc(), b"abcdef")?;
    let (three, two, four) = (ReadStep::Got(3), ReadStep::Got(2), ReadStep::Got(4));
    let mut plain = PlainSource::new(bytes.clone()?);
    check_reads(&rt, &mut plain, &[four, two, ReadStep::End]);
    let mut source = MemSource::new(bytes, 3, vec![in rt.alloc(); 2]?);
    let steps = [three, ReadStep::Failed, three, ReadStep::End];
    check_reads(&rt, &mut source, &steps);
    Ok(())
}

#[test]
fn a_sink_takes_pieces_until_it_is_full(rt: HostRuntime) -> Result<(), Fail> {
    let mut sink = MemSink::new(rt.alloc(), 7, 6, 3, vec![in rt.alloc(); 2]?)?;
    let steps = [
        sink.write(b"abcd"),
        sink.write(b"d"),
        sink.write(b"de"),
        sink.write(b"fg"),
        sink.write(b"g"),
    ];
    let (took, failed) = (WriteStep::Took, WriteStep::Failed);
    assert_eq!(rt; steps, [took(3), failed, took(2), took(1), failed]);
    Ok(())
}

#[test]
fn a_send_goes_on_until_all_is_taken_or_a_write_fails(rt: HostRuntime) -> Result<(), Fail> {
    let mut sink = MemSink::new(rt.alloc(), 0, 8, 3, Vec::new(rt.alloc()))?;
    let sent = [
        send(b"abcd", &mut sink),
        send(b"907", &mut sink),
        send_parts(&[b"e", b"fg"], &mut sink),
        send(b"efg", &mut PlainSink::new(0)),
    ];
    assert_eq!(rt; sent, [Sent::All, Sent::All, Sent::Failed, Sent::All]);
    Ok(())
}

#[test]
fn a_gather_writes_once_and_drops_what_failed(rt: HostRuntime) -> Result<(), Fail> {
    let mut sink = MemSink::new(rt.alloc(), 0, 99, 99, vec![in rt.alloc(); 4]?)?;
    let mut gather = Gather::<4>::new();
    let sent = [
        send_parts(&[b"one ", b"write", b"\n"], &mut sink),
        gather.add(b"ab", &mut sink),
        gather.add_parts(&[b"c", b"d", b"e"], &mut sink),
        gather.add(b"longer", &mut sink),
        gather.finish(&mut sink),
    ];
    let (all, failed) = (Sent::All, Sent::Failed);
    assert_eq!(rt; sent, [all, all, all, failed, all]);
    assert_eq!(rt; sink.taken(), b"one write\nabcde".as_slice());
    Ok(())
}

#[test]
fn a_folder_finds_its_files_and_fails_as_planned(rt: HostRuntime) -> Result<(), Fail> {
    let alloc = rt.alloc();
    let config = MemConfig {
        path: String::from_str(alloc, "c")?,
        bytes: Vec::new(alloc),
    };
    let file = MemFile {
        folder: String::from_str(alloc, "m")?,
        name: String::from_str(alloc, "f")?,
        bytes: Vec::new(alloc),
    };
    let mut media = MemMedia::new(
        vec![in alloc; config]?,
        vec![in alloc; file]?,
        vec![in alloc; 3]?,
    );
    let faults = [
        media.config(alloc, "c").err(),
        media.names(alloc, "m").err(),
        media.names(alloc, "m").err(),
        media.bytes(alloc, "m", "f").err(),
        media.bytes(alloc, "m", "g").err(),
        media.config(alloc, "d").err(),
        PlainMedia.config(alloc, "c").err(),
    ];
    let failed = Some(FileFault::Failed);
    assert_eq!(rt; faults, [None, None, failed, None, failed, failed, None]);
    Ok(())
}
