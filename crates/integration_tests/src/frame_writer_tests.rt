//! Small frames that are written to a sink with room, and a small frame that is one write.
use frame_writer::{write_digest, write_hex, write_raw};
use play_outside::{MemSink, Sent};
use play_types::Geometry;
use std::test::Fail;

#[test]
fn frames_are_written_as_digits_digests_and_bytes(rt: HostRuntime) -> Result<(), Fail> {
    let mut sink = MemSink::new(rt.alloc(), 0, 400, 7, Vec::new(rt.alloc()))?;
    let size = Geometry {
        width: 1,
        height: 1,
        pairs: 3,
    };
    let sound = [0, 128, 255, 127, 1, 0, 254, 255, 16, 0, 10, 11];
    let sent = [
        write_hex(2, 30, size, &[1, 32, 171, 205], &sound, &mut sink),
        write_digest(9, 18446744073709551615, b"ab", b"c", &mut sink),
        write_digest(1, 2, &[], &[], &mut sink),
        write_raw(b"pixels", b"sound", &mut sink),
    ];
    assert_eq!(rt; sent, [Sent::All; 4]);
    assert_eq!(rt;
        sink.taken(),
        b"F 2 30
0120abcd
0080ff7f0100feff10000a0b
D 9 18446744073709551615 ba7816bf8f01cfea414140de5dae2223b00361a396177a9cb410ff61f20015ad
D 1 2 e3b0c44298fc1c149afbf4c8996fb92427ae41e4649b934ca495991b7852b855
pixelssound"
            .as_slice()
    );
    Ok(())
}

#[test]
fn the_lines_of_a_small_frame_are_one_write(rt: HostRuntime) -> Result<(), Fail> {
    let mut sink = MemSink::new(rt.alloc(), 0, 99, 99, vec![in rt.alloc(); 2]?)?;
    let size = Geometry {
        width: 1,
        height: 2,
        pairs: 0,
    };
    let pixels = [1, 2, 3, 4, 5, 6, 7, 8];
    let sent = [
        write_hex(1, 1, size, &pixels, &[], &mut sink),
        write_hex(1, 2, size, &pixels, &[], &mut sink),
    ];
    assert_eq!(rt; sent, [Sent::All, Sent::Failed]);
    assert_eq!(rt; sink.taken(), b"F 1 1\n01020304\n05060708\n".as_slice());
    Ok(())
}
