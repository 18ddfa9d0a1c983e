//! Cue sheets, with ample memory.

use play_schedule::{Sheet, SheetFault, SheetStep, read_sheet};
use play_types::Tag;
use std::alloc::{AllocError, Global};
use std::test::Fail;

/// Returns the steps of a sheet as lines, each ended by LF.
fn written_steps(alloc: Global, sheet: &Sheet) -> Result<Vec<u8>, AllocError> {
    let mut written = Vec::new(alloc);
    let mut steps = sheet.steps(alloc)?;
    for _ in 0..1_000 {
        match steps.next(alloc)? {
            None => break,
            Some(step) => add_step(alloc, &mut written, step)?,
        }
    }
    Ok(written)
}

/// Adds a step as a line, ended by LF.
fn add_step(alloc: Global, written: &mut Vec<u8>, step: SheetStep) -> Result<(), AllocError> {
    match step {
        SheetStep::Ticks(count) => {
            let line = format!(in alloc; "T {count}\n")?;
            written.extend_from_slice(line.as_bytes())?;
            Ok(())
        }
        SheetStep::Line(tag, text) => add_line(alloc, written, tag, text.as_slice()),
    }
}

/// Adds a line of a connection, ended by LF.
fn add_line(alloc: Global, written: &mut Vec<u8>, tag: Tag, text: &[u8]) -> Result<(), AllocError> {
    let head = format!(in alloc; "{}.{} ", tag.worker, tag.session)?;
    written.extend_from_slice(head.as_bytes())?;
    written.extend_from_slice(text)?;
    written.push(b'\n')?;
    Ok(())
}

#[test]
fn steps_come_in_their_order(rt: HostRuntime) -> Result<(), Fail> {
    let alloc = rt.alloc();
    for (rate, text, steps) in [
        (
            25,
            "AT 00:00:00:02 1.1 PLAY 1-0 BLUE\nAT 0 1.1 PLAY 1-0 RED\nAFTER 1 2.1 MIXER 1-0 OPACITY 0.5\nEND 3\n",
            "1.1 PLAY 1-0 RED\nT 1\n2.1 MIXER 1-0 OPACITY 0.5\nT 1\n1.1 PLAY 1-0 BLUE\nT 1\n",
        ),
        (
            25,
            "AT 1 EVERY 2 TIMES 2 1.1 VERSION\nEND 3",
            "T 1\n1.1 VERSION\nT 2\n1.1 VERSION\n",
        ),
        (
            25,
            "AT 1 EVERY 0 TIMES 3 1.1 A\r\nAT 1 2.1 B\r\nEND 1\r\n",
            "T 1\n1.1 A\n1.1 A\n1.1 A\n2.1 B\n",
        ),
        (
            25,
            "AFTER 250000 1.1 A\n# b\n\nEND 250001",
            "T 100000\nT 100000\nT 50000\n1.1 A\nT 1\n",
        ),
        (25, "END 0", ""),
        (
            1,
            "AT 99:00:00:00 1.1 A\nAT 00:01:01:00 1.1 B\nEND 356401",
            "T 61\n1.1 B\nT 100000\nT 100000\nT 100000\nT 56339\n1.1 A\nT 1\n",
        ),
    ] {
        let sheet = read_sheet(alloc, text.as_bytes(), rate)
            .ok()
            .ok_or("no sheet")?;
        assert_eq!(rt;
            written_steps(alloc, &sheet)?.as_slice(),
            steps.as_bytes(),
            "{text}"
        );
    }
    Ok(())
}

#[test]
fn faults_name_the_first_faulty_line(rt: HostRuntime) -> Result<(), Fail> {
    let alloc = rt.alloc();
    for (text, fault) in [
        ("AT 00:00:00:25 1.1 INFO\nEND 1", SheetFault::Line { at: 1 }),
        (
            "AT 1 EVERY 2 TIMES 2 1.1 VERSION\nEND 2",
            SheetFault::Line { at: 2 },
        ),
        (
            "AT 0 1.1 A\n\n# b\nEND 0\n\nAT 0 1.1 C",
            SheetFault::Line { at: 6 },
        ),
        ("AT 00:00:60:00 1.1 A\nEND 1", SheetFault::Line { at: 1 }),
        ("AT 00:60:00:00 1.1 A\nEND 1", SheetFault::Line { at: 1 }),
        ("END 99:00:00:00\nEND 1", SheetFault::Line { at: 2 }),
        ("AT 1 1.1 INFO\n", SheetFault::NoEnd),
        ("", SheetFault::NoEnd),
    ] {
        assert_eq!(rt;
            read_sheet(alloc, text.as_bytes(), 25).err(),
            Some(fault),
            "{text}"
        );
    }
    let mut comment = vec![in alloc; b'#'; 8_192]?;
    assert_eq!(rt;
        read_sheet(alloc, comment.as_slice(), 25).err(),
        Some(SheetFault::NoEnd)
    );
    comment.push(b'#')?;
    assert_eq!(rt;
        read_sheet(alloc, comment.as_slice(), 25).err(),
        Some(SheetFault::Line { at: 1 })
    );
    Ok(())
}
