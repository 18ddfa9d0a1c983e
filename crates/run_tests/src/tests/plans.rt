//! Cue sheets that are played, and the reports on those that are refused. The outputs were worked out by hand, and the digests are
//! those of `sha256sum`.

use super::shared::{folder_with, words_of};
use super::tellers::{MemTeller, Told};
use play_outside::{MemSink, MemSource};
use play_schedule::LineFault;
use run_script::{Devices, run_and_tell};
use std::alloc::Global;
use std::process::Abort;
use std::test::Fail;
use std::thread::Threads;

/// One channel of one pixel, at 25 frames a second.
const CONFIG: &str = "listen='l'\nmedia='m'\nrate=25\nchannel=[{width=1,height=1,output='o'}]";

/// A cue sheet that is played, with the status and the output that it must have.
#[derive(Clone, Copy)]
struct Plan {
    /// The words of the command line, with a space between them.
    words: &'static str,
    sheet: &'static str,
    status: u8,
    output: &'static str,
}

/// The cue sheets that are played.
const PLANS: [Plan; 8] = [
    // The lines are played at their times, whatever their order in the sheet.
    Plan {
        words: "plan --config one",
        sheet: "AT 00:00:00:02 1.1 PLAY 1-0 BLUE\nAT 0 1.1 PLAY 1-0 RED\nAFTER 1 2.1 MIXER 1-0 OPACITY 0.5\nEND 3\n",
        status: 0,
        output: "1.1 202 PLAY OK\nF 1 1\n0000ffff\n2.1 202 MIXER OK\nF 1 2\n00008080\n1.1 202 PLAY OK\nF 1 3\n80000080\n",
    },
    // A copy may be due at the end.
    Plan {
        words: "plan --config one",
        sheet: "AT 1 EVERY 2 TIMES 2 1.1 VERSION\nEND 3",
        status: 0,
        output: "F 1 1\n00000000\n1.1 201 VERSION OK\n1.1 2.0 PLAYD\nF 1 2\n00000000\nF 1 3\n00000000\n1.1 201 VERSION OK\n1.1 2.0 PLAYD\n",
    },
    Plan {
        words: "plan --config one",
        sheet: "END 0",
        status: 0,
        output: "",
    },
    // Without a cue line before it, AFTER counts from 0, and copies without a distance come together.
    Plan {
        words: "plan --config one",
        sheet: "AFTER 1 1.1 MIXER 1-0 OPACITY\r\nAT 1 EVERY 0 TIMES 2 2.1 VERSION\r\nEND 1\r\n",
        status: 0,
        output: "F 1 1\n00000000\n1.1 201 MIXER OK\n1.1 1\n2.1 201 VERSION OK\n2.1 2.0 PLAYD\n2.1 201 VERSION OK\n2.1 2.0 PLAYD\n",
    },
    // After KILL nothing is played.
    Plan {
        words: "plan --config one",
        sheet: "AT 2 1.1 INFO\r\nAT 1 1.1 KILL\r\n# a\r\nEND 5\r\n",
        status: 0,
        output: "F 1 1\n00000000\n1.1 202 KILL OK\n",
    },
    // A batch is one event at the moment of its COMMIT, and the texts of a connection are those of one session.
    Plan {
        words: "plan --config one --workers 3 --digest",
        sheet: "AT 0 1.1 BEGIN\nAT 0 1.1 PLAY 1-0 RED\nAT 1 1.1 COMMIT\nAT 1 2.1 \nEND 2\n",
        status: 0,
        output: "1.1 202 BEGIN OK\n1.1 202 PLAY OK\nD 1 1 df3f619804a92fdb4057192dc43dd748ea778adc52bc498ce80524c014b81119\n1.1 202 COMMIT OK\nD 1 2 b7d1b3a1104cc86b1cea310793cf777002db0517281d135a02de079b0ea87c23\n",
    },
    Plan {
        words: "plan 1 1",
        sheet: "END 0",
        status: 1,
        output: "E usage\n",
    },
    Plan {
        words: "plan --config none",
        sheet: "END 0",
        status: 4,
        output: "E device\n",
    },
];

/// Cue sheets that are refused: the sheet, the output and the report. Nothing of them is played.
const REFUSED: [(&str, &str, Told); 17] = [
    (
        "AT 1 EVERY 2 TIMES 2 1.1 VERSION\nEND 2",
        "E plan 2\n",
        Told::FaultyCue(2, LineFault::EndPlace),
    ),
    (
        "END 1\n\nEND 1",
        "E plan 3\n",
        Told::FaultyCue(3, LineFault::EndPlace),
    ),
    (
        "AT 1 EVERY 2 TIMES 2 1.1 VERSION\n",
        "E plan end\n",
        Told::NoEnd,
    ),
    ("", "E plan end\n", Told::NoEnd),
    (
        "AT 00:00:00:25 1.1 INFO\nEND 1\n",
        "E plan 1\n",
        Told::FaultyCue(1, LineFault::Frame),
    ),
    (
        "# a\r\nEND 00:00:00:25",
        "E plan 2\n",
        Told::FaultyCue(2, LineFault::Frame),
    ),
    (
        "AT 0 1.1 PLAY 1-0 RED\nEND 1\nAT 0 1.1 INFO\n",
        "E plan 3\n",
        Told::FaultyCue(3, LineFault::CuePlace),
    ),
    (
        "AT 20736000 EVERY 1 TIMES 2 1.1 INFO\nEND 1",
        "E plan 1\n",
        Told::FaultyCue(1, LineFault::CuePlace),
    ),
    (
        "AT 00:00:60:00 1.1 INFO\nEND 1",
        "E plan 1\n",
        Told::FaultyCue(1, LineFault::Time),
    ),
    (
        "AT noon 1.1 INFO\nEND 1",
        "E plan 1\n",
        Told::FaultyCue(1, LineFault::Time),
    ),
    (
        "AT 20736001 1.1 INFO\nEND 1",
        "E plan 1\n",
        Told::FaultyCue(1, LineFault::LateTime),
    ),
    (
        "END 5000000000",
        "E plan 1\n",
        Told::FaultyCue(1, LineFault::LateTime),
    ),
    (
        "\n\nAFTER 00:00:00:01 1.1 INFO\nEND 1",
        "E plan 3\n",
        Told::FaultyCue(3, LineFault::Ticks),
    ),
    (
        "AT 0 EVERY 1 TIMES 0 1.1 INFO\nEND 1",
        "E plan 1\n",
        Told::FaultyCue(1, LineFault::Copies),
    ),
    (
        "AT 0 INFO\nEND 1",
        "E plan 1\n",
        Told::FaultyCue(1, LineFault::Connection),
    ),
    (
        "at 0 1.1 INFO\nEND 1",
        "E plan 1\n",
        Told::FaultyCue(1, LineFault::Beginning),
    ),
    // A faulty line is reported before a missing END.
    (
        "AT 0 1.1 INFO\nT 3",
        "E plan 2\n",
        Told::FaultyCue(2, LineFault::Beginning),
    ),
];

/// Runs `playrun` with the words of a line over the bytes of a sheet, and returns its exit status.
fn status_of<R: Threads + Sync>(
    rt: &R,
    alloc: Global,
    line: &str,
    sheet: &[u8],
    out: &mut MemSink,
    teller: &mut MemTeller,
) -> Result<u8, Fail> {
    let words = words_of(alloc, line)?;
    let mut media = folder_with(alloc, "one", CONFIG)?;
    let mut input = MemSource::new(sheet.to_vec(alloc)?, 4096, Vec::new(alloc));
    let devices = Devices {
        input: &mut input,
        media: &mut media,
        out,
    };
    Ok(run_and_tell(rt, alloc, words.as_slice(), devices, teller))
}

/// Fails unless `playrun` with the words of a line ends with this status, this output and these reports over a sheet.
fn gives<R: Abort + Threads + Sync>(
    rt: &R,
    alloc: Global,
    line: &str,
    sheet: &str,
    status: u8,
    output: &str,
    told: &[Told],
) -> Result<(), Fail> {
    let mut out = MemSink::new(alloc, 0, 1000, 4096, Vec::new(alloc))?;
    let mut teller = MemTeller {
        listens: true,
        told: Vec::new(alloc),
        texts: Vec::new(alloc),
    };
    let found = status_of(rt, alloc, line, sheet.as_bytes(), &mut out, &mut teller)?;
    assert_eq!(rt; found, status, "{sheet}");
    assert_eq!(rt; out.taken(), output.as_bytes(), "{sheet}");
    assert_eq!(rt; teller.told.as_slice(), told, "{sheet}");
    Ok(())
}

#[test]
fn lines_are_played_at_their_moments(rt: HostRuntime) -> Result<(), Fail> {
    let alloc = rt.alloc();
    for plan in PLANS {
        gives(
            &rt,
            alloc,
            plan.words,
            plan.sheet,
            plan.status,
            plan.output,
            &[],
        )?;
    }
    Ok(())
}

#[test]
fn faulty_sheets_are_refused_and_told(rt: HostRuntime) -> Result<(), Fail> {
    let alloc = rt.alloc();
    for (sheet, output, told) in REFUSED {
        gives(&rt, alloc, "plan --config one", sheet, 2, output, &[told])?;
    }
    Ok(())
}
