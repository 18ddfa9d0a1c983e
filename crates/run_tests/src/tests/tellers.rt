//! A teller in memory, and the reports that it gets on refused lines.

use super::shared::words_of;
use play_outside::{MemMedia, MemSink, MemSource};
use play_schedule::LineFault;
use run_script::{Devices, Teller, run_and_tell};
use std::test::Fail;

/// A report on a run.
#[derive(Clone, Copy, Debug, PartialEq, Eq)]
pub enum Told {
    RefusedWord(u64, usize),
    FaultyCue(u32, LineFault),
    NoEnd,
}

/// A teller that keeps its reports, and the texts of lines that were refused, each ended by LF.
#[derive(Drop)]
pub struct MemTeller {
    pub listens: bool,
    pub told: Vec<Told>,
    pub texts: Vec<u8>,
}

impl Teller for MemTeller {
    fn listens(&self) -> bool {
        self.listens
    }

    fn tell_refused_word(&mut self, line: u64, text: &[u8], word: usize) {
        let _ = self.told.push(Told::RefusedWord(line, word));
        let _ = self.texts.extend_from_slice(text);
        let _ = self.texts.push(b'\n');
    }

    fn tell_faulty_cue(&mut self, line: u32, fault: LineFault) {
        let _ = self.told.push(Told::FaultyCue(line, fault));
    }

    fn tell_no_end(&mut self) {
        let _ = self.told.push(Told::NoEnd);
    }
}

/// A script with lines that are refused, for a word and for something else. The last line has no line end, and is in a batch.
const SCRIPT: &[u8] = b"1.1 PAUSE 1-x
# a comment
1.1 STOP 1 2\r
2.1 REQ d PAUSE 1-x
T
1.1 FROB 1
1.1 BEGIN
1.1 INFO
1.1 PAUSE 1-x";

/// The output of this script.
const OUTPUT: &str = "1.1 403 PAUSE ERROR
1.1 403 STOP ERROR
2.1 RES d 403 PAUSE ERROR
F 1 1
00000000
1.1 400 ERROR
1.1 FROB 1
1.1 202 BEGIN OK
1.1 403 INFO ERROR
1.1 403 PAUSE ERROR
";

/// The words for which its lines are refused.
const WORDS: [Told; 4] = [
    Told::RefusedWord(1, 1),
    Told::RefusedWord(3, 2),
    Told::RefusedWord(4, 3),
    Told::RefusedWord(9, 1),
];

#[test]
fn a_person_is_told_the_word_for_which_a_line_is_refused(rt: HostRuntime) -> Result<(), Fail> {
    let alloc = rt.alloc();
    let words = words_of(alloc, "run 1 1")?;
    for listens in [true, false] {
        let mut input = MemSource::new(SCRIPT.to_vec(alloc)?, 5, Vec::new(alloc));
        let mut media = MemMedia::new(Vec::new(alloc), Vec::new(alloc), Vec::new(alloc));
        let mut out = MemSink::new(alloc, 0, 1000, 4096, Vec::new(alloc))?;
        let mut teller = MemTeller {
            listens,
            told: Vec::new(alloc),
            texts: Vec::new(alloc),
        };
        let devices = Devices {
            input: &mut input,
            media: &mut media,
            out: &mut out,
        };
        let status = run_and_tell(&rt, alloc, words.as_slice(), devices, &mut teller);
        assert_eq!(&rt; status, 0);
        assert_eq!(&rt; out.taken(), OUTPUT.as_bytes());
        let (told, texts) = if listens {
            (
                WORDS.as_slice(),
                "PAUSE 1-x\nSTOP 1 2\nREQ d PAUSE 1-x\nPAUSE 1-x\n",
            )
        } else {
            ([].as_slice(), "")
        };
        assert_eq!(&rt; teller.told.as_slice(), told);
        assert_eq!(&rt; teller.texts.as_slice(), texts.as_bytes());
    }
    Ok(())
}
