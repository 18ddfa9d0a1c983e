//! The lines on standard error, for a person. Failures to write them are ignored.

use super::run_times::{HourTime, Rate, time_left};
use clip_store::MAX_MEDIA_BYTES;
use host_system::{Grouped, ProgramFile};
use play_schedule::LineFault;
use run_script::{MAX_TOLD_CUES, RefusedCue};
use std::io::Eprint;
use std::rt::Files;
use std::time::Duration;

/// The name of the program, with which each line on standard error begins.
pub const PROGRAM: &str = "playrun";

/// Writes which words the program takes, with an example of each form, and from which sources it was built.
pub fn say_usage<R: Eprint + Files + AllocGlobal>(rt: &R) {
    let _ = rt.eprintln(USAGE);
    ProgramFile::find(rt).say(rt, PROGRAM);
}

/// Reports for which word of its text a line of a script is refused. `line` is counted from 1 and `word` from 0; in the
/// report both are counted from 1. If the text is not UTF-8, nothing is written.
pub fn say_refused_word<E: Eprint>(errors: &E, line: u64, text: &[u8], word: usize) {
    let number = word.saturating_add(1);
    if let Ok(text) = str::from_utf8(text) {
        let _ = errors.eprintln(format_args!(
            "{PROGRAM}: line {line} of the script is refused for word {number} of {text:?}"
        ));
    }
}

/// Reports what is wrong with the faulty line of a cue sheet, and its number, counted from 1.
pub fn say_faulty_cue<E: Eprint>(errors: &E, line: u32, fault: LineFault) {
    let why = why_faulty(fault);
    let _ = errors.eprintln(format_args!("{PROGRAM}: line {line} of the cue sheet: {why}"));
}

/// Reports that a cue sheet has no END.
pub fn say_no_end<E: Eprint>(errors: &E) {
    let _ = errors.eprintln(format_args!("{PROGRAM}: the cue sheet has no line END"));
}

/// Reports how far the writing of a film is, over the last such report: `ticks` ticks were made again, of `all` up to
/// the last recorded one, and `frames` frames were written. The line ends with the last of these ticks.
pub fn say_film<E: Eprint>(errors: &E, ticks: u64, all: u64, frames: u32) {
    let end = if ticks == all { "\n" } else { "" };
    let _ = errors.eprint(format_args!(
        "\r{PROGRAM}: {ticks} of {all} ticks made again, {frames} frames written{end}"
    ));
}

/// Reports how far a run with digests is, over the last such report: how many ticks were made, of `all` if that is
/// known, how many there were in a second of `took`, and how long the rest takes at that rate. The next report
/// overwrites this one.
pub fn say_run<E: Eprint>(errors: &E, ticks: u64, all: Option<u64>, took: Duration) {
    let rate = Rate::of(ticks, took);
    let _ = match all {
        Some(all) => {
            let left = time_left(ticks, all, took);
            errors.eprint(format_args!(
                "{PROGRAM}: {ticks} of {all} ticks, {rate} a second, {left} left  \r"
            ))
        }
        None => errors.eprint(format_args!("{PROGRAM}: {ticks} ticks, {rate} a second  \r")),
    };
}

/// Reports how many ticks a run with digests had, how long they took, and how many there were in a second.
pub fn say_run_end<E: Eprint>(errors: &E, ticks: u64, took: Duration) {
    let (rate, time) = (Rate::of(ticks, took), HourTime::of(took));
    let _ = errors.eprintln(format_args!(
        "{PROGRAM}: {ticks} ticks in {time}, {rate} a second            "
    ));
}

/// Reports that a cue of a sheet was refused: its line, counted from 1, its time, the reply and its text, and, if it
/// was refused for a word of the text, the number of the word, counted from 1.
pub fn say_refused_cue<E: Eprint>(errors: &E, cue: RefusedCue<'_>) {
    let (line, time, reply) = (cue.line, cue.time, cue.reply);
    let text = str::from_utf8(cue.text).unwrap_or("");
    let _ = match cue.word {
        Some(word) => {
            let number = word.saturating_add(1);
            errors.eprintln(format_args!(
                "{PROGRAM}: line {line} of the cue sheet, at {time}: {reply} for word {number} of {text:?}"
            ))
        }
        None => errors.eprintln(format_args!(
            "{PROGRAM}: line {line} of the cue sheet, at {time}: {reply} for {text:?}"
        )),
    };
}

/// Reports how many of the cues that were played were refused, if one was.
pub fn say_cues<E: Eprint>(errors: &E, refused: u64, played: u64) {
    if refused == 0 {
        return;
    }
    let rest = refused.saturating_sub(MAX_TOLD_CUES);
    let _ = if rest == 0 {
        errors.eprintln(format_args!("{PROGRAM}: {refused} of {played} cues were refused"))
    } else {
        errors.eprintln(format_args!(
            "{PROGRAM}: {refused} of {played} cues were refused, the last {rest} of them are not listed"
        ))
    };
}

/// Reports how many bytes the file of a film has, and whether it fits beside the clips of a folder, which have `held`
/// bytes.
pub fn say_recorded<E: Eprint>(errors: &E, bytes: u64, folder: &str, held: u64) {
    let (clip, most) = (Grouped(bytes), Grouped(MAX_MEDIA_BYTES));
    let left = MAX_MEDIA_BYTES.saturating_sub(held);
    let _ = if bytes > MAX_MEDIA_BYTES {
        errors.eprintln(format_args!(
            "{PROGRAM}: the clip has {clip} bytes; a server takes {most} bytes of clips in all, so it starts with none of this size"
        ))
    } else if bytes > left {
        let (held, left) = (Grouped(held), Grouped(left));
        errors.eprintln(format_args!(
            "{PROGRAM}: the clip has {clip} bytes; the clips of {folder} have {held} of {most}, so it does not fit: {left} bytes are left"
        ))
    } else {
        let held = Grouped(held);
        errors.eprintln(format_args!(
            "{PROGRAM}: the clip has {clip} bytes; the clips of {folder} have {held} of {most}, so it fits"
        ))
    };
}

/// Returns what is wrong with a line of a cue sheet, in words.
fn why_faulty(fault: LineFault) -> &'static str {
    match fault {
        LineFault::TooLong => "it has more than 8192 bytes",
        LineFault::Beginning =>
            "it begins with none of AT, AFTER and END, in capitals and before a space, nor with #",
        LineFault::Time => {
            "its time is neither a number of ticks nor HH:MM:SS:FF, with MM and SS below 60"
        }
        LineFault::Frame => "the frame of its time is not below the rate of the configuration",
        LineFault::LateTime => "its time is after 20736000 ticks",
        LineFault::Ticks => "after AFTER has to come a number of ticks, at most 20736000",
        LineFault::Copies => {
            "after EVERY have to come N TIMES K, with N at most 20736000 and K from 1 to 100000"
        }
        LineFault::Connection => {
            "where a connection and its text have to come, as in 1.1 PLAY 1-0 RED, there are none"
        }
        LineFault::CuePlace => {
            "it comes after END, or a copy of it after 20736000 ticks, or with it there are more than 1000000 copies"
        }
        LineFault::EndPlace => "it is a second END, or it comes before a copy of a line",
    }
}

const USAGE: &str = "playrun: unknown command line. The words are one of
  run W H
  run --config FILE [--workers N] [--digest]
  gen SEED STEPS
  convert
  plan --config FILE [--workers N] [--digest]
  osc --config FILE
  record --config FILE NAME [--workers N]
with W and H from 1 to 4096, N from 1 to 64, SEED below 2 to the 64th, STEPS from 1 to 100000, and NAME of 1 to 32
letters, digits, _ and -, as in
  playrun run 1280 720 < show.script
  playrun run --config studio.toml --digest < show.script
  playrun gen 7 2000
  playrun convert < logo.rclp > straight.rclp
  playrun plan --config studio.toml --digest < evening.cues
  playrun osc --config studio.toml < show.script
  playrun record --config studio.toml EVENING < evening.script > evening.rclp";
