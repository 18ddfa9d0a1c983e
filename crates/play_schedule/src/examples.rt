//! Worked examples of the definitions in `specs/`, which the checker computes. Each is the contract of a function that
//! does nothing. Timecodes have 25 frames a second.
ghost use Rattle.std.specs.Prelude.{◌≡◌, ◌∷◌, [], Some, None, Ok, Err};
ghost use Rattle.play_schedule.specs.declared.sheet.SheetFault.TheVariants.{Line, NoEnd};
ghost use Rattle.play_schedule.specs.declared.line_fault.LineFault.TheVariants as fault;
ghost use Rattle.play_schedule.specs.Worked.{fault_in, moment, says, script, second_says, sheet, tick};
ghost use Rattle.play_schedule.specs.declared.limits.TheConstants.{MAX_COPIES, MAX_LINE_COPIES, MAX_MOMENT, MAX_SHEET_BYTES};

/// A time is a whole number or a timecode, whose frame has two or three digits and is below the rate.
pub fn times()
    ensures whole { moment "0041" ≡ Some 41 }
    ensures latest { moment "20736000" ≡ Some 20736000 }
    ensures too_late { moment "20736001" ≡ None }
    ensures timecode { moment "00:01:02:03" ≡ Some 1553 }
    ensures three_digits { moment "00:00:00:003" ≡ Some 3 }
    ensures hours { moment "99:00:00:00" ≡ Some 8910000 }
    ensures seconds { moment "00:00:60:00" ≡ None }
    ensures frames { moment "00:00:00:25" ≡ None }
    ensures one_digit { moment "0:00:00:00" ≡ None }
    ensures no_frames { moment "00:00:00" ≡ None }
{}

/// Lines that are due at one moment come in the order of the sheet, however their times are written, and each moment before the
/// end is followed by one tick.
pub fn scripts_of_sheets()
    ensures order { script "AT 00:00:00:02 1.1 PLAY 1-0 BLUE\nAT 0 1.1 PLAY 1-0 RED\nAFTER 1 2.1 MIXER 1-0 OPACITY 0.5\nEND 3\n"
        ≡ says "PLAY 1-0 RED" ∷ tick ∷ second_says "MIXER 1-0 OPACITY 0.5" ∷ tick ∷ says "PLAY 1-0 BLUE" ∷ tick ∷ [] }
    ensures repeated { script "AT 1 EVERY 2 TIMES 2 1.1 VERSION\nEND 3" ≡ tick ∷ says "VERSION" ∷ tick ∷ tick ∷ says "VERSION" ∷ [] }
    ensures together { script "# a\r\n\r\nAT 1 EVERY 0 TIMES 2 1.1 A\r\nAT 1 1.1 B\r\nEND 1\r\n" ≡ tick ∷ says "A" ∷ says "A" ∷ says "B" ∷ [] }
    ensures after_every { script "AFTER 1 1.1 A\nAT 0 EVERY 1 TIMES 3 1.1 B\nAFTER 1 1.1 C\nEND 2"
        ≡ says "B" ∷ tick ∷ says "A" ∷ says "B" ∷ says "C" ∷ tick ∷ says "B" ∷ [] }
    ensures empty_text { script "AT 0 1.1 \nEND 0" ≡ says "" ∷ [] }
{}

/// A fault names the first faulty line, and comments are counted too.
pub fn faulty_sheets()
    ensures frame { sheet "AT 00:00:00:25 1.1 INFO\nEND 1" ≡ Err (Line 1) }
    ensures before_a_copy { sheet "AT 1 EVERY 2 TIMES 2 1.1 VERSION\nEND 2" ≡ Err (Line 2) }
    ensures late_copy { sheet "AT 20736000 EVERY 1 TIMES 2 1.1 VERSION\nEND 20736000" ≡ Err (Line 1) }
    ensures after_end { sheet "END 1\n# a\n\nEND 1" ≡ Err (Line 4) }
    ensures no_end { sheet "AT 1 1.1 INFO\n" ≡ Err NoEnd }
    ensures no_space { sheet "AT 0 1.1\nEND 0" ≡ Err (Line 1) }
    ensures two_spaces { sheet "AT  0 1.1 INFO\nEND 0" ≡ Err (Line 1) }
    ensures after_time { sheet "AFTER 00:00:00:01 1.1 INFO\nEND 1" ≡ Err (Line 1) }
    ensures no_copy { sheet "AT 0 EVERY 1 TIMES 0 1.1 INFO\nEND 1" ≡ Err (Line 1) }
{}

/// What is wrong with a faulty line.
pub fn faults_of_lines()
    ensures beginning { fault_in "PLAY 1-0 RED" ≡ Some fault.Beginning }
    ensures lower_case { fault_in "at 1 1.1 INFO" ≡ Some fault.Beginning }
    ensures no_time { fault_in "AT noon 1.1 INFO" ≡ Some fault.Time }
    ensures seconds { fault_in "AT 00:00:60:00 1.1 INFO" ≡ Some fault.Time }
    ensures no_frames { fault_in "END 00:01:00" ≡ Some fault.Time }
    ensures frame { fault_in "AT 00:00:00:25 1.1 INFO" ≡ Some fault.Frame }
    ensures frame_of_end { fault_in "END 00:00:00:99" ≡ Some fault.Frame }
    ensures late { fault_in "AT 20736001 1.1 INFO" ≡ Some fault.LateTime }
    ensures later { fault_in "END 5000000000" ≡ Some fault.LateTime }
    ensures ticks { fault_in "AFTER 00:00:00:01 1.1 INFO" ≡ Some fault.Ticks }
    ensures copies { fault_in "AT 0 EVERY 1 TIMES 0 1.1 INFO" ≡ Some fault.Copies }
    ensures times { fault_in "AT 0 EVERY 1 1.1 INFO" ≡ Some fault.Copies }
    ensures no_connection { fault_in "AT 0 PLAY 1-0 RED" ≡ Some fault.Connection }
    ensures nothing_after { fault_in "AT 0" ≡ Some fault.Connection }
    ensures worker_0 { fault_in "AFTER 1 0.1 INFO" ≡ Some fault.Connection }
    ensures no_connection_of_copies { fault_in "AT 0 EVERY 1 TIMES 2 INFO" ≡ Some fault.Connection }
    ensures cue { fault_in "AT 0 1.1 INFO" ≡ Some fault.CuePlace }
    ensures end { fault_in "END 3" ≡ Some fault.EndPlace }
    ensures comment { fault_in "# AT" ≡ None }
{}

/// The limits of a sheet, as numbers: its latest moment in ticks, the copies of all lines and of one, and its bytes.
pub fn limits()
    ensures moment { MAX_MOMENT ≡ 20736000 }
    ensures copies { MAX_COPIES ≡ 1000000 }
    ensures line_copies { MAX_LINE_COPIES ≡ 100000 }
    ensures bytes { MAX_SHEET_BYTES ≡ 268435456 }
{}
