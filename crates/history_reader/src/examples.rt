//! Worked texts: the checker computes their faulty lines and their events.
ghost use Rattle.std.specs.Prelude.{◌≡◌, ◌∷◌, [], codes, true, false, None, Some};
ghost use Rattle.play_types.specs.declared.event.Event.TheVariants.{Stop, Tick};
ghost use Rattle.history_model.specs.Worked.{one_pixel};
ghost use Rattle.history_model.specs.scripts.History.{script_events, server};
ghost use Rattle.history_reader.specs.HistoryText.{faulty_line, has_stop, text_events, text_lines};
ghost use Rattle.history_reader.specs.Worked.{short_journal};
ghost use Rattle.history_reader.specs.declared.reading.TheConstants.{MAX_HISTORY_BYTES};

/// A stop may be the last line, and is left out of the events. The line that follows it is faulty.
pub fn texts_with_a_stop()
    ensures last { faulty_line one_pixel (codes "T 2\nX\n") ≡ None }
    ensures made { script_events one_pixel (text_lines (codes "T 2\nX\n")) ≡ Tick ∷ Tick ∷ Stop server ∷ [] }
    ensures stop { has_stop one_pixel (codes "T 2\nX\n") ≡ true }
    ensures events { text_events one_pixel (codes "T 2\nX\n") ≡ Tick ∷ Tick ∷ [] }
    ensures followed { faulty_line one_pixel (codes "T 2\nX\nT 1\n") ≡ Some 3 }
    ensures twice { faulty_line one_pixel (codes "X\nX\n") ≡ Some 2 }
{}

/// So may a KILL of a connection.
pub fn texts_with_a_kill()
    ensures last { faulty_line one_pixel (codes "T 1\n1.1 KILL\n") ≡ None }
    ensures stop { has_stop one_pixel (codes "T 1\n1.1 KILL\n") ≡ true }
    ensures events { text_events one_pixel (codes "T 1\n1.1 KILL\n") ≡ Tick ∷ [] }
    ensures followed { faulty_line one_pixel (codes "T 1\n1.1 KILL\nT 1\n") ≡ Some 3 }
{}

/// The bytes after the last line feed are no line, whatever they are.
pub fn texts_that_were_cut()
    ensures cut { text_events one_pixel (codes "T 2\nT 1") ≡ Tick ∷ Tick ∷ [] }
    ensures garbage { faulty_line one_pixel (codes "T 2\n# cut") ≡ None }
    ensures after { faulty_line one_pixel (codes "T 2\nX\nT") ≡ None }
    ensures none { text_events one_pixel (codes "T 2") ≡ [] }
{}

/// Ticks that follow one another may be in several lines, as in a log that was written between them. Such a text has no stop.
pub fn texts_of_ticks()
    ensures right { faulty_line one_pixel (codes "T 2\nT 1\n") ≡ None }
    ensures events { text_events one_pixel (codes "T 2\nT 1\n") ≡ Tick ∷ Tick ∷ Tick ∷ [] }
    ensures stop { has_stop one_pixel (codes "T 2\nT 1\n") ≡ false }
{}

/// The lines of a batch without its COMMIT are not faulty, and make no event.
pub fn texts_with_an_open_batch()
    ensures right { faulty_line one_pixel (codes "T 2\n1.1 BEGIN\n1.1 PAUSE 1-0\n") ≡ None }
    ensures events { text_events one_pixel (codes "T 2\n1.1 BEGIN\n1.1 PAUSE 1-0\n") ≡ Tick ∷ Tick ∷ [] }
{}

/// A comment, an empty line and a line of no form are faulty. A carriage return before a line feed is part of the line's end.
pub fn faulty_texts()
    ensures comment { faulty_line one_pixel (codes "T 2\n# two\nT\n") ≡ Some 2 }
    ensures empty { faulty_line one_pixel (codes "\n") ≡ Some 1 }
    ensures number { faulty_line one_pixel (codes "T 2\nT 2\nT 0\n") ≡ Some 3 }
    ensures carriage_return { faulty_line one_pixel (codes "T 2\r\nX\r\n") ≡ None }
{}

/// A line that is refused is faulty: that of a clip which the table does not have, or that of a command for which the journal has no room.
pub fn refused_lines()
    ensures clip { faulty_line one_pixel (codes "T 1\n1.1 PLAY 1-0 BARS\n") ≡ Some 2 }
    ensures limit { faulty_line short_journal (codes "1.1 PAUSE 1-0\n1.1 STOP 1-0\n") ≡ Some 2 }
{}

/// The most bytes of a history, as a number.
pub fn limits()
    ensures { MAX_HISTORY_BYTES ≡ 4294967295 }
{}
