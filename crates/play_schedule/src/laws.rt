//! Laws of the definitions in `specs/`. Each is the contract of a function that does nothing.
ghost use Rattle.std.specs.Prelude.{◌≡◌, ℕ, List, ◌≤◌, ◌∷◌, ◌++◌, Ok, map};
ghost use Rattle.history_model.specs.scripts.Line.{ScriptLine};
ghost use Rattle.history_model.specs.scripts.Memory.{AreLines};
ghost use Rattle.play_schedule.specs.declared.limits.TheConstants.{MAX_MOMENT};
ghost use Rattle.play_schedule.specs.SheetView.{SheetView};
ghost use Rattle.play_schedule.specs.Sheet.{sheet_of};
ghost use Rattle.play_schedule.specs.Unfolding.{script_of, ticks_in, timed};

/// Each line of the script of a sheet comes after as many ticks as its moment.
pub fn moments_of_lines()
    ensures lines { (sheet : SheetView) → map (λ line. line.1) (timed sheet) ≡ script_of sheet }
    ensures moments { (sheet : SheetView) (before after : List (ℕ × ScriptLine)) (moment : ℕ) (line : ScriptLine)
        → timed sheet ≡ before ++ (moment, line) ∷ after → ticks_in (map (λ earlier. earlier.1) before) ≡ moment }
{}

/// No text of the script of a sheet has a line end.
pub fn lines_of_sheets_are_lines()
    ensures { (rate : ℕ) (bytes : List ℕ) (sheet : SheetView) → sheet_of rate bytes ≡ Ok sheet → AreLines (script_of sheet) }
{}

/// The script of a sheet has as many ticks as its END names, and no END of a valid sheet is after the latest moment.
pub fn ticks_of_sheets()
    ensures script { (sheet : SheetView) → ticks_in (script_of sheet) ≡ sheet.ticks }
    ensures latest { (rate : ℕ) (bytes : List ℕ) (sheet : SheetView) → sheet_of rate bytes ≡ Ok sheet → sheet.ticks ≤ MAX_MOMENT }
{}
