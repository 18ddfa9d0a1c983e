//! What a place holds: commands, automatic starts and ticks.
#![tactic(auto, unfolding(crate::specs::stage::Acts::acts))]

ghost use Rattle.std.specs.Prelude.{◌≡◌, ◌∷◌, ◌++◌, [], Some, None, true, false};
ghost use Rattle.play_types.specs.declared.command.Cmd.TheVariants.{ClearChannel, Load, LoadBg, Pause, Play, Resume, StopLayer};
ghost use Rattle.play_types.specs.declared.event.Event.TheVariants.{Tick};
ghost use Rattle.play_types.specs.declared.transition.Kind.TheVariants.{Mix};
ghost use Rattle.history_model.specs.stage.Life.{after, delay, effect, empty_place, ready, start};
ghost use Rattle.history_model.specs.Worked.{ask, at, automatic, blue, by, clip, looped, old_of, over_old, paused, place_after, plays, red, rightward, running, ticking, with_background};

/// After the start of a background the old content is gone with a cut. With another transition it is outgoing, without its own
/// outgoing content.
pub fn starting()
    ensures cut { start (with_background (running red 7) blue) ≡ running blue 0 }
    ensures mix { let take = by blue (rightward Mix 4) in
        start (with_background (paused red 7) take) ≡ over_old take 0 (old_of red 7 true) }
    ensures again { let first = by blue (rightward Mix 4) in
        let second = by red (rightward Mix 2) in
        start (with_background (over_old first 3 (old_of red 7 true)) second) ≡ over_old second 0 (old_of first 3 false) }
    ensures none { start (running red 7) ≡ running red 7 }
{}

/// The ticks until an automatic start: none without AUTO, over a colour, a loop or a paused clip; at once over nothing;
/// over a running clip the frames that are left, less the duration of the transition.
pub fn delays()
    ensures manual { delay (with_background (running (clip 1 3) 0) blue) ≡ None }
    ensures colour { delay (with_background (running red 0) (automatic blue)) ≡ None }
    ensures looped { delay (with_background (running (looped (clip 1 3)) 0) (automatic blue)) ≡ None }
    ensures paused { delay (with_background (paused (clip 1 3) 0) (automatic blue)) ≡ None }
    ensures nothing { delay (with_background empty_place (automatic blue)) ≡ Some 0 }
    ensures cut { delay (with_background (running (clip 1 3) 1) (automatic blue)) ≡ Some 2 }
    ensures mix { delay (with_background (running (clip 1 30) 1) (automatic (by blue (rightward Mix 9)))) ≡ Some 20 }
    ensures late { delay (with_background (running (clip 1 30) 25) (automatic (by blue (rightward Mix 9)))) ≡ Some 0 }
{}

/// After some ticks a running foreground was shown for as many more and a paused one was not. Past an automatic start the new
/// foreground was shown for the ticks that are left.
pub fn ticks_pass()
    ensures runs { after (running red 7) 5 ≡ running red 12 }
    ensures stands { after (paused red 7) 5 ≡ paused red 7 }
    ensures before { after (with_background (running (clip 1 3) 0) (automatic blue)) 3 ≡ with_background (running (clip 1 3) 3) (automatic blue) }
    ensures past { after (with_background (running (clip 1 3) 0) (automatic blue)) 5 ≡ running (automatic blue) 2 }
    ensures mix { let take = automatic (by blue (rightward Mix 9)) in
        after (with_background (running (clip 1 30) 1) take) 25 ≡ over_old take 5 (old_of (clip 1 30) 21 false) }
{}

/// The next tick shows the background if its start is due, and otherwise the place unchanged.
pub fn due_starts()
    ensures due { ready (with_background (running (clip 1 3) 3) (automatic blue)) ≡ running (automatic blue) 0 }
    ensures later { ready (with_background (running (clip 1 3) 2) (automatic blue)) ≡ with_background (running (clip 1 3) 2) (automatic blue) }
{}

/// Commands on a place.
pub fn commands_on_a_place()
    ensures load { effect (Load (at 1 1) (automatic (by blue (rightward Mix 9)))) (with_background (running red 4) red) ≡ paused blue 0 }
    ensures background { effect (LoadBg (at 1 1) blue) (running red 4) ≡ with_background (running red 4) blue }
    ensures start { effect (Play (at 1 1)) (with_background (running red 4) blue) ≡ running blue 0 }
    ensures unpause { effect (Play (at 1 1)) (paused red 4) ≡ running red 4 }
    ensures neither { effect (Play (at 1 1)) empty_place ≡ empty_place }
    ensures pause { effect (Pause (at 1 1)) (with_background (running red 4) blue) ≡ with_background (paused red 4) blue }
    ensures resume { effect (Resume (at 1 1)) (paused red 4) ≡ running red 4 }
    ensures stop { effect (StopLayer (at 1 1)) (with_background (running red 4) blue) ≡ with_background empty_place blue }
    ensures clear { effect (ClearChannel 1) (with_background (running red 4) blue) ≡ empty_place }
{}

/// A place after a history: ticks count from the start of the content, and do not count while it is paused.
pub fn place_after_a_history()
    ensures empty { place_after (ticking 5) (at 1 1) ≡ empty_place }
    ensures played { place_after (Tick ∷ plays (at 1 1) red ∷ ticking 4) (at 1 1) ≡ running red 4 }
    ensures paused { place_after (plays (at 1 1) red ∷ ticking 4 ++ ask (Pause (at 1 1)) ∷ ticking 3) (at 1 1) ≡ paused red 4 }
    ensures automatic { place_after (plays (at 1 1) (clip 1 3) ∷ Tick ∷ ask (LoadBg (at 1 1) (automatic blue)) ∷ ticking 4) (at 1 1)
        ≡ running (automatic blue) 2 }
{}
