//! A group of deferred settings over three ticks, and its timelines.
#![tactic(auto, unfolding(crate::specs::stage::Timeline::timeline, crate::specs::pictures::Frame::frame_pixel))]

ghost use Rattle.std.specs.Prelude.{◌≡◌, ◌∷◌, ◌++◌, [], pos, true, codes};
ghost use Rattle.play_types.specs.declared.command.Cmd.TheVariants.{CommitMixer, PlayTake, Set};
ghost use Rattle.play_types.specs.declared.event.Event.TheVariants.{Tick};
ghost use Rattle.play_types.specs.declared.setting.Prop.TheVariants.{Opacity};
ghost use Rattle.history_model.specs.stage.Group.{with_group, without_waiting};
ghost use Rattle.history_model.specs.stage.Timeline.{Did, Ticked, timeline};
ghost use Rattle.history_model.specs.Worked.{ask, at, blue, number, one, plays, red, row_text, setting};

/// Two opacities of two ticks wait at the first tick. Their commit comes after it, and both are halfway at the second tick and
/// reached at the third.
pub fn group_over_three_ticks()
    ensures { let dark = setting (at 1 1) Opacity (number (pos 0)) 2 in
        let half = setting (at 1 2) Opacity (number (pos 500000)) 2 in
        let history =
        plays (at 1 1) blue ∷ plays (at 1 2) red ∷ ask (Set (record dark { deferred = true }))
        ∷ ask (Set (record half { deferred = true })) ∷ [] in
        (row_text (one 1) 1 history ≡ codes "0000ffff")
        × (row_text (one 1) 1 (history ++ Tick ∷ ask (CommitMixer 1) ∷ []) ≡ codes "2000bfdf")
        × (row_text (one 1) 1 (history ++ Tick ∷ ask (CommitMixer 1) ∷ Tick ∷ []) ≡ codes "00008080") }
{}

/// Without the settings that wait the timeline before the commit has the plays and the tick. The commit puts the group after
/// the tick, in its order.
pub fn timelines_of_the_group()
    ensures { let dark = setting (at 1 1) Opacity (number (pos 0)) 2 in
        let half = setting (at 1 2) Opacity (number (pos 500000)) 2 in
        let history =
        plays (at 1 1) blue ∷ plays (at 1 2) red ∷ ask (Set (record dark { deferred = true }))
        ∷ ask (Set (record half { deferred = true })) ∷ Tick ∷ [] in
        let played = Did (PlayTake (at 1 2) red) ∷ Did (PlayTake (at 1 1) blue) ∷ [] in
        (timeline history
        ≡ Ticked ∷ Did (Set (record half { deferred = true })) ∷ Did (Set (record dark { deferred = true })) ∷ played)
        × (without_waiting (λ channel. true) (timeline history) ≡ Ticked ∷ played)
        × (with_group 1 (timeline history) ≡ Did (Set half) ∷ Did (Set dark) ∷ Ticked ∷ played) }
{}
