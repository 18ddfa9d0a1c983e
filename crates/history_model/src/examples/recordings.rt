//! Recordings of a channel, and their films.
#![tactic(auto, unfolding(crate::specs::stage::Acts::acts, crate::specs::stage::Acts::is_refused, crate::specs::pictures::Frame::frame_pixel, crate::specs::scripts::Output::raw_frame, crate::specs::recordings::Film::accepted_commands, crate::specs::recordings::Film::film_span, crate::specs::recordings::Film::filmed, crate::specs::recordings::Film::film))]

ghost use Rattle.std.specs.Prelude.{◌≡◌, ◌∷◌, [], codes, Some, None};
ghost use Rattle.play_types.specs.declared.command.Cmd.TheVariants.{AddFile, LoadBg, RemoveFile};
ghost use Rattle.play_types.specs.declared.event.Event.TheVariants.{Tick};
ghost use Rattle.history_model.specs.recordings.Film.{accepted_of, film, film_span};
ghost use Rattle.history_model.specs.Worked.{ask, at, batch, clip, loads, one, plays, red, reds, strip};

/// A clip of three frames is recorded from its second frame on, until the recording ends.
pub fn film_of_a_clip()
    ensures { film (one 1)
        (plays (at 1 0) (clip 1 3) ∷ Tick ∷ ask (AddFile 1 (codes "TAKE_1")) ∷ Tick ∷ Tick ∷ ask (RemoveFile 1) ∷ Tick ∷ [])
        (codes "TAKE_1")
        ≡ Some (record { version = 1; geometry = strip 1 0; frames = 2; bytes = reds (80 ∷ 160 ∷ []) }) }
{}

/// A recording lasts up to the next mark of its channel, whatever its name is, or up to the end of the history. If a name is
/// recorded again, its first recording counts.
pub fn recorded_ticks()
    ensures next { film_span (ask (AddFile 1 (codes "A")) ∷ Tick ∷ ask (AddFile 1 (codes "B")) ∷ Tick ∷ Tick ∷ []) (codes "A")
        ≡ Some (record { channel = 1; first = 0; frames = 1 }) }
    ensures end { film_span (ask (AddFile 1 (codes "A")) ∷ Tick ∷ ask (AddFile 1 (codes "B")) ∷ Tick ∷ Tick ∷ []) (codes "B")
        ≡ Some (record { channel = 1; first = 1; frames = 2 }) }
    ensures again { film_span (ask (AddFile 2 (codes "A")) ∷ Tick ∷ ask (AddFile 2 (codes "A")) ∷ Tick ∷ Tick ∷ []) (codes "A")
        ≡ Some (record { channel = 2; first = 0; frames = 1 }) }
    ensures other_channel { film_span
        (ask (AddFile 1 (codes "A")) ∷ Tick ∷ ask (RemoveFile 2) ∷ Tick ∷ ask (AddFile 2 (codes "A")) ∷ Tick ∷ []) (codes "A")
        ≡ Some (record { channel = 1; first = 0; frames = 3 }) }
    ensures batch { film_span (Tick ∷ batch (RemoveFile 1 ∷ AddFile 1 (codes "A") ∷ []) ∷ Tick ∷ []) (codes "A")
        ≡ Some (record { channel = 1; first = 1; frames = 1 }) }
{}

/// There is no film of a name that is not recorded, and of a recording without a tick. A batch that is refused marks nothing.
pub fn no_film()
    ensures name { film_span (ask (AddFile 1 (codes "A")) ∷ Tick ∷ []) (codes "B") ≡ None }
    ensures tick { film_span (Tick ∷ ask (AddFile 1 (codes "A")) ∷ ask (RemoveFile 1) ∷ Tick ∷ []) (codes "A") ≡ None }
    ensures refused { accepted_of (loads 64) (batch (AddFile 1 (codes "A") ∷ LoadBg (at 1 64) red ∷ [])) ≡ [] }
{}
