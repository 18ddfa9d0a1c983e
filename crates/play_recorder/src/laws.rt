//! Laws of films, each the contract of a function that does nothing.
ghost use Rattle.std.specs.Prelude.{◌≡◌, ◌+◌, ◌≤◌, ℕ, List, [], Ok, Some, length};
ghost use Rattle.play_types.specs.ClipFile.{clip_bytes};
ghost use Rattle.play_types.specs.Config.{ConfigView, IsConfig};
ghost use Rattle.play_types.specs.History.{ticks};
ghost use Rattle.play_types.specs.Scene.{IsConfigured};
ghost use Rattle.play_types.specs.declared.event.Event.{Event};
ghost use Rattle.clip_format.specs.Decoding.{clip_of};
ghost use Rattle.clip_format.specs.Preparing.{prepared_clip};
ghost use Rattle.clip_format.specs.Table.{Entry, IsMediaTable};
ghost use Rattle.history_model.specs.pictures.Media.{Setup};
ghost use Rattle.history_model.specs.recordings.Film.{Span, film_span, filmed};
ghost use Rattle.play_recorder.specs.Film.{IsFilm};
ghost use Rattle.play_recorder.specs.Recording.{recorded_after, setup_with};

/// The recorded ticks of a name are ticks of the history. The frames that are recorded while the history is played again, tick by tick,
/// are those of the film.
pub fn films_are_recorded()
    ensures within { (history : List Event) (name : List ℕ) (span : Span) → film_span history name ≡ Some span →
        span.first + span.frames ≤ ticks history }
    ensures frames { (setup : Setup) (history : List Event) (name : List ℕ) (span : Span) → film_span history name ≡ Some span →
        recorded_after setup span [] history ≡ (filmed setup history span).bytes }
{}

/// The file of the film of a configured channel is read as the film, and preparing the film changes no byte. So it shows, as a
/// clip of a media folder, the pixels that the channel showed.
pub fn films_are_clips()
    ensures file { (config : ConfigView) (entries : List Entry) (history : List Event) (span : Span) →
        IsConfig config → IsConfigured (length config.channels) span.channel → IsFilm span →
        clip_of (clip_bytes (filmed (setup_with config entries) history span)) ≡ Ok (filmed (setup_with config entries) history span) }
    ensures prepared { (config : ConfigView) (entries : List Entry) (history : List Event) (span : Span) →
        IsConfig config → IsMediaTable entries → IsConfigured (length config.channels) span.channel → IsFilm span →
        prepared_clip (filmed (setup_with config entries) history span) ≡ filmed (setup_with config entries) history span }
{}
