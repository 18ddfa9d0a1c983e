//! Laws of runs. Each is the contract of a function that does nothing.
ghost use Rattle.std.specs.Prelude.{◌≡◌, ℕ, ◌+◌, ◌≤◌, Bool, Some, List, [], ◌∷◌, ◌++◌, All, length};
ghost use mathlib.Core.List.{IsPrefix};
ghost use Rattle.play_types.specs.History.{ticks};
ghost use Rattle.play_types.specs.declared.event.Event.{Event};
ghost use Rattle.play_types.specs.declared.event.Event.TheVariants.{Tick};
ghost use Rattle.play_types.specs.declared.event.Tag.{Tag};
ghost use Rattle.play_outside.specs.Fresh.{IsNewSink};
ghost use Rattle.play_outside.specs.declared.devices.Devices.{Devices};
ghost use Rattle.play_outside.specs.declared.sink.Sent.TheVariants as sent;
ghost use Rattle.clip_format.specs.Table.{media_names};
ghost use Rattle.history_model.specs.pictures.Media.{Setup};
ghost use Rattle.history_model.specs.recordings.Film.{Span, before_tick, film, filmed};
ghost use Rattle.history_model.specs.scripts.History.{PlayedLine, script_events};
ghost use Rattle.history_model.specs.scripts.Memory.{HasMemory, lines_played};
ghost use Rattle.history_model.specs.scripts.Output.{script_output};
ghost use Rattle.history_model.specs.text.History.{history_text, joined_events, log_text};
ghost use Rattle.history_replay.specs.Replay.{IsReplayable, NamesShortClips, script_of};
ghost use Rattle.history_replay.specs.ReplayOutput.{history_output};
ghost use Rattle.conn_worker.specs.Explained.{covered};
ghost use Rattle.conn_worker.specs.Followed.{Followed, events_of};
ghost use Rattle.conn_worker.specs.Work.{LinkRun, service_of};
ghost use Rattle.play_ticker.specs.Frames.{frames_text};
ghost use Rattle.play_ticker.specs.Outputs.{AllTakeFrames};
ghost use Rattle.server_run.specs.Doors.{DoorRun, IsTagOfLink};
ghost use Rattle.server_run.specs.Links.{IsExplainedLink, tagged};
ghost use Rattle.play_server.specs.Program.{AtSite, program_of};
ghost use Rattle.server_laws.specs.Replay.{IsAnsweredAgain, IsOpenedAgain, IsShownAgain};
ghost use Rattle.server_run.specs.Run.{HasRun, Program, playout_of, setting_of, setup_of};
ghost use Rattle.server_run.specs.Devices.{device_states};
ghost use Rattle.play_server.specs.Statuses.{HasServedClients};
ghost use Rattle.server_run.specs.declared.served.ServeEnd.{ServeEnd};
ghost use Rattle.server_run.specs.declared.served.ServeEnd.TheVariants as serve;

use play_outside::{Clock, Listener, Sink};

/// The history of each run can be played again from its text.
///
/// This holds if there are as many doors as the configuration has connections, and the name of each clip that the history names is
/// short enough to be printed in a line. The text is what the output for the history has taken, if it was new and did not fail. If the
/// text is played as a script on the configuration and clips of the run, and no reply reports that memory ran out, the script has the
/// history of the run, and writes its replies and its frames.
pub fn runs_are_played_again<C: Clock, D: Listener, O: Sink>()
    ensures replayable { (program : Program) (end : ServeEnd) (devices : Devices C D O × Devices C D O) (digests : Bool)
        (run : HasRun (device_states C.state D.state O.state) D.Line.state program end devices) →
        length devices.0.doors.items ≡ program.config.connections → All (NamesShortClips (media_names program.media)) run.history →
        IsReplayable (playout_of program digests) run.history }
    ensures text { (program : Program) (end : ServeEnd) (devices : Devices C D O × Devices C D O)
        (run : HasRun (device_states C.state D.state O.state) D.Line.state program end devices) →
        IsNewSink (O.state devices.0.history) → run.written ≡ sent.All →
        (text : List ℕ) → (O.state devices.1.history).taken ≡ Some text → text ≡ history_text (media_names program.media) run.history }
    ensures again { (program : Program) (end : ServeEnd) (devices : Devices C D O × Devices C D O) (digests : Bool)
        (run : HasRun (device_states C.state D.state O.state) D.Line.state program end devices) →
        length devices.0.doors.items ≡ program.config.connections → All (NamesShortClips (media_names program.media)) run.history →
        (played : List PlayedLine) → lines_played played ≡ script_of (history_text (media_names program.media) run.history) →
        HasMemory (playout_of program digests) played →
        script_events (playout_of program digests) played ≡ run.history }
    ensures output { (program : Program) (end : ServeEnd) (devices : Devices C D O × Devices C D O) (digests : Bool)
        (run : HasRun (device_states C.state D.state O.state) D.Line.state program end devices) →
        length devices.0.doors.items ≡ program.config.connections → All (NamesShortClips (media_names program.media)) run.history →
        (played : List PlayedLine) → lines_played played ≡ script_of (history_text (media_names program.media) run.history) →
        HasMemory (playout_of program digests) played →
        script_output (playout_of program digests) played ≡ history_output (playout_of program digests) run.history }
{}

/// The replies of a run are written again if its text is played.
///
/// For each step of a link that made an event, a replay writes the reply that the step had, after the output for the earlier events, those
/// that the run began with among them.
/// If the event is a batch, this is the reply to COMMIT; before it come the replies that the client had to BEGIN and to the commands
/// of the batch.
pub fn answers_are_written_again<D: Listener>()
    ensures answers { (program : Program) (worker session : ℕ) (history : List Event) (link_run : LinkRun D.Line) (digests : Bool)
        (link : IsExplainedLink (setting_of program D.Line.state worker) history session link_run) → 1 ≤ worker →
        All (λ one. (event : Event) → events_of (service_of (setting_of program D.Line.state worker) session) one ≡ event ∷ [] →
        IsAnsweredAgain (playout_of program digests) (service_of (setting_of program D.Line.state worker) session) (program.given ++ history) one event)
        (covered link.explained.conversation) }
    ensures openings { (program : Program) (worker session : ℕ) (history : List Event) (link_run : LinkRun D.Line) (digests : Bool)
        (link : IsExplainedLink (setting_of program D.Line.state worker) history session link_run) →
        (before later : List Followed) (one : Followed) (event : Event) → covered link.explained.conversation ≡ before ++ one ∷ later →
        events_of (service_of (setting_of program D.Line.state worker) session) one ≡ event ∷ [] →
        IsOpenedAgain (playout_of program digests) (service_of (setting_of program D.Line.state worker) session) before event }
{}

/// No tag of an event that a run begins with is that of a link of the run.
pub fn tags_are_new<D: Listener>()
    ensures { (given : List Event) (runs : List (DoorRun D.Line)) (tag : Tag) → IsTagOfLink given 1 runs tag → tagged tag given ≡ [] }
{}

/// The frames of a run are written again if its text is played.
///
/// For each tick, a replay writes the frames of all channels, after the output for the earlier events. Their bytes are those that
/// the outputs take at this tick.
pub fn frames_are_written_again()
    ensures { (program : Program) (digests : Bool) (history before later : List Event) → history ≡ before ++ Tick ∷ later →
        IsShownAgain (playout_of program digests) history before later }
{}

/// The history of each run of the program that ends with status 0 can be played again from its text.
///
/// This holds if the name of each clip that the history names is short enough to be printed in a line. If the bytes that the output for
/// the history has taken are known, they are the text of the history. If the text is played as a script on the configuration and clips
/// of the run, and no reply reports that memory ran out, the script has the history of the run, and writes its replies and its frames.
pub fn programs_are_played_again<C: Clock, D: Listener, O: Sink>()
    ensures text { (line : List (List ℕ)) (moments : AtSite C D O × AtSite C D O)
        (run : HasServedClients (device_states C.state D.state O.state) D.Line.state line serve.Ended moments) →
        (text : List ℕ) → (O.state run.served.finished.history).taken ≡ Some text →
        text ≡ history_text (media_names run.setup.media) run.served.serves.history }
    ensures again { (line : List (List ℕ)) (moments : AtSite C D O × AtSite C D O) (digests : Bool)
        (run : HasServedClients (device_states C.state D.state O.state) D.Line.state line serve.Ended moments) →
        All (NamesShortClips (media_names run.setup.media)) run.served.serves.history →
        (played : List PlayedLine) → lines_played played ≡ script_of (history_text (media_names run.setup.media) run.served.serves.history) →
        HasMemory (playout_of (program_of run.setup) digests) played →
        script_events (playout_of (program_of run.setup) digests) played ≡ run.served.serves.history }
    ensures output { (line : List (List ℕ)) (moments : AtSite C D O × AtSite C D O) (digests : Bool)
        (run : HasServedClients (device_states C.state D.state O.state) D.Line.state line serve.Ended moments) →
        All (NamesShortClips (media_names run.setup.media)) run.served.serves.history →
        (played : List PlayedLine) → lines_played played ≡ script_of (history_text (media_names run.setup.media) run.served.serves.history) →
        HasMemory (playout_of (program_of run.setup) digests) played →
        script_output (playout_of (program_of run.setup) digests) played ≡ history_output (playout_of (program_of run.setup) digests) run.served.serves.history }
{}

/// The log of each run can be played again if no write of it failed.
///
/// The logged pieces are a prefix of the history of the run, and all of it if no write of the log failed. Then, if there are as many
/// doors as the configuration has connections, the name of each clip that the history names is short enough to be printed in a line,
/// the log is played as a script on the configuration and clips of the run, and no reply reports that memory ran out, the script has
/// the history of the run, and writes its replies and its frames.
///
/// In a run of the program that ends with status 0, no write of the log failed. If the bytes that the output for the log has taken
/// are known, they are the log.
pub fn logs_are_played_again<C: Clock, D: Listener, O: Sink>()
    ensures part { (program : Program) (end : ServeEnd) (devices : Devices C D O × Devices C D O)
        (run : HasRun (device_states C.state D.state O.state) D.Line.state program end devices) →
        IsPrefix (joined_events run.log.pieces) run.history }
    ensures whole { (program : Program) (end : ServeEnd) (devices : Devices C D O × Devices C D O)
        (run : HasRun (device_states C.state D.state O.state) D.Line.state program end devices) →
        run.logged ≡ sent.All → joined_events run.log.pieces ≡ run.history }
    ensures again { (program : Program) (end : ServeEnd) (devices : Devices C D O × Devices C D O) (digests : Bool)
        (run : HasRun (device_states C.state D.state O.state) D.Line.state program end devices) → run.logged ≡ sent.All →
        length devices.0.doors.items ≡ program.config.connections → All (NamesShortClips (media_names program.media)) run.history →
        (played : List PlayedLine) → lines_played played ≡ script_of (log_text (media_names program.media) run.log.pieces) →
        HasMemory (playout_of program digests) played →
        script_events (playout_of program digests) played ≡ run.history }
    ensures output { (program : Program) (end : ServeEnd) (devices : Devices C D O × Devices C D O) (digests : Bool)
        (run : HasRun (device_states C.state D.state O.state) D.Line.state program end devices) → run.logged ≡ sent.All →
        length devices.0.doors.items ≡ program.config.connections → All (NamesShortClips (media_names program.media)) run.history →
        (played : List PlayedLine) → lines_played played ≡ script_of (log_text (media_names program.media) run.log.pieces) →
        HasMemory (playout_of program digests) played →
        script_output (playout_of program digests) played ≡ history_output (playout_of program digests) run.history }
    ensures text { (line : List (List ℕ)) (moments : AtSite C D O × AtSite C D O)
        (run : HasServedClients (device_states C.state D.state O.state) D.Line.state line serve.Ended moments) →
        (run.served.serves.logged ≡ sent.All) × ((text : List ℕ) → (O.state run.served.finished.log).taken ≡ Some text →
        text ≡ log_text (media_names run.setup.media) run.served.serves.log.pieces) }
{}

/// A recording that is made from the text of a run is the film of what was on air.
///
/// The run is one of the program that ends with status 0, and the name of each clip that its history names is short enough to be
/// printed in a line. Its text is what the output for the history has taken. If the text is played as a script on the configuration and
/// clips of the run, and no reply reports that memory ran out, the script has for each name the film of the history of the run. In
/// the run each output took the frames of its channel at all ticks, and the bytes of the recorded ticks follow directly after the
/// frames of the ticks before them.
pub fn recordings_are_made_again<C: Clock, D: Listener, O: Sink>()
    ensures film { (line : List (List ℕ)) (moments : AtSite C D O × AtSite C D O) (digests : Bool)
        (run : HasServedClients (device_states C.state D.state O.state) D.Line.state line serve.Ended moments) →
        All (NamesShortClips (media_names run.setup.media)) run.served.serves.history →
        (text : List ℕ) → (O.state run.served.finished.history).taken ≡ Some text →
        (played : List PlayedLine) → lines_played played ≡ script_of text →
        HasMemory (playout_of (program_of run.setup) digests) played → (name : List ℕ) →
        film (setup_of (program_of run.setup)) (script_events (playout_of (program_of run.setup) digests) played) name
        ≡ film (setup_of (program_of run.setup)) run.served.serves.history name }
    ensures taken { (line : List (List ℕ)) (moments : AtSite C D O × AtSite C D O)
        (run : HasServedClients (device_states C.state D.state O.state) D.Line.state line serve.Ended moments) →
        AllTakeFrames O.state (record { setup = setup_of (program_of run.setup); given = []; history = run.served.serves.history })
        run.served.given.outs.items run.served.finished.outs.items }
    ensures on_air { (setup : Setup) (history : List Event) (span : Span) → span.first + span.frames ≤ ticks history →
        IsPrefix (frames_text setup (before_tick history span.first) span.channel ++ (filmed setup history span).bytes)
        (frames_text setup history span.channel) }
{}
