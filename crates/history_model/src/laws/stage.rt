//! The state of the stage, command by command and event by event.
ghost use Rattle.std.specs.Prelude.{◌≡◌, ℕ, ◌+◌, ◌≤◌, ◌||◌, List, [], ◌∷◌, ◌++◌, Bool, true, false, Some, None, map, filter_map, length, if◌then◌else◌};
ghost use Rattle.play_types.specs.Place.{PlaceView};
ghost use Rattle.play_types.specs.History.{ticks};
ghost use Rattle.play_types.specs.declared.command.Cmd.{Cmd};
ghost use Rattle.play_types.specs.declared.command.Cmd.TheVariants.{SwapChannels, SwapLayers};
ghost use Rattle.play_types.specs.declared.event.Event.{Event};
ghost use Rattle.play_types.specs.declared.event.Event.TheVariants.{Batch, Do, Stop, Tick};
ghost use Rattle.play_types.specs.declared.event.Tag.{Tag};
ghost use Rattle.play_types.specs.declared.place.TheConstants.{MAX_LIVE_LAYERS};
ghost use Rattle.history_model.specs.pictures.Media.{Setup};
ghost use Rattle.history_model.specs.pictures.Scene.{scene};
ghost use Rattle.history_model.specs.pictures.StageScene.{drawn_after, last_shown, next_shown};
ghost use Rattle.history_model.specs.stage.Act.{Act, act_after, acts_of};
ghost use Rattle.history_model.specs.stage.Acts.{acts, is_over, is_refused, with_command, with_commands};
ghost use Rattle.history_model.specs.stage.Answer.{channel_foregrounds, statuses};
ghost use Rattle.history_model.specs.stage.Live.{foreground_at, state};
ghost use Rattle.history_model.specs.stage.Places.{AreBy, ArePlaces, Places, live_places, one_tick_later, places, standing};
ghost use Rattle.history_model.specs.stage.Resolved.{waiting_settings};
ghost use Rattle.history_model.specs.stage.WaitingList.{waiting_after};
ghost use Rattle.history_model.specs.stage.StageHistory.{foreground_of, stage_after, statuses_of, waiting};
ghost use Rattle.history_model.specs.stage.StageState.{IsWithinLimits, StageState, acts_after_all, empty_stage, exchanged, is_refused_by, live_after, names_channel, some_is_refused, stage_state, standing_at, state_after, state_after_all, state_one_tick_later, waiting_count_after};
ghost use Rattle.history_model.specs.stage.Trail.{channel_swapped_place, swapped_place};

/// What a command and a tick make of the stage: of the live places of each channel, of the settings that wait on it, and of
/// both together.
pub fn stage_one_by_one()
    ensures start { (t : ℕ) → stage_state [] t ≡ empty_stage }
    ensures places { (acts : List Act) (t : ℕ) (cmd : Cmd) (channel : ℕ) →
        live_places (acts_of t cmd ++ acts) t channel ≡ live_after cmd (live_places acts t) channel }
    ensures settings { (acts : List Act) (t : ℕ) (cmd : Cmd) (channel : ℕ) →
        waiting_settings (acts_of t cmd ++ acts) channel ≡ waiting_after cmd channel (waiting_settings acts channel) }
    ensures command { (acts : List Act) (t : ℕ) (cmd : Cmd) →
        stage_state (acts_of t cmd ++ acts) t ≡ state_after cmd (stage_state acts t) }
    ensures commands { (acts : List Act) (t : ℕ) (cmds : List Cmd) →
        stage_state (acts_after_all t cmds acts) t ≡ state_after_all cmds (stage_state acts t) }
    ensures tick { (acts : List Act) (t : ℕ) → AreBy t acts →
        stage_state acts (t + 1) ≡ state_one_tick_later (stage_state acts t) }
{}

/// After a swap each place holds what the place that it was exchanged with held. The acts of commands after `t` ticks are no
/// later than `t` ticks, if those before them are not.
pub fn acts_of_commands()
    ensures swap { (acts : List Act) (t now : ℕ) (a b place : PlaceView) (transforms : Bool) →
        state (act_after t (SwapLayers a b transforms) ∷ acts) now place ≡ state acts now (swapped_place a b place) }
    ensures swap_channels { (acts : List Act) (t now a b : ℕ) (place : PlaceView) (transforms : Bool) →
        state (act_after t (SwapChannels a b transforms) ∷ acts) now place ≡ state acts now (channel_swapped_place a b place) }
    ensures by { (acts : List Act) (t : ℕ) (cmd : Cmd) → AreBy t acts → AreBy t (acts_of t cmd ++ acts) }
    ensures by_all { (acts : List Act) (t : ℕ) (cmds : List Cmd) → AreBy t acts → AreBy t (acts_after_all t cmds acts) }
{}

/// After a command the places of a channel are again live and in rising layer. After a swap of two places each holds what the
/// other held. A command changes nothing on a channel that it does not name.
pub fn places_of_a_command()
    ensures list { (cmd : Cmd) (before : ℕ → Places) → ((channel : ℕ) → ArePlaces (before channel)) →
        (channel : ℕ) → ArePlaces (live_after cmd before channel) }
    ensures swap { (a b : PlaceView) (before : ℕ → Places) → ((channel : ℕ) → ArePlaces (before channel)) →
        (channel layer : ℕ) → standing (exchanged a b before channel) layer
        ≡ standing_at before (swapped_place a b (record { channel = channel; layer = layer })) }
    ensures other { (cmd : Cmd) (before : ℕ → Places) (channel : ℕ) → names_channel cmd channel ≡ false →
        live_after cmd before channel ≡ before channel }
    ensures other_waiting { (cmd : Cmd) (channel before : ℕ) → names_channel cmd channel ≡ false →
        waiting_count_after cmd channel before ≡ before }
{}

/// If each channel is within its limits, the stage determines whether a command is refused, and whether one of a list of them
/// is. After commands that are not refused each channel is within its limits again.
pub fn refusals_by_the_stage()
    ensures command { (acts : List Act) (t : ℕ) (cmd : Cmd) → IsWithinLimits (stage_state acts t) →
        with_command acts t cmd ≡ (if is_refused_by cmd (stage_state acts t) then None else Some (acts_of t cmd ++ acts)) }
    ensures commands { (acts : List Act) (t : ℕ) (cmds : List Cmd) → IsWithinLimits (stage_state acts t) →
        with_commands acts t cmds
        ≡ (if some_is_refused cmds (stage_state acts t) then None else Some (acts_after_all t cmds acts)) }
    ensures within { (acts : List Act) (t : ℕ) (cmd : Cmd) → IsWithinLimits (stage_state acts t) →
        is_refused_by cmd (stage_state acts t) ≡ false → IsWithinLimits (state_after cmd (stage_state acts t)) }
    ensures within_all { (acts : List Act) (t : ℕ) (cmds : List Cmd) → IsWithinLimits (stage_state acts t) →
        some_is_refused cmds (stage_state acts t) ≡ false → IsWithinLimits (state_after_all cmds (stage_state acts t)) }
{}

/// A command is taken if it leaves no channel over a limit. If each channel is within its limits, the command is
/// refused if it leaves one over a limit. After a history no channel is over a limit.
pub fn refusals_by_the_limits()
    ensures taken { (acts : List Act) (t : ℕ) (cmd : Cmd) →
        ((channel : ℕ) → is_over (acts_of t cmd ++ acts) t channel ≡ false) →
        with_command acts t cmd ≡ Some (acts_of t cmd ++ acts) }
    ensures refused { (acts : List Act) (t : ℕ) (cmd : Cmd) (channel : ℕ) → IsWithinLimits (stage_state acts t) →
        is_over (acts_of t cmd ++ acts) t channel ≡ true → with_command acts t cmd ≡ None }
    ensures within { (acts : List Act) (t : ℕ) → IsWithinLimits (stage_state acts t) →
        (channel : ℕ) → is_over acts t channel ≡ false }
    ensures history { (history : List Event) (channel : ℕ) → is_over (acts history) (ticks history) channel ≡ false }
{}

/// Whether a list of commands is refused, and the stage and the acts after it, follow from its two parts, the second after the first.
pub fn commands_in_two_parts()
    ensures refused { (front back : List Cmd) (state : StageState) →
        some_is_refused (front ++ back) state
        ≡ (some_is_refused front state || some_is_refused back (state_after_all front state)) }
    ensures state { (front back : List Cmd) (state : StageState) →
        state_after_all (front ++ back) state ≡ state_after_all back (state_after_all front state) }
    ensures acts { (t : ℕ) (front back : List Cmd) (acts : List Act) →
        acts_after_all t (front ++ back) acts ≡ acts_after_all t back (acts_after_all t front acts) }
{}

/// The stage after a history is that of its acts: it is empty before the first event, each list of places gives what each layer
/// holds, and each channel is within its limits. No act of the history is later than its last tick.
pub fn stage_of_a_history()
    ensures start { stage_after [] ≡ empty_stage }
    ensures acts { (history : List Event) → stage_after history ≡ stage_state (acts history) (ticks history) }
    ensures list { (history : List Event) (channel : ℕ) → ArePlaces (places history channel) }
    ensures lives { (history : List Event) (channel layer : ℕ) →
        standing (places history channel) layer
        ≡ state (acts history) (ticks history) (record { channel = channel; layer = layer }) }
    ensures within { (history : List Event) → IsWithinLimits (stage_after history) }
    ensures by { (history : List Event) → AreBy (ticks history) (acts history) }
{}

/// The stage after a history determines whether a command or a batch is refused.
pub fn refusals_after_a_history()
    ensures command { (history : List Event) (tag : Tag) (cmd : Cmd) →
        is_refused history (Do tag cmd) ≡ is_refused_by cmd (stage_after history) }
    ensures batch { (history : List Event) (tag : Tag) (cmds : List Cmd) →
        is_refused history (Batch tag cmds) ≡ some_is_refused cmds (stage_after history) }
{}

/// The stage after one event more: changed by a command or by all commands of a batch that is not refused, one tick later
/// after a tick, and unchanged otherwise.
pub fn stage_after_one_more_event()
    ensures command { (history : List Event) (tag : Tag) (cmd : Cmd) →
        stage_after (history ++ Do tag cmd ∷ [])
        ≡ (if is_refused_by cmd (stage_after history) then stage_after history else state_after cmd (stage_after history)) }
    ensures batch { (history : List Event) (tag : Tag) (cmds : List Cmd) →
        stage_after (history ++ Batch tag cmds ∷ [])
        ≡ (if some_is_refused cmds (stage_after history) then stage_after history
        else state_after_all cmds (stage_after history)) }
    ensures tick { (history : List Event) → stage_after (history ++ Tick ∷ []) ≡ state_one_tick_later (stage_after history) }
    ensures stop { (history : List Event) (tag : Tag) → stage_after (history ++ Stop tag ∷ []) ≡ stage_after history }
{}

/// The live places of a channel after one event more, and the settings that wait on it. A command does not change the live
/// places of a channel that it does not name.
pub fn channel_after_one_more_event()
    ensures command { (history : List Event) (tag : Tag) (cmd : Cmd) (channel : ℕ) →
        places (history ++ Do tag cmd ∷ []) channel
        ≡ (if is_refused_by cmd (stage_after history) then places history channel
        else live_after cmd (places history) channel) }
    ensures batch { (history : List Event) (tag : Tag) (cmds : List Cmd) (channel : ℕ) →
        places (history ++ Batch tag cmds ∷ []) channel
        ≡ (if some_is_refused cmds (stage_after history) then places history channel
        else (state_after_all cmds (stage_after history)).places channel) }
    ensures tick { (history : List Event) (channel : ℕ) →
        places (history ++ Tick ∷ []) channel ≡ map one_tick_later (places history channel) }
    ensures stop { (history : List Event) (tag : Tag) (channel : ℕ) →
        places (history ++ Stop tag ∷ []) channel ≡ places history channel }
    ensures other { (history : List Event) (tag : Tag) (cmd : Cmd) (channel : ℕ) → names_channel cmd channel ≡ false →
        places (history ++ Do tag cmd ∷ []) channel ≡ places history channel }
    ensures waiting { (history : List Event) (tag : Tag) (cmd : Cmd) (channel : ℕ) →
        waiting (history ++ Do tag cmd ∷ []) channel
        ≡ (if is_refused_by cmd (stage_after history) then waiting history channel
        else waiting_after cmd channel (waiting history channel)) }
{}

/// The acts after one event more, and with them the settings that wait on a channel.
pub fn acts_by_the_stage()
    ensures command { (history : List Event) (tag : Tag) (cmd : Cmd) →
        acts (history ++ Do tag cmd ∷ [])
        ≡ (if is_refused_by cmd (stage_after history) then acts history else acts_of (ticks history) cmd ++ acts history) }
    ensures batch { (history : List Event) (tag : Tag) (cmds : List Cmd) →
        acts (history ++ Batch tag cmds ∷ [])
        ≡ (if some_is_refused cmds (stage_after history) then acts history
        else acts_after_all (ticks history) cmds (acts history)) }
    ensures tick { (history : List Event) → acts (history ++ Tick ∷ []) ≡ acts history }
    ensures stop { (history : List Event) (tag : Tag) → acts (history ++ Stop tag ∷ []) ≡ acts history }
    ensures waiting { (history : List Event) (channel : ℕ) → waiting history channel ≡ waiting_settings (acts history) channel }
{}

/// A channel shows at the tick after a history those of its live places that are drawn, in rising layer, and so no more
/// layers than it may have live places.
pub fn scene_of_the_stage()
    ensures scene { (history : List Event) (channel : ℕ) →
        scene history channel ≡ filter_map (drawn_after history channel) (places history channel) }
    ensures few { (history : List Event) (channel : ℕ) → length (scene history channel) ≤ MAX_LIVE_LAYERS }
{}

/// The foregrounds at the last tick: none before the first tick, after a tick what the live places before it show, which is
/// what the states of the places show, and unchanged after any other event.
pub fn last_shown_one_by_one()
    ensures start { last_shown [] ≡ None }
    ensures command { (history : List Event) (tag : Tag) (cmd : Cmd) →
        last_shown (history ++ Do tag cmd ∷ []) ≡ last_shown history }
    ensures batch { (history : List Event) (tag : Tag) (cmds : List Cmd) →
        last_shown (history ++ Batch tag cmds ∷ []) ≡ last_shown history }
    ensures tick { (history : List Event) → last_shown (history ++ Tick ∷ []) ≡ Some (next_shown (places history)) }
    ensures states { (history : List Event) → next_shown (places history) ≡ foreground_at (acts history) (ticks history) }
    ensures stop { (history : List Event) (tag : Tag) → last_shown (history ++ Stop tag ∷ []) ≡ last_shown history }
{}

/// The foregrounds of a channel are those of its live places, and the statuses follow from these.
pub fn statuses_by_the_stage()
    ensures foregrounds { (history : List Event) (channel : ℕ) →
        channel_foregrounds (acts history) (ticks history) channel ≡ filter_map foreground_of (places history channel) }
    ensures statuses { (setup : Setup) (history : List Event) → statuses setup history ≡ statuses_of setup (places history) }
{}
