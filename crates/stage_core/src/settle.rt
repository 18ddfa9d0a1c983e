//! The effect of commands on mixer values and waiting settings.
ghost use Rattle.std.specs.Prelude.{◌≡◌, ◌+◌, ◌≤◌, ◌++◌, [], ◌∷◌, List, All, true, false};
ghost use Rattle.play_types.specs.Scene.{IsConfigured};
ghost use Rattle.play_types.specs.declared.command.Cmd.TheVariants.{Set};
ghost use Rattle.history_model.specs.stage.Act.{Act, acts_of};
ghost use Rattle.history_model.specs.stage.StageState.{acts_after_all};
ghost use Rattle.mixer_state.specs.Past.{Represents};
ghost use Rattle.history_model.specs.commands.Channels.{IsServed};
ghost use Rattle.stage_core.specs.inner.Settled.{CanTake, settings_of, settings_of_all, waits_on};

use mixer_state::{Mixer, laws};
use play_types::{Cmd, CommandShape, Setting, Target};
use std::alloc::Global;

/// Applies a command that is not refused to a mixer that has the memory for it.
pub(crate) fn settle(alloc: Global, mixer: &mut Mixer, cmd: &Cmd, ticks: u64)
    requires served { IsServed mixer.old.channels cmd.now }
    requires taken { CanTake (cmd.now ∷ []) ticks mixer.old }
    requires memory { settings_of (waits_on mixer.old) cmd.now ≤ mixer.old.spare }
    ensures past { (acts : List Act) → Represents mixer.old acts ticks
        → Represents mixer.new (acts_of ticks cmd.now ++ acts) ticks }
    ensures channels { mixer.new.channels ≡ mixer.old.channels }
    ensures spare { mixer.old.spare ≤ mixer.new.spare + settings_of (waits_on mixer.old) cmd.now }
{
    laws::what_leaves_a_mixer();
    match cmd.shape() {
        CommandShape::Set(setting) => set(alloc, mixer, &setting, ticks),
        CommandShape::CommitMixer(channel) => mixer.commit(alloc, channel, ticks).unwrap(),
        CommandShape::Reset(target) => match target {
            Target::Layer(at) => mixer.clear_layer(at),
            Target::Channel(channel) => mixer.clear_channel(channel),
        },
        CommandShape::SwapLayers(a, b, transforms) => {
            if transforms {
                mixer.swap_layers(alloc, a, b).unwrap();
            }
        }
        CommandShape::SwapChannels(a, b, transforms) => {
            if transforms {
                mixer.swap_channels(a, b);
            }
        }
        CommandShape::Take(..)
        | CommandShape::Change(_)
        | CommandShape::ClearChannel(_)
        | CommandShape::Record(_)
        | CommandShape::Ask(_) => {}
    }
}

/// Starts a setting, or adds it to the waiting ones if it is deferred.
fn set(alloc: Global, mixer: &mut Mixer, setting: &Setting, ticks: u64)
    requires served { IsConfigured mixer.old.channels setting.now.place.channel }
    requires taken { CanTake (Set setting.now ∷ []) ticks mixer.old }
    requires memory { settings_of (waits_on mixer.old) (Set setting.now) ≤ mixer.old.spare }
    ensures past { (acts : List Act) → Represents mixer.old acts ticks
        → Represents mixer.new (acts_of ticks (Set setting.now) ++ acts) ticks }
    ensures channels { mixer.new.channels ≡ mixer.old.channels }
    ensures spare { mixer.old.spare ≤ mixer.new.spare + settings_of (waits_on mixer.old) (Set setting.now) }
{
    if setting.deferred() {
        if !mixer.defer(setting) {
            unreachable!();
        }
    } else {
        mixer.set(alloc, setting, ticks).unwrap();
    }
}

/// Applies commands, none of which is refused, in order to a mixer that has the memory for them.
pub(crate) fn settle_all(alloc: Global, mixer: &mut Mixer, cmds: &[Cmd], ticks: u64)
    requires served { All (IsServed mixer.old.channels) cmds.now }
    requires taken { CanTake cmds.now ticks mixer.old }
    requires memory { settings_of_all (waits_on mixer.old) cmds.now ≤ mixer.old.spare }
    ensures past { (acts : List Act) → Represents mixer.old acts ticks
        → Represents mixer.new (acts_after_all ticks cmds.now acts) ticks }
    ensures channels { mixer.new.channels ≡ mixer.old.channels }
{
    for cmd in cmds {
        settle(alloc, mixer, cmd, ticks);
    }
}
