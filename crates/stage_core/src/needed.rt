//! The memory that a mixer needs for commands.
ghost use Rattle.std.specs.Prelude.{◌≡◌, ◌≤◌, ℕ, All, IfSome, OnOk, OnSome};
ghost use Rattle.play_types.specs.Scene.{IsConfigured};
ghost use Rattle.play_types.specs.declared.place.TheConstants.{MAX_CHANNELS};
ghost use Rattle.history_model.specs.commands.Channels.{IsServed};
ghost use Rattle.mixer_state.specs.Mixer.{IsAsBefore};
ghost use Rattle.stage_core.specs.LiveState.{count_of};
ghost use Rattle.stage_core.specs.inner.Settled.{counted, settings_of, settings_of_all, waiting_with};

use mixer_state::Mixer;
use play_types::{Cmd, CommandShape, MAX_CHANNELS, channel_index};
use std::alloc::{AllocError, Global};

/// Reserves the memory that a mixer needs to execute commands in order, with `waiting` settings on each channel before them,
/// channel 1 first: for each setting that starts, for each swap of the mixer values of two layers, and for all settings that
/// wait at a commit of their channel. If memory runs out, the mixer is as before.
pub(crate) fn reserve_for(
    alloc: Global,
    mixer: &mut Mixer,
    cmds: &[Cmd],
    waiting: [usize; MAX_CHANNELS],
) -> Result<(), AllocError>
    requires { All (IsServed MAX_CHANNELS) cmds.now }
    ensures ok { OnOk result (settings_of_all (counted waiting) cmds.now ≤ mixer.new.spare) }
    ensures same { IsAsBefore mixer.old mixer.new }
{
    match settings_of_all(cmds, waiting) {
        Some(settings) => mixer.reserve(alloc, settings),
        None => Err(AllocError),
    }
}

/// Returns the number of settings for which a mixer needs memory to execute commands in order, with `waiting` settings on each
/// channel before them. Returns `None` if the number is more than a mixer can be asked for.
fn settings_of_all(cmds: &[Cmd], mut waiting: [usize; MAX_CHANNELS]) -> Option<u32>
    requires { All (IsServed MAX_CHANNELS) cmds.now }
    ensures { IfSome result (λ count. count ≡ settings_of_all (counted waiting) cmds.now) }
{
    let mut count: usize = 0;
    for cmd in cmds {
        let settings = settings_of(cmd, &mut waiting)?;
        count = count.checked_add(settings)?;
    }
    u32::try_from(count).ok()
}

/// Returns the number of settings for which a mixer needs memory to execute a command, with `waiting` settings on each channel,
/// and updates `waiting` to the settings that wait after the command. Returns `None` if they are more than can be counted.
fn settings_of(cmd: &Cmd, waiting: &mut [usize; MAX_CHANNELS]) -> Option<usize>
    requires { IsServed MAX_CHANNELS cmd.now }
    ensures count { IfSome result (λ count. count ≡ settings_of (counted waiting.old) cmd.now) }
    ensures after { OnSome result ((channel : ℕ) → IsConfigured MAX_CHANNELS channel
        → count_of channel waiting.new ≡ waiting_with cmd.now (counted waiting.old) channel) }
{
    match cmd.shape() {
        CommandShape::Set(setting) => {
            if !setting.deferred() {
                return Some(1);
            }
            let at = channel_index(setting.place().channel());
            waiting[at] = waiting[at].checked_add(1)?;
            Some(0)
        }
        CommandShape::CommitMixer(channel) => {
            let at = channel_index(channel);
            let settings = waiting[at];
            waiting[at] = 0;
            Some(settings)
        }
        CommandShape::SwapLayers(_, _, transforms) => Some(usize::from(transforms)),
        CommandShape::Take(..)
        | CommandShape::Change(_)
        | CommandShape::ClearChannel(_)
        | CommandShape::SwapChannels(..)
        | CommandShape::Reset(_)
        | CommandShape::Record(_)
        | CommandShape::Ask(_) => Some(0),
    }
}
