//! Commands of the stage, and lists of them.
ghost use Rattle.std.specs.Prelude.{◌≡◌, ◌==◌, ◌∷◌, ◌++◌, [], length, IfOk, OnOk, OnErr, option_copied, slice_get};
ghost use Rattle.std.specs.Slice.Iter.{iter_rest};
ghost use Rattle.play_types.specs.Commands.{command_name, is_query, mark_of};
ghost use Rattle.play_types.specs.Shape.{shape_of};
ghost use Rattle.play_types.specs.Take.{loaded, played};

use crate::place::Place;
use crate::rec_name::RecName;
use crate::reply::Name;
use crate::setting::{Prop, Setting};
use crate::shape::{CommandShape, Query, Recording, Target};
use crate::take::Take;
use std::alloc::{AllocError, Global};
use std::marker::Model;
use std::slice;

/// A command of the stage. [`Cmd::load`] makes the take's transition a cut and clears `auto`, [`Cmd::play_take`] clears `auto`.
#[derive(Clone, Copy, Debug, PartialEq, Eq)]
pub enum Cmd {
    /// Shows the first picture of a take, paused.
    Load(Place, Take),
    /// Puts a take into the background.
    LoadBg(Place, Take),
    /// Starts the background, or unpauses the foreground if there is no background.
    Play(Place),
    /// Puts a take into the background and starts it.
    PlayTake(Place, Take),
    /// Pauses the foreground.
    Pause(Place),
    /// Unpauses the foreground.
    Resume(Place),
    /// Removes the foreground.
    StopLayer(Place),
    /// Removes the foreground and the background.
    ClearLayer(Place),
    /// Removes the foregrounds and the backgrounds of all layers of a channel.
    ClearChannel(u8),
    /// Exchanges two places, with their mixer values if the last field is true.
    SwapLayers(Place, Place, bool),
    /// Exchanges all layers of two channels, with their mixer values if the last field is true.
    SwapChannels(u8, u8, bool),
    /// Sets a mixer value.
    Set(Setting),
    /// Starts the waiting settings of a channel.
    CommitMixer(u8),
    /// Sets all mixer values of a place to their defaults.
    ResetLayer(Place),
    /// Sets all mixer values of all places of a channel to their defaults.
    ResetChannel(u8),
    /// Marks that a recording of this name begins on a channel. A recording that runs on the channel ends.
    AddFile(u8, RecName),
    /// Marks that the recording of a channel ends.
    RemoveFile(u8),
    /// Asks for a mixer value.
    Value(Place, Prop),
    /// Asks for the status of all channels.
    Info,
}

// A command takes at most 56 bytes, whatever it is.
const _: () = prove!(size_of::<Cmd>() <= 56);

impl Cmd {
    /// Creates a LOAD, whose take is kept with a cut and without `auto`.
    pub fn load(place: Place, take: Take) -> Cmd
        ensures { result ≡ Cmd.Load place (loaded take) }
    {
        Cmd::Load(place, take.with_cut().without_auto())
    }

    /// Creates a PLAY of a take, which is kept without `auto`.
    pub fn play_take(place: Place, take: Take) -> Cmd
        ensures { result ≡ Cmd.PlayTake place (played take) }
    {
        Cmd::PlayTake(place, take.without_auto())
    }

    /// Returns the name that the command begins with.
    pub fn name(&self) -> Name
        ensures { result ≡ command_name self.now }
    {
        match self {
            Cmd::Load(..) => Name::Load,
            Cmd::LoadBg(..) => Name::LoadBg,
            Cmd::Play(_) | Cmd::PlayTake(..) => Name::Play,
            Cmd::Pause(_) => Name::Pause,
            Cmd::Resume(_) => Name::Resume,
            Cmd::StopLayer(_) => Name::Stop,
            Cmd::ClearLayer(_) | Cmd::ClearChannel(_) => Name::Clear,
            Cmd::SwapLayers(..) | Cmd::SwapChannels(..) => Name::Swap,
            Cmd::Set(_)
            | Cmd::CommitMixer(_)
            | Cmd::ResetLayer(_)
            | Cmd::ResetChannel(_)
            | Cmd::Value(..) => Name::Mixer,
            Cmd::AddFile(..) => Name::Add,
            Cmd::RemoveFile(_) => Name::Remove,
            Cmd::Info => Name::Info,
        }
    }

    /// Returns what the command does, and on what.
    pub fn shape(&self) -> CommandShape
        ensures { result ≡ shape_of self.now }
    {
        match self {
            Cmd::Load(place, take) | Cmd::LoadBg(place, take) | Cmd::PlayTake(place, take) => {
                CommandShape::Take(*place, *take)
            }
            Cmd::Play(place)
            | Cmd::Pause(place)
            | Cmd::Resume(place)
            | Cmd::StopLayer(place)
            | Cmd::ClearLayer(place) => CommandShape::Change(*place),
            Cmd::ClearChannel(channel) => CommandShape::ClearChannel(*channel),
            Cmd::SwapLayers(one, other, transforms) => {
                CommandShape::SwapLayers(*one, *other, *transforms)
            }
            Cmd::SwapChannels(one, other, transforms) => {
                CommandShape::SwapChannels(*one, *other, *transforms)
            }
            Cmd::Set(setting) => CommandShape::Set(*setting),
            Cmd::CommitMixer(channel) => CommandShape::CommitMixer(*channel),
            Cmd::ResetLayer(place) => CommandShape::Reset(Target::Layer(*place)),
            Cmd::ResetChannel(channel) => CommandShape::Reset(Target::Channel(*channel)),
            Cmd::AddFile(channel, name) => {
                CommandShape::Record(Recording::Begin(*channel, *name))
            }
            Cmd::RemoveFile(channel) => CommandShape::Record(Recording::End(*channel)),
            Cmd::Value(place, prop) => CommandShape::Ask(Query::Value(*place, *prop)),
            Cmd::Info => CommandShape::Ask(Query::Status),
        }
    }

    /// Returns whether the command only asks, and so changes nothing.
    pub fn is_query(&self) -> bool
        ensures { result ≡ is_query self.now }
    {
        match self.shape() {
            CommandShape::Ask(_) => true,
            CommandShape::Take(..)
            | CommandShape::Change(_)
            | CommandShape::ClearChannel(_)
            | CommandShape::SwapLayers(..)
            | CommandShape::SwapChannels(..)
            | CommandShape::Set(_)
            | CommandShape::CommitMixer(_)
            | CommandShape::Reset(_)
            | CommandShape::Record(_) => false,
        }
    }

    /// Returns the recording mark, if the command is ADD or REMOVE.
    pub fn mark(&self) -> Option<Recording>
        ensures { result ≡ mark_of self.now }
    {
        match self.shape() {
            CommandShape::Record(mark) => Some(mark),
            CommandShape::Take(..)
            | CommandShape::Change(_)
            | CommandShape::ClearChannel(_)
            | CommandShape::SwapLayers(..)
            | CommandShape::SwapChannels(..)
            | CommandShape::Set(_)
            | CommandShape::CommitMixer(_)
            | CommandShape::Reset(_)
            | CommandShape::Ask(_) => None,
        }
    }
}

/// The most commands of a batch.
pub const MAX_BATCH_COMMANDS: usize = 256;

/// Commands in order. [`CmdList::copy_of`] keeps a single command inline, without an allocation.
#[derive(Debug, Drop)]
pub struct CmdList {
    alloc: Global,
    cmds: Kept,
}

/// How a list keeps its commands.
#[derive(Debug, Drop)]
enum Kept {
    Alone(Cmd),
    Several(Vec<Cmd>),
}

impl Model for CmdList {
    ghost use Rattle.std.specs.Prelude.{List};
    ghost use Rattle.play_types.specs.declared.command.Cmd.{Cmd};
    ghost use Rattle.play_types.specs.CmdList.{commands_in};

    ghost Value = { List Cmd };

    ghost view = { λ l. commands_in l.cmds };
}

impl CmdList {
    /// Creates a list without commands. It does not allocate.
    pub fn new(alloc: Global) -> CmdList
        ensures { result ≡ [] }
    {
        CmdList {
            alloc,
            cmds: Kept::Several(Vec::new(alloc)),
        }
    }

    /// Creates a list of the commands of a slice, with room for no more.
    pub fn copy_of(alloc: Global, cmds: &[Cmd]) -> Result<CmdList, AllocError>
        ensures { IfOk result (λ list. list ≡ cmds.now) }
    {
        let cmds = match cmds {
            [cmd] => Kept::Alone(*cmd),
            _ => Kept::Several(exact_copy(alloc, cmds)?),
        };
        Ok(CmdList { alloc, cmds })
    }

    /// Adds a command at the end. If memory runs out, the list stays as it was.
    pub fn push(&mut self, cmd: Cmd) -> Result<(), AllocError>
        ensures ok { OnOk result (self.new ≡ self.old ++ cmd ∷ []) }
        ensures err { OnErr result (self.new ≡ self.old) }
    {
        match &mut self.cmds {
            Kept::Alone(first) => {
                let both = exact_copy(self.alloc, &[*first, cmd])?;
                self.cmds = Kept::Several(both);
            }
            Kept::Several(cmds) => cmds.push(cmd)?,
        }
        Ok(())
    }

    /// Returns the number of commands.
    pub fn len(&self) -> usize
        ensures { result ≡ length self.now }
    {
        self.as_slice().len()
    }

    /// Returns whether there are no commands.
    pub fn is_empty(&self) -> bool
        ensures { result ≡ (length self.now == 0) }
    {
        self.as_slice().is_empty()
    }

    /// Returns the commands in order.
    pub fn as_slice(&self) -> &[Cmd]
        ensures { result.now ≡ self.now }
    {
        match &self.cmds {
            Kept::Alone(cmd) => slice::from_ref(cmd),
            Kept::Several(cmds) => cmds.as_slice(),
        }
    }

    /// Returns the commands in order.
    pub fn iter(&self) -> slice::Iter<'_, Cmd>
        ensures { iter_rest result ≡ self.now }
    {
        self.as_slice().iter()
    }

    /// Returns the command at position `at`, counted from 0: `None` exactly if `at` is not below the length.
    pub fn get(&self, at: usize) -> Option<&Cmd>
        ensures { option_copied result ≡ slice_get self.now at }
    {
        self.as_slice().get(at)
    }
}

/// Returns a copy of the commands of a slice, with room for no more.
fn exact_copy(alloc: Global, cmds: &[Cmd]) -> Result<Vec<Cmd>, AllocError>
    ensures { IfOk result (λ copy. copy.items ≡ cmds.now) }
{
    let mut copy = Vec::with_capacity(alloc, cmds.len())?;
    copy.extend_from_slice(cmds)?;
    Ok(copy)
}
