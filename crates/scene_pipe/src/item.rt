//! What goes through the rings.
ghost use Rattle.std.specs.Prelude.{◌≡◌};
ghost use Rattle.scene_pipe.specs.Items.{room_of};

use crate::ring::Item;
use play_types::Scenes;

/// What the staging side sends: the scenes of a tick, or the end mark, after which nothing comes.
#[derive(Debug, Drop)]
pub enum Taken {
    /// The scenes of the tick with this number, counted from 1.
    Staged { tick: u64, scenes: Scenes },
    /// The end mark.
    Done,
}

/// What the writing side sends back.
#[derive(Debug, Drop)]
pub enum Returned {
    /// Scenes that are free.
    Free { scenes: Scenes },
    /// The report that the output of this channel failed, with scenes that are free.
    Broken { channel: u8, scenes: Scenes },
}

/// What the staging side gets when it asks for room.
#[derive(Debug, Drop)]
pub enum Room {
    /// Scenes to fill.
    Free(Scenes),
    /// The report that the output of this channel failed.
    Broken { channel: u8 },
}

impl Item for Taken {
    ghost use Rattle.scene_pipe.specs.Items.{fits_taken};

    ghost is_for = { fits_taken };

    fn fits(&self, channels: u8) -> bool {
        match self {
            Taken::Staged { scenes, .. } => scenes.channels() == channels,
            Taken::Done => true,
        }
    }
}

impl Item for Returned {
    ghost use Rattle.scene_pipe.specs.Items.{fits_returned};

    ghost is_for = { fits_returned };

    fn fits(&self, channels: u8) -> bool {
        match self {
            Returned::Free { scenes } | Returned::Broken { scenes, .. } => {
                scenes.channels() == channels
            }
        }
    }
}

impl Returned {
    /// Returns what the staging side gets from the item: scenes to fill, or the report that an output failed.
    pub(crate) fn into_room(self) -> Room
        ensures { result ≡ room_of self }
    {
        match self {
            Returned::Free { scenes } => Room::Free(scenes),
            Returned::Broken { channel, .. } => Room::Broken { channel },
        }
    }
}
