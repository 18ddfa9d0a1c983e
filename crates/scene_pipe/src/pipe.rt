//! A pipe before its ends go to two threads.
ghost use Rattle.std.specs.Prelude.{◌≡◌, [], IfOk, length, replicate};
ghost use Rattle.scene_pipe.specs.Calls.{AreNewEnds};
ghost use Rattle.scene_pipe.specs.declared.pipe.TheConstants.{SETS};

use crate::sleep::Sleep;
use crate::stage_end::StageEnd;
use crate::write_end::WriteEnd;
use play_types::{Config, Scenes};
use rtrb::RingBuffer;
use std::alloc::{AllocError, Global};
use std::marker::Model;

/// The number of sets of scenes of a pipe.
pub const SETS: usize = 4;

/// The number of items that a ring has room for: each set of scenes, and the end mark.
const RING_ITEMS: usize = SETS + 1;

/// Two rings with their ends. In contracts, a pipe is the number of channels that its scenes are for.
#[derive(Drop)]
pub struct ScenePipe {
    stage: StageEnd,
    write: WriteEnd,
}

impl Model for ScenePipe {
    ghost use Rattle.std.specs.Prelude.{ℕ};
    ghost use Rattle.scene_pipe.specs.Calls.{AreNewEnds};

    ghost Value = { ℕ };

    ghost view = { λ p. p.stage.channels };

    ghost invariant = { λ p. AreNewEnds p.stage.channels p.stage p.write };
}

impl ScenePipe {
    /// Allocates a pipe: its rings, and four sets of scenes for the channels of a configuration.
    pub fn new(alloc: Global, config: &Config) -> Result<ScenePipe, AllocError>
        ensures { IfOk result (λ pipe. pipe ≡ length config.now.channels) }
    {
        let held = sets(alloc, config)?;
        let channels = config.channels().len() as u8;
        let (out, inbox) = RingBuffer::new(alloc, RING_ITEMS)?;
        let (given, back) = RingBuffer::new(alloc, RING_ITEMS)?;
        let (stage_sleep, write_sleep) = Sleep::pair(alloc)?;
        Ok(ScenePipe {
            stage: StageEnd {
                channels,
                held,
                out,
                back,
                sleep: stage_sleep,
            },
            write: WriteEnd {
                channels,
                inbox,
                back: given,
                sleep: write_sleep,
            },
        })
    }

    /// Returns both ends. The end that stages holds the four sets of scenes.
    pub fn split(self) -> (StageEnd, WriteEnd)
        ensures { AreNewEnds self result.0 result.1 }
    {
        (self.stage, self.write)
    }
}

/// Creates the sets of scenes of a pipe, without layers.
fn sets(alloc: Global, config: &Config) -> Result<Vec<Scenes>, AllocError>
    ensures { IfOk result (λ sets. sets.items ≡ replicate SETS (replicate (length config.now.channels) [])) }
{
    let mut sets = Vec::with_capacity(alloc, SETS)?;
    for _set in 0..SETS {
        sets.push(Scenes::new(alloc, config)?)?;
    }
    Ok(sets)
}
