//! An input that is read as a whole.
ghost use Rattle.std.specs.Prelude.{◌<◌, ◌^◌};
ghost use Rattle.script_player.specs.Reading.{ReadsInput};

use play_outside::{ReadStep, Source};
use server_setup::RunFault;
use std::alloc::Global;

/// The most bytes that are read at a time.
const PIECE_BYTES: usize = 65_536;

/// Reads an input to its end. If the input has more than `most` bytes, it reads one byte more than these and returns `InputTooLong`. A
/// failed read is `Device`.
pub fn read_all<I: Source>(alloc: Global, most: usize, input: &mut I) -> Result<Vec<u8>, RunFault>
    requires { most < 2 ^ 32 }
    ensures { ReadsInput most result (I.state input.old) (I.state input.new) }
{
    let mut bytes = Vec::new(alloc);
    let mut buffer = [0u8; PIECE_BYTES];
    'pieces: loop {
        let size = PIECE_BYTES.min(most + 1 - bytes.len());
        match input.read(&mut buffer[..size]) {
            ReadStep::Got(count) => {
                if bytes.len() + count > most {
                    return Err(RunFault::InputTooLong);
                }
                bytes.extend_from_slice(&buffer[..count])?;
            }
            ReadStep::End => return Ok(bytes),
            ReadStep::Failed => return Err(RunFault::Device),
        }
    }
}
