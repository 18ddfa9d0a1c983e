//! The conversion of a clip to one with straight alpha.
ghost use Rattle.run_script.specs.Converting.{Converts};
ghost use Rattle.script_player.specs.Ending.{fault_in};

use clip_format::{decode, encode, straight_clip};
use play_outside::{Sent, Sink, Source};
use script_player::read_all;
use server_setup::RunFault;
use std::alloc::Global;

/// The most bytes of a clip that is converted.
const MAX_CLIP_BYTES: usize = 1_073_741_824;

/// Reads a clip to the end of the input, and writes it as a clip of version 2, which has straight alpha and shows the same pictures.
/// Bytes that are too many, or no clip, are refused, and nothing is written then.
pub fn convert<I: Source, K: Sink>(
    alloc: Global,
    input: &mut I,
    out: &mut K,
) -> Result<(), RunFault>
    ensures { Converts (fault_in result)
        (record { input = I.state input.old; out = K.state out.old })
        (record { input = I.state input.new; out = K.state out.new }) }
{
    let bytes = read_all(alloc, MAX_CLIP_BYTES, input)?;
    let clip = decode(bytes)?;
    match encode(&straight_clip(clip), out) {
        Sent::All => Ok(()),
        Sent::Failed => Err(RunFault::Device),
    }
}
