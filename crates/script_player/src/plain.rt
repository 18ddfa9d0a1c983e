//! The setups of runs without a configuration file: their channels, without clips.
ghost use Rattle.std.specs.Prelude.{◌≡◌, ◌≤◌, false, IfOk, codes, length};
ghost use Rattle.play_types.specs.Geometry.{IsSize};
ghost use Rattle.play_types.specs.declared.place.TheConstants.{MAX_CHANNELS};
ghost use Rattle.history_model.specs.scripts.Generator.{generator_playout};
ghost use Rattle.history_model.specs.scripts.Output.{plain_config};
ghost use Rattle.script_player.specs.Playouts.{geometry};
ghost use Rattle.script_player.specs.Playouts.{plain_playout, playout_of};

use clip_format::MediaTable;
use play_types::{Channel, ChannelList, Config, Geometry, MediaNames, Text};
use server_setup::ServerSetup;
use std::alloc::{AllocError, Global};

/// The ticks per second of a run without a configuration file.
const RATE: u32 = 25;

/// The connection workers of such a run.
const CONNECTIONS: u32 = 4;

/// The most commands in the history of such a run.
const JOURNAL_LIMIT: u32 = 4_194_304;

/// Returns the setup of a run that is given only a width and a height: one channel of this size, without sound and without clips.
pub fn plain_setup(alloc: Global, size: Geometry) -> Result<ServerSetup, AllocError>
    requires { IsSize size.width size.height 0 }
    ensures { IfOk result (λ setup. playout_of setup false ≡ plain_playout size) }
{
    let size = Geometry {
        width: size.width,
        height: size.height,
        pairs: 0,
    };
    let mut channels = ChannelList::new(alloc);
    channels.push(channel(alloc, size)?)?;
    setup_of(alloc, channels)
}

/// Returns the setup of a generated script: two channels of 64x36 with four stereo pairs, without clips.
pub fn generator_setup(alloc: Global) -> Result<ServerSetup, AllocError>
    ensures { IfOk result (λ setup. playout_of setup false ≡ generator_playout) }
{
    let size = Geometry {
        width: 64,
        height: 36,
        pairs: 4,
    };
    let mut channels = ChannelList::new(alloc);
    channels.push(channel(alloc, size)?)?;
    channels.push(channel(alloc, size)?)?;
    setup_of(alloc, channels)
}

/// Returns a setup of these channels, 1 to 16, without clips. The rest of its configuration is that of a run without a configuration
/// file.
fn setup_of(alloc: Global, channels: ChannelList) -> Result<ServerSetup, AllocError>
    requires some { 1 ≤ length channels }
    requires few { length channels ≤ MAX_CHANNELS }
    ensures { IfOk result (λ setup. playout_of setup false ≡ record (plain_playout (geometry 1 1)) { config = record (plain_config 1 1) { channels = channels } }) }
{
    let listen = none(alloc)?;
    let media = none(alloc)?;
    Ok(ServerSetup {
        config: Config::new(listen, media, RATE, CONNECTIONS, JOURNAL_LIMIT, channels).unwrap(),
        media: MediaTable::empty(alloc)?,
        names: MediaNames::new(alloc),
    })
}

/// Returns a channel of this size.
fn channel(alloc: Global, size: Geometry) -> Result<Channel, AllocError>
    requires { IsSize size.width size.height size.pairs }
    ensures { IfOk result (λ channel. channel ≡ record { width = size.width; height = size.height; pairs = size.pairs; output = codes "none" }) }
{
    let output = none(alloc)?;
    Ok(Channel::new(size.width, size.height, size.pairs, output).unwrap())
}

/// Returns the value of an address, a folder or an output that is not there.
fn none(alloc: Global) -> Result<Text, AllocError>
    ensures { IfOk result (λ text. text ≡ codes "none") }
{
    Text::copy(alloc, "none")
}
