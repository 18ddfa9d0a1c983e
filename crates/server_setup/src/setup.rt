//! Setting up a server: the configuration first, then the clips.
ghost use Rattle.std.specs.Prelude.{◌≡◌, ◌≢◌, Err};
ghost use Rattle.server_setup.specs.Setup.{SetsUp};
ghost use Rattle.server_setup.specs.declared.fault.RunFault.TheVariants.{Device};
ghost use Rattle.server_setup.specs.inner.Reading.{ReadsMedia};

use crate::fault::RunFault;
use clip_format::MediaTable;
use clip_store::scan;
use config_file::read_config;
use play_outside::MediaDir;
use play_types::{Config, MediaNames};
use std::alloc::Global;
use std::thread::Threads;

/// What a server is set up with.
#[derive(Drop)]
pub struct ServerSetup {
    /// The configuration.
    pub config: Config,
    /// The clips of the folder that the configuration names.
    pub media: MediaTable,
    /// The names of these clips, in the order of the table.
    pub names: MediaNames,
}

/// Reads the configuration at the path `file`, and then the clips of the folder that it names.
///
/// The text of the configuration is tested before the folder is read. `ConfigText` comes exactly if the text is not
/// TOML. `ConfigKey` names the first key that `read_config` refuses. `MediaTwice` names the least name that two clip
/// files have, and `MediaTotal` has the first sum of the lengths of clip files that is above 1,073,741,824. `Device`
/// comes only if the folder's count of faults rose in this call. No other fault comes but `OutOfMemory`.
pub fn set_up<R: Threads + Sync, M: MediaDir>(
    rt: &R,
    alloc: Global,
    file: &str,
    folder: &mut M,
) -> Result<ServerSetup, RunFault>
    ensures exact { SetsUp file.now result (M.state folder.old) (M.state folder.new) }
    ensures files { (M.state folder.new).files ≡ (M.state folder.old).files }
    ensures kept { result ≢ Err Device → M.state folder.new ≡ M.state folder.old }
{
    let bytes = folder.config(alloc, file)?;
    let config = read_config(alloc, bytes.as_slice())?;
    read_media(rt, alloc, config, folder)
}

/// Reads the clips of the folder that a configuration names.
fn read_media<R: Threads + Sync, M: MediaDir>(
    rt: &R,
    alloc: Global,
    config: Config,
    folder: &mut M,
) -> Result<ServerSetup, RunFault>
    ensures { ReadsMedia config result (M.state folder.old) (M.state folder.new) }
{
    let media = scan(rt, alloc, config.media().as_str(), folder)?;
    let names = media.names(alloc)?;
    Ok(ServerSetup {
        config,
        media,
        names,
    })
}
