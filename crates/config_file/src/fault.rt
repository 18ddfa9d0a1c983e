//! Why a configuration is refused.
ghost use Rattle.config_file.specs.Section.{channel_name};
ghost use Rattle.config_file.specs.inner.Told.{IsFirst};
ghost use Rattle.config_file.specs.declared.fault.ConfigFault.TheVariants.{OutOfMemory};
ghost use Rattle.std.specs.Prelude.{◌≡◌, [], ◌∷◌};

use play_types::Text;
use std::alloc::{AllocError, Global};
use std::error::Error;
use std::fmt;

/// Why bytes are refused as a configuration.
#[derive(Debug, Drop)]
pub enum ConfigFault {
    /// The bytes are not UTF-8, or the text is not TOML. An integer that does not fit 64 bits makes it no TOML.
    NotToml,
    /// The key, as `rate` or `channel.1.width`, is missing, of another type, out of range or unknown.
    Key(Text),
    /// Memory ran out.
    OutOfMemory,
}

impl fmt::Display for ConfigFault {
    fn fmt<W: fmt::Write>(&self, f: &mut fmt::Formatter<W>) -> fmt::Result {
        match self {
            ConfigFault::NotToml => write!(f, "the text is not TOML"),
            ConfigFault::Key(name) => {
                let name = name.as_str();
                write!(
                    f,
                    "the key {name} is missing, unknown, of another type or out of range"
                )
            }
            ConfigFault::OutOfMemory => write!(f, "out of memory"),
        }
    }
}

impl Error for ConfigFault {}

impl From<AllocError> for ConfigFault {
    ghost from_gives = { λ _ fault. fault ≡ OutOfMemory };

    fn from(_error: AllocError) -> ConfigFault {
        ConfigFault::OutOfMemory
    }
}

impl ConfigFault {
    /// Returns the fault at the key of this name.
    pub(crate) fn at(alloc: Global, name: &str) -> ConfigFault
        ensures { IsFirst (name.now ∷ []) result }
    {
        match Text::copy(alloc, name) {
            Ok(name) => ConfigFault::Key(name),
            Err(_) => ConfigFault::OutOfMemory,
        }
    }

    /// Returns the fault at the whole channel of this number.
    pub(crate) fn at_channel(alloc: Global, number: usize) -> ConfigFault
        ensures { IsFirst (channel_name number ∷ []) result }
    {
        match format!(in alloc; "channel.{number}") {
            Ok(name) => ConfigFault::at(alloc, name.as_str()),
            Err(_) => ConfigFault::OutOfMemory,
        }
    }
}
