//! The whole configuration.
ghost use Rattle.toml.specs.View.{table_view};
ghost use Rattle.config_file.specs.Configuration.{faults_of, values_of};
ghost use Rattle.config_file.specs.Reading.{IsReadOf};
ghost use Rattle.config_file.specs.inner.Told.{IsTold};

use crate::channels::{check_elements, read_channels};
use crate::defaults::{DEFAULT_CONNECTIONS, DEFAULT_JOURNAL_LIMIT};
use crate::fault::ConfigFault;
use crate::section::{Section, SectionReader};
use play_types::{Config, MAX_CONNECTIONS, MAX_JOURNAL_COMMANDS, MAX_RATE};
use std::alloc::Global;
use toml::Table;

/// Reads the configuration in the bytes of a file.
///
/// The text is TOML with the keys `listen`, `media`, `rate`, `connections`, `journal_limit` and `channel`, which is an
/// array of 1 to 16 tables with the keys `width`, `height`, `pairs` and `output`. `listen`, `media` and `output` are
/// strings that are not empty. `rate` is 1 to 240 pulses a second, `connections` 1 to 64, by default 4, and
/// `journal_limit` 1 to 16,777,216, by default 4,194,304. `width` and `height` are 1 to 4,096, and `pairs` 0 to 4,096,
/// by default 0.
///
/// `NotToml` is returned exactly if the bytes are not UTF-8 or the text is not TOML. `Key` names the first key that is
/// missing, of another type or out of range in the order above, all keys of one channel before the next channel, and an
/// element of `channel` that is no table as `channel.n`, counted from 1. After all these it names the least unknown key
/// of the top table in the order of bytes, and then the least unknown key of the first channel that has one, as
/// `channel.n.key`.
pub fn read_config(alloc: Global, bytes: &[u8]) -> Result<Config, ConfigFault>
    ensures { IsReadOf bytes.now result }
{
    match toml::table_from_slice(alloc, bytes) {
        Ok(table) => config_of(alloc, &table),
        Err(fault) => {
            if fault.is_memory() {
                Err(ConfigFault::OutOfMemory)
            } else {
                Err(ConfigFault::NotToml)
            }
        }
    }
}

/// Returns the configuration of the top table.
fn config_of(alloc: Global, table: &Table) -> Result<Config, ConfigFault>
    ensures { IsTold (faults_of (table_view table.now)) (values_of (table_view table.now)) result }
{
    let top = SectionReader {
        alloc,
        section: Section::Top,
        table,
    };
    let listen = top.text("listen")?;
    let media = top.text("media")?;
    let rate = top.number("rate", 1, MAX_RATE, None)?;
    let workers = Some(DEFAULT_CONNECTIONS);
    let connections = top.number("connections", 1, MAX_CONNECTIONS, workers)?;
    let most = Some(DEFAULT_JOURNAL_LIMIT);
    let limit = top.number("journal_limit", 1, MAX_JOURNAL_COMMANDS, most)?;
    let Some(elements) = top.elements() else {
        return Err(top.fault("channel"));
    };
    let channels = read_channels(alloc, elements)?;
    top.check_keys()?;
    check_elements(alloc, elements)?;
    Ok(Config::new(listen, media, rate, connections, limit, channels).unwrap())
}
