//! Keys that are not known.
ghost use Rattle.std.specs.Prelude.{◌≡◌, option_map};
ghost use Rattle.toml.specs.View.{table_view};
ghost use Rattle.config_file.specs.Section.{is_among, known_names, unknown_in, unknown_of};
ghost use Rattle.config_file.specs.inner.Told.{IsTold};

use crate::fault::ConfigFault;
use crate::section::{Section, SectionReader};

impl<'a> SectionReader<'a> {
    /// Refuses the least key of the table that is not known, in the order of bytes.
    pub(crate) fn check_keys(&self) -> Result<(), ConfigFault>
        ensures { IsTold (unknown_in self.now.section (table_view self.now.table.now)) tt result }
    {
        match self.unknown_key() {
            Some(key) => Err(self.fault(key)),
            None => Ok(()),
        }
    }

    /// Returns the least key of the table that is not known.
    fn unknown_key(&self) -> Option<&'a str>
        ensures { option_map (λ k. k.now) result ≡ unknown_of self.now.section (table_view self.now.table.now) }
    {
        for key in self.table.keys() {
            if !self.section.is_known(key.as_str()) {
                return Some(key.as_str());
            }
        }
        None
    }
}

impl Section {
    /// Returns whether the table of this section may have a key of this name.
    fn is_known(self, key: &str) -> bool
        ensures { result ≡ is_among (known_names self) key.now }
    {
        match self {
            Section::Top => matches!(
                key,
                "listen" | "media" | "rate" | "connections" | "journal_limit" | "channel"
            ),
            Section::Channel(_) => matches!(key, "width" | "height" | "pairs" | "output"),
        }
    }
}
