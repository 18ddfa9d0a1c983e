//! Values at the keys of a table, in their ranges.
ghost use Rattle.std.specs.Prelude.{◌≡◌, ◌<◌, ◌≤◌, length, option_map, [], ◌∷◌, IfOk, IfSome};
ghost use Rattle.std.specs.Str.{chars};
ghost use Rattle.toml.specs.Data.{get_member};
ghost use Rattle.toml.specs.View.{table_view, view};
ghost use Rattle.config_file.specs.Key.{Key, is_kept, number, number_at, number_of, text, text_at, text_of};
ghost use Rattle.config_file.specs.Section.{fault_in, name_in};
ghost use Rattle.config_file.specs.inner.Told.{IsFirst, IsRead, IsTold, ranged};

use crate::fault::ConfigFault;
use play_types::Text;
use std::alloc::{AllocError, Global};
use toml::{Table, Value};

/// The table that a key is in.
#[derive(Clone, Copy, Debug)]
pub(crate) enum Section {
    /// The top table.
    Top,
    /// The table of a channel. Channels are counted from 1.
    Channel(usize),
}

/// Reads the keys of one table. A key that is refused is named with its section.
#[derive(Clone, Copy)]
pub(crate) struct SectionReader<'a> {
    pub(crate) alloc: Global,
    pub(crate) section: Section,
    pub(crate) table: &'a Table,
}

impl<'a> SectionReader<'a> {
    /// Reads the text at a key, which may not be empty.
    pub(crate) fn text(&self, key: &str) -> Result<Text, ConfigFault>
        ensures told { let wanted : Key = record { name = key.now; rule = text } in
            IsTold (fault_in self.now.section (table_view self.now.table.now) wanted) (text_at wanted (table_view self.now.table.now)) result }
        ensures some { IfOk result (λ t. 0 < length t) }
    {
        match self.string(key) {
            Some(text) => Ok(copy_of(self.alloc, text)?),
            None => Err(self.fault(key)),
        }
    }

    /// Reads the integer at a key, from `least` to `greatest`, or returns the default if there is no such key.
    pub(crate) fn number(
        &self,
        key: &str,
        least: u32,
        greatest: u32,
        default: Option<u32>,
    ) -> Result<u32, ConfigFault>
        requires { IfSome default (λ d. (least ≤ d) × (d ≤ greatest)) }
        ensures told { let wanted : Key = record { name = key.now; rule = number least greatest default } in
            IsTold (fault_in self.now.section (table_view self.now.table.now) wanted) (number_at wanted (table_view self.now.table.now)) result }
        ensures range { IfOk result (λ n. (least ≤ n) × (n ≤ greatest)) }
    {
        match self.integer(key, least, greatest, default) {
            Some(number) => Ok(number),
            None => Err(self.fault(key)),
        }
    }

    /// Returns the value at a key.
    pub(crate) fn value(&self, key: &str) -> Option<&'a Value>
        ensures { option_map (λ v. view v.now) result ≡ get_member key.now (table_view self.now.table.now) }
    {
        self.table.get(key)
    }

    /// Returns the string at a key, if it is not empty.
    fn string(&self, key: &str) -> Option<&'a str>
        ensures read { let value = get_member key.now (table_view self.now.table.now) in
            IsRead (is_kept text value) (text_of value) (option_map (λ s. chars s.now) result) }
        ensures some { IfSome result (λ s. 0 < length s.now) }
    {
        let text = self.value(key)?.as_str()?;
        if text.is_empty() {
            return None;
        }
        Some(text)
    }

    /// Returns the integer at a key, if it is from `least` to `greatest`, or the default if there is no such key.
    fn integer(&self, key: &str, least: u32, greatest: u32, default: Option<u32>) -> Option<u32>
        requires { IfSome default (λ d. (least ≤ d) × (d ≤ greatest)) }
        ensures read { let value = get_member key.now (table_view self.now.table.now) in
            let rule = number least greatest default in
            IsRead (is_kept rule value) (number_of rule value) result }
        ensures range { IfSome result (λ n. (least ≤ n) × (n ≤ greatest)) }
    {
        match self.value(key) {
            Some(value) => in_range(value.as_integer()?, least, greatest),
            None => default,
        }
    }

    /// Returns the fault at a key.
    pub(crate) fn fault(&self, key: &str) -> ConfigFault
        ensures { IsFirst (name_in self.now.section key.now ∷ []) result }
    {
        match self.section {
            Section::Top => ConfigFault::at(self.alloc, key),
            Section::Channel(number) => match format!(in self.alloc; "channel.{number}.{key}") {
                Ok(name) => ConfigFault::at(self.alloc, name.as_str()),
                Err(_) => ConfigFault::OutOfMemory,
            },
        }
    }
}

/// Copies a text that is not empty.
fn copy_of(alloc: Global, text: &str) -> Result<Text, AllocError>
    requires { 0 < length text.now }
    ensures value { IfOk result (λ t. t ≡ chars text.now) }
    ensures some { IfOk result (λ t. 0 < length t) }
{
    Text::copy(alloc, text)
}

/// Returns the integer as a `u32`, if it is from `least` to `greatest`.
fn in_range(integer: i64, least: u32, greatest: u32) -> Option<u32>
    ensures value { result ≡ ranged least greatest integer }
    ensures range { IfSome result (λ n. (least ≤ n) × (n ≤ greatest)) }
{
    let number = u32::try_from(integer).ok()?;
    if number < least || greatest < number {
        return None;
    }
    Some(number)
}
