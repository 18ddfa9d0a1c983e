//! The channels of a configuration.
ghost use Rattle.std.specs.Prelude.{◌≡◌, ◌≤◌, length, IfOk, IfSome, option_map, unwrap_or};
ghost use Rattle.play_types.specs.declared.place.TheConstants.{MAX_CHANNELS};
ghost use Rattle.toml.specs.Data.{as_table, no_members};
ghost use Rattle.toml.specs.View.{items_view, table_view, view};
ghost use Rattle.config_file.specs.Configuration.{channel_of, channels_of, element_faults, elements_of, list_of, of_each, unknown_of_element};
ghost use Rattle.config_file.specs.Key.{channel_keys};
ghost use Rattle.config_file.specs.Section.{faults_in};
ghost use Rattle.config_file.specs.inner.Told.{IsTold};

use crate::defaults::DEFAULT_PAIRS;
use crate::fault::ConfigFault;
use crate::section::{Section, SectionReader};
use play_types::{Channel, ChannelList, MAX_CHANNELS, MAX_PAIRS, MAX_SIDE};
use std::alloc::Global;
use toml::Value;

/// Reads the channels of the elements, in their order.
pub(crate) fn read_channels(alloc: Global, elements: &[Value]) -> Result<ChannelList, ConfigFault>
    ensures told { IsTold (of_each element_faults 1 (list_of (items_view elements.now)))
        (channels_of (list_of (items_view elements.now))) result }
    ensures len { IfOk result (λ channels. length channels ≡ length elements.now) }
{
    let mut channels = ChannelList::new(alloc);
    for (index, element) in elements.iter().enumerate() {
        let channel = read_element(alloc, index + 1, element)?;
        channels.push(channel)?;
    }
    Ok(channels)
}

/// Refuses the least unknown key of the first element that has one.
pub(crate) fn check_elements(alloc: Global, elements: &[Value]) -> Result<(), ConfigFault>
    ensures { IsTold (of_each unknown_of_element 1 (list_of (items_view elements.now))) tt result }
{
    for (index, element) in elements.iter().enumerate() {
        check_element(alloc, index + 1, element)?;
    }
    Ok(())
}

/// Reads the channel of an element, whose number is counted from 1.
fn read_element(alloc: Global, number: usize, element: &Value) -> Result<Channel, ConfigFault>
    ensures { IsTold (element_faults number (as_table (view element.now)))
        (channel_of (unwrap_or (as_table (view element.now)) no_members)) result }
{
    match element.as_table() {
        Some(table) => SectionReader {
            alloc,
            section: Section::Channel(number),
            table,
        }
        .channel(),
        None => Err(ConfigFault::at_channel(alloc, number)),
    }
}

/// Refuses the least unknown key of an element that is a table.
fn check_element(alloc: Global, number: usize, element: &Value) -> Result<(), ConfigFault>
    ensures { IsTold (unknown_of_element number (as_table (view element.now))) tt result }
{
    match element.as_table() {
        Some(table) => SectionReader {
            alloc,
            section: Section::Channel(number),
            table,
        }
        .check_keys(),
        None => Ok(()),
    }
}

impl<'a> SectionReader<'a> {
    /// Returns the elements of `channel`, if it is an array of 1 to 16.
    pub(crate) fn elements(&self) -> Option<&'a [Value]>
        ensures elements { option_map (λ v. list_of (items_view v.now)) result ≡ elements_of (table_view self.now.table.now) }
        ensures few { IfSome result (λ v. (1 ≤ length v.now) × (length v.now ≤ MAX_CHANNELS)) }
    {
        let elements = self.value("channel")?.as_array()?.as_slice();
        if !(1..=MAX_CHANNELS).contains(&elements.len()) {
            return None;
        }
        Some(elements)
    }

    /// Reads the channel of the table.
    fn channel(&self) -> Result<Channel, ConfigFault>
        ensures { IsTold (faults_in self.now.section channel_keys (table_view self.now.table.now)) (channel_of (table_view self.now.table.now)) result }
    {
        let width = self.number("width", 1, u32::from(MAX_SIDE), None)?;
        let height = self.number("height", 1, u32::from(MAX_SIDE), None)?;
        let pairs = self.number("pairs", 0, u32::from(MAX_PAIRS), Some(DEFAULT_PAIRS))?;
        let output = self.text("output")?;
        Ok(Channel::new(width as u16, height as u16, pairs as u16, output).unwrap())
    }
}
