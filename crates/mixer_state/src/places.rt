//! The entries of the places of all channels.
ghost use Rattle.std.specs.Prelude.{◌≡◌, ℕ, ◌+◌, ◌-◌, ◌<◌, ◌≤◌, All, IfOk, IsOk, IsSome, None, OnErr, OnOk, Some, length};
ghost use Rattle.std.specs.Option.{option_copied};
ghost use Rattle.play_types.specs.Place.{PlaceView};
ghost use Rattle.play_types.specs.Scene.{IsConfigured};
ghost use Rattle.history_model.specs.stage.Trail.{channel_swapped_place, swapped_place};
ghost use Rattle.mixer_state.specs.Entries.{course_at, courses_or, table_of};
ghost use Rattle.mixer_state.specs.inner.Changes.{with_entry, with_setting, with_settings, without_channel};
ghost use Rattle.mixer_state.specs.Found.{HaveRoom, entries_of};
ghost use Rattle.mixer_state.specs.Kept.{AreOn};
ghost use Rattle.mixer_state.specs.Ranges.{AreRunning};

use crate::course::Course;
use crate::courses::Courses;
use crate::layers::Layers;
use play_types::{Place, Prop, Setting};
use std::alloc::{AllocError, Global};
use std::marker::Model;

/// The courses of each place that has an entry, of channels that count from 1. A place without an entry has all
/// properties at their defaults.
#[derive(Debug, Drop)]
pub(crate) struct Places {
    // One for each channel.
    channels: Vec<Layers>,
    // How many more entries of each channel memory is reserved for, at least.
    spare: usize,
}

impl Model for Places {
    ghost use Rattle.std.specs.Prelude.{length};
    ghost use Rattle.mixer_state.specs.Found.{HaveRoom, PlacesView, entries_of};

    ghost Value = { PlacesView };

    ghost view = { λ p. record { channels = length p.channels.items; spare = p.spare; entries = entries_of p.channels.items } };

    ghost invariant = { λ p. HaveRoom p.spare p.channels.items };
}

impl Places {
    /// Creates places of a number of channels, without entries.
    pub(crate) fn new(alloc: Global, channels: u8) -> Result<Places, AllocError>
        ensures channels { IfOk result (λ places. places.channels ≡ channels) }
        ensures entries { IfOk result (λ places. (place : PlaceView)
            → table_of places.entries place ≡ None) }
    {
        let mut list = Vec::with_capacity(alloc, usize::from(channels))?;
        for _channel in 0..channels {
            list.push_reserved(Layers::new(alloc));
        }
        Ok(Places {
            channels: list,
            spare: 0,
        })
    }

    /// Returns the course of a property of a place.
    pub(crate) fn course(&self, place: Place, prop: Prop) -> Course
        requires { IsConfigured self.now.channels place.channel }
        ensures { result ≡ course_at (table_of self.now.entries) place prop }
    {
        match self.get(place) {
            Some(courses) => courses.get(prop),
            None => Course::standing(prop),
        }
    }

    /// Starts a setting after `ticks` ticks. If memory runs out, all is as before.
    pub(crate) fn start(&mut self, setting: &Setting, ticks: u64) -> Result<(), AllocError>
        requires channel { IsConfigured self.old.channels setting.now.place.channel }
        requires running { AreRunning ticks (table_of self.old.entries) }
        ensures ok { OnOk result (table_of self.new.entries
            ≡ with_setting ticks (table_of self.old.entries) setting.now) }
        ensures running { AreRunning ticks (table_of self.new.entries) }
        ensures err { OnErr result (self.new.entries ≡ self.old.entries) }
        ensures channels { self.new.channels ≡ self.old.channels }
        ensures memory { 0 < self.old.spare → IsOk result }
        ensures spare { self.old.spare ≤ self.new.spare + 1 }
    {
        let place = setting.place();
        let courses = self.courses(place).after(setting, ticks);
        self.put(place, courses)?;
        Ok(())
    }

    /// Starts settings of a channel after `ticks` ticks, in their order. If memory runs out, all is as before.
    pub(crate) fn start_all(
        &mut self,
        channel: u8,
        settings: &[Setting],
        ticks: u64,
    ) -> Result<(), AllocError>
        requires channel { IsConfigured self.old.channels channel }
        requires on { AreOn channel settings.now }
        requires running { AreRunning ticks (table_of self.old.entries) }
        ensures ok { OnOk result (table_of self.new.entries
            ≡ with_settings ticks (table_of self.old.entries) settings.now) }
        ensures running { AreRunning ticks (table_of self.new.entries) }
        ensures err { OnErr result (self.new.entries ≡ self.old.entries) }
        ensures channels { self.new.channels ≡ self.old.channels }
        ensures memory { length settings.now ≤ self.old.spare → IsOk result }
        ensures spare { self.old.spare ≤ self.new.spare + length settings.now }
    {
        self.reserve(settings.len())?;
        for setting in settings {
            self.start(setting, ticks).unwrap();
        }
        Ok(())
    }

    /// Exchanges the entries of two places. If memory runs out, all is as before.
    pub(crate) fn swap(&mut self, a: Place, b: Place) -> Result<(), AllocError>
        requires a { IsConfigured self.old.channels a.channel }
        requires b { IsConfigured self.old.channels b.channel }
        ensures ok { OnOk result ((place : PlaceView)
            → table_of self.new.entries place ≡ table_of self.old.entries (swapped_place a b place)) }
        ensures err { OnErr result (self.new.entries ≡ self.old.entries) }
        ensures channels { self.new.channels ≡ self.old.channels }
        ensures memory { 0 < self.old.spare → IsOk result }
        ensures spare { self.old.spare ≤ self.new.spare + 1 }
    {
        match (self.get(a).copied(), self.get(b).copied()) {
            (None, None) => Ok(()),
            (Some(courses), None) => self.carry(courses, a, b),
            (None, Some(courses)) => self.carry(courses, b, a),
            (Some(first), Some(second)) => {
                self.replace(a, second);
                self.replace(b, first);
                Ok(())
            }
        }
    }

    /// Exchanges the entries of two channels.
    pub(crate) fn swap_channels(&mut self, a: u8, b: u8)
        requires a { IsConfigured self.old.channels a }
        requires b { IsConfigured self.old.channels b }
        ensures entries { (place : PlaceView)
            → table_of self.new.entries place
            ≡ table_of self.old.entries (channel_swapped_place a b place) }
        ensures channels { self.new.channels ≡ self.old.channels }
        ensures spare { self.new.spare ≡ self.old.spare }
    {
        self.channels.swap(usize::from(a) - 1, usize::from(b) - 1);
    }

    /// Removes the entry of a place, if it has one.
    pub(crate) fn remove(&mut self, place: Place)
        requires { IsConfigured self.old.channels place.channel }
        ensures entries { table_of self.new.entries
            ≡ with_entry place None (table_of self.old.entries) }
        ensures channels { self.new.channels ≡ self.old.channels }
        ensures spare { self.new.spare ≡ self.old.spare }
    {
        self.channels[usize::from(place.channel()) - 1].remove(place.layer());
    }

    /// Removes the entries of a channel.
    pub(crate) fn clear(&mut self, channel: u8)
        requires { IsConfigured self.old.channels channel }
        ensures entries { table_of self.new.entries
            ≡ without_channel channel (table_of self.old.entries) }
        ensures channels { self.new.channels ≡ self.old.channels }
        ensures spare { self.new.spare ≡ self.old.spare }
    {
        self.channels[usize::from(channel) - 1].clear();
    }

    /// Reserves memory for at least `count` more entries of each channel. If memory runs out, all is as before.
    pub(crate) fn reserve(&mut self, count: usize) -> Result<(), AllocError>
        ensures ok { OnOk result (count ≤ self.new.spare) }
        ensures entries { self.new.entries ≡ self.old.entries }
        ensures channels { self.new.channels ≡ self.old.channels }
        ensures memory { count ≤ self.old.spare → IsOk result }
        ensures spare { self.old.spare ≤ self.new.spare }
    {
        if count <= self.spare {
            return Ok(());
        }
        reserve_each(self.channels.as_mut_slice(), count)?;
        self.spare = count;
        Ok(())
    }

    /// Returns the entry of a place, `None` exactly if it has none.
    fn get(&self, place: Place) -> Option<&Courses>
        requires { IsConfigured self.now.channels place.channel }
        ensures { option_copied result ≡ table_of self.now.entries place }
    {
        self.channels[usize::from(place.channel()) - 1].get(place.layer())
    }

    /// Returns the courses of a place.
    fn courses(&self, place: Place) -> Courses
        requires { IsConfigured self.now.channels place.channel }
        ensures { result ≡ courses_or (table_of self.now.entries place) }
    {
        match self.get(place) {
            Some(courses) => *courses,
            None => Courses::standing(),
        }
    }

    /// Moves the entry of a place to another, which has none.
    fn carry(&mut self, courses: Courses, from: Place, to: Place) -> Result<(), AllocError>
        requires from { IsConfigured self.old.channels from.channel }
        requires to { IsConfigured self.old.channels to.channel }
        ensures ok { OnOk result (table_of self.new.entries
            ≡ with_entry from None (with_entry to (Some courses) (table_of self.old.entries))) }
        ensures err { OnErr result (self.new.entries ≡ self.old.entries) }
        ensures channels { self.new.channels ≡ self.old.channels }
        ensures memory { 0 < self.old.spare → IsOk result }
        ensures spare { self.old.spare ≤ self.new.spare + 1 }
    {
        self.put(to, courses)?;
        self.remove(from);
        Ok(())
    }

    /// Gives a place an entry, in place of the one that it has. If memory runs out, all is as before.
    fn put(&mut self, place: Place, courses: Courses) -> Result<(), AllocError>
        requires { IsConfigured self.old.channels place.channel }
        ensures ok { OnOk result (table_of self.new.entries
            ≡ with_entry place (Some courses) (table_of self.old.entries)) }
        ensures err { OnErr result (self.new.entries ≡ self.old.entries) }
        ensures channels { self.new.channels ≡ self.old.channels }
        ensures memory { 0 < self.old.spare → IsOk result }
        ensures spare { self.old.spare ≤ self.new.spare + 1 }
    {
        self.channels[usize::from(place.channel()) - 1].put(place.layer(), courses)?;
        self.spare = self.spare.saturating_sub(1);
        Ok(())
    }

    /// Replaces the entry of a place that has one.
    fn replace(&mut self, place: Place, courses: Courses)
        requires channel { IsConfigured self.old.channels place.channel }
        requires entry { IsSome (table_of self.old.entries place) }
        ensures entries { table_of self.new.entries
            ≡ with_entry place (Some courses) (table_of self.old.entries) }
        ensures channels { self.new.channels ≡ self.old.channels }
        ensures spare { self.new.spare ≡ self.old.spare }
    {
        self.channels[usize::from(place.channel()) - 1].replace(place.layer(), courses);
    }
}

/// Reserves memory for at least `count` more entries of each channel. If memory runs out, the entries are as before.
fn reserve_each(channels: &mut [Layers], count: usize) -> Result<(), AllocError>
    ensures ok { OnOk result (HaveRoom count channels.new) }
    ensures entries { entries_of channels.new ≡ entries_of channels.old }
    ensures len { length channels.new ≡ length channels.old }
    ensures room { (spare : ℕ) → HaveRoom spare channels.old → HaveRoom spare channels.new }
{
    for at in 0..channels.len() {
        channels[at].reserve(count)?;
    }
    Ok(())
}
