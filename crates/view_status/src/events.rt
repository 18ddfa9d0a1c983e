//! The events of a history.
ghost use Rattle.std.specs.Prelude.{◌≡◌, ◌++◌, ◌≤◌, IfOk, OnOk, flat_map};
ghost use Rattle.json.specs.Print.{print};
ghost use Rattle.view_status.specs.Events.{event_tokens, events_tokens, listed_events};

use crate::document::Document;
use crate::lines::write_text;
use crate::place::Place;
use crate::timecode::write_time;
use play_journal::Journal;
use play_types::{Event, MediaNames};
use std::alloc::{AllocError, Global};

/// The most events of a document.
pub const MAX_EVENTS: usize = 1_000;

/// How events are listed.
#[derive(Clone, Copy)]
struct Listing<'a> {
    names: &'a MediaNames,
    rate: u32,
    after: u64,
}

/// Returns the events of a journal that are no ticks, from the position `after` on, as a document of JSON.
///
/// It is an array of at most [`MAX_EVENTS`] objects, in the order of the history. An event has its position, which is the number of
/// events before it, ticks too, the number of ticks before it, the time of these as `HH:MM:SS:FF`, of `rate` pulses per second, at least 1,
/// and its lines in the text of a history, in which clips are named as in `names`, with bytes that are no UTF-8 as U+FFFD. An error says
/// that memory ran out.
#[tactic(auto, unfolding(crate::specs::Events::events_tokens))]
pub fn events_json(
    alloc: Global,
    journal: &Journal,
    names: &MediaNames,
    rate: u32,
    after: u64,
) -> Result<Vec<u8>, AllocError>
    requires rate { 1 ≤ rate }
    ensures { IfOk result (λ bytes. bytes.items ≡ print (events_tokens names.now rate after journal.now.events)) }
{
    let listing = Listing { names, rate, after };
    let mut document = Document::new(alloc);
    document.begin_array()?;
    write_events(alloc, journal, listing, &mut document)?;
    document.end_array()?;
    Ok(document.into_bytes())
}

/// Writes the events that are listed, one after another.
fn write_events(
    alloc: Global,
    journal: &Journal,
    listing: Listing<'_>,
    document: &mut Document,
) -> Result<(), AllocError>
    requires { 1 ≤ listing.rate }
    ensures { OnOk result (document.new ≡ document.old
        ++ flat_map (event_tokens listing.entry.names.now listing.entry.rate) (listed_events listing.entry.after journal.now.events)) }
{
    // The commands held and the ticks bound the number of events.
    let _held = journal.held();
    let mut place = Place::first();
    let mut room = MAX_EVENTS;
    for run in journal.events() {
        let at = place;
        place = at.after(run.event, run.times);
        if !at.lists(run.event, listing.after) {
            continue;
        }
        if room == 0 {
            return Ok(());
        }
        write_event(alloc, run.event, at, listing, document)?;
        room -= 1;
    }
    Ok(())
}

/// Writes an event as an object.
#[tactic(auto, unfolding(crate::specs::Events::event_tokens))]
fn write_event(
    alloc: Global,
    event: &Event,
    place: Place,
    listing: Listing<'_>,
    document: &mut Document,
) -> Result<(), AllocError>
    requires { 1 ≤ listing.rate }
    ensures { OnOk result (document.new ≡ document.old ++ event_tokens listing.entry.names.now listing.entry.rate
        (record { position = place.position; tick = place.tick; event = event.now })) }
{
    document.begin_object()?;
    document.whole_member("position", place.position)?;
    document.whole_member("tick", place.tick)?;
    write_time(alloc, "timecode", listing.rate, place.tick, document)?;
    write_text(alloc, event, listing.names, document)?;
    document.end_object()
}
