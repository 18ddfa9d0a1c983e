//! The statuses of the channels.
ghost use Rattle.std.specs.Prelude.{◌≡◌, ◌≤◌, filter_map, length, map};
ghost use Rattle.play_types.specs.Answer.{status_list_of};
ghost use Rattle.play_types.specs.declared.place.TheConstants.{MAX_CHANNELS};
ghost use Rattle.history_model.specs.stage.Answer.{status_of};
ghost use Rattle.history_model.specs.stage.Places.{Places};
ghost use Rattle.history_model.specs.stage.StageHistory.{foreground_of};

use crate::channels::LivePlaces;
use play_types::{MAX_CHANNELS, Status, StatusList};

/// Returns the status of each channel.
pub(crate) fn statuses(places: &LivePlaces) -> StatusList
    requires { length places.now ≤ MAX_CHANNELS }
    ensures { result
        ≡ status_list_of (map (λ (one : Places). status_of (filter_map foreground_of one)) places.now) (length places.now) }
{
    let count = places.count() as u8;
    let mut channels = [Status::Empty; MAX_CHANNELS];
    for at in 0..count {
        channels[usize::from(at)] = places.channel(at + 1).status();
    }
    StatusList::new(channels, count).unwrap()
}
