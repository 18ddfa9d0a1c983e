//! Calls that allocate, with ample memory, and values worked out by hand.
ghost use Rattle.std.specs.Prelude.{◌≡◌, IfOk};

use mixer_state::Mixer;
use play_types::{Curve, Place, Prop, Setting};
use std::alloc::Global;
use std::test::Fail;

/// Returns a layer of channel 1.
fn layer(layer: u16) -> Result<Place, Fail>
    ensures { IfOk result (λ place. place.channel ≡ 1) }
{
    match Place::new(1, layer) {
        Some(place) => Ok(place),
        None => Err("a layer of a channel")?,
    }
}

/// Returns a setting of the opacity of a place, in millionths, that takes `duration` ticks.
fn opacity(place: Place, value: i64, duration: u32) -> Result<Setting, Fail>
    ensures { IfOk result (λ setting. setting.place ≡ place) }
{
    let values = [value, 0, 0, 0];
    match Setting::new(place, Prop::Opacity, values, duration, Curve::Linear, false) {
        Some(setting) => Ok(setting),
        None => Err("a setting in its range")?,
    }
}

#[test]
fn settings_tween_wait_and_swap_as_by_hand(rt: HostRuntime) -> Result<(), Fail> {
    let alloc = rt.alloc();
    let one = layer(1)?;
    let two = layer(2)?;
    let mut mixer = Mixer::new(alloc, 1)?;
    mixer.set(alloc, &opacity(one, 0, 4)?, 0)?;
    for (ticks, expected) in [
        (0, 1_000_000),
        (1, 750_000),
        (2, 500_000),
        (3, 250_000),
        (4, 0),
    ] {
        if mixer.value(one, Prop::Opacity, ticks).values() != [expected, 0, 0, 0] {
            return Err("the opacity on its way to 0")?;
        }
    }
    mixer.reserve(alloc, 1)?;
    if !mixer.defer(&opacity(one, 500_000, 0)?) || mixer.waiting(1) != 1 {
        return Err("a setting that waits")?;
    }
    mixer.swap_layers(alloc, one, two)?;
    mixer.commit(alloc, 1, 1)?;
    if mixer.value(one, Prop::Opacity, 1).values() != [500_000, 0, 0, 0] {
        return Err("the setting that waited, at the place that it names")?;
    }
    if mixer.value(two, Prop::Opacity, 1).values() != [750_000, 0, 0, 0] {
        return Err("the opacity on its way, at the other place")?;
    }
    Ok(())
}
