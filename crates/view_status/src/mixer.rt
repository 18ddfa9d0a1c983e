//! The mixer properties of a layer.
ghost use Rattle.std.specs.Prelude.{◌≡◌, ◌≤◌, ◌++◌, OnOk, flat_map, map, take};
ghost use Rattle.play_types.specs.Scene.{IsConfigured};
ghost use Rattle.play_types.specs.Words.{all_props};
ghost use Rattle.play_types.specs.declared.place.TheConstants.{MAX_CHANNELS};
ghost use Rattle.history_model.specs.stage.Answer.{number_count};
ghost use Rattle.history_model.specs.stage.Value.{default_of};
ghost use Rattle.view_status.specs.Mixer.{mixer_tokens, numbers_of, properties, property_tokens};
ghost use Rattle.view_status.specs.Status.{place_at};
ghost use Rattle.view_status.specs.Tokens.{signed};

use crate::document::Document;
use play_types::{MICROS_PER_UNIT, Place, Prop};
use stage_core::Stage;
use std::alloc::AllocError;

/// Writes the properties of a layer that are not the default, as an object. The channel is one of the stage.
pub(crate) fn write_mixer(
    stage: &Stage,
    channel: u8,
    layer: u16,
    document: &mut Document,
) -> Result<(), AllocError>
    requires channel { IsConfigured stage.now.channels channel }
    requires few { channel ≤ MAX_CHANNELS }
    ensures { OnOk result (document.new ≡ document.old ++ mixer_tokens stage.now.journal.events (place_at channel layer)) }
{
    document.begin_object()?;
    write_layer_properties(stage, channel, layer, document)?;
    document.end_object()
}

/// Writes the properties of a layer that are not the default, as members.
fn write_layer_properties(
    stage: &Stage,
    channel: u8,
    layer: u16,
    document: &mut Document,
) -> Result<(), AllocError>
    requires channel { IsConfigured stage.now.channels channel }
    requires few { channel ≤ MAX_CHANNELS }
    ensures { OnOk result (document.new ≡ document.old
        ++ flat_map (λ tokens. tokens) (properties stage.now.journal.events (place_at channel layer))) }
{
    match Place::new(channel, layer) {
        Some(place) => write_properties(stage, place, document),
        None => Ok(()),
    }
}

/// Writes the properties of a place that are not the default, as members.
fn write_properties(stage: &Stage, place: Place, document: &mut Document) -> Result<(), AllocError>
    requires { IsConfigured stage.now.channels place.channel }
    ensures { OnOk result (document.new ≡ document.old ++ flat_map (λ tokens. tokens)
        (map (λ prop. property_tokens prop (numbers_of stage.now.journal.events place prop)) all_props)) }
{
    write_property(stage, place, Prop::Opacity, document)?;
    write_property(stage, place, Prop::Fill, document)?;
    write_property(stage, place, Prop::Clip, document)?;
    write_property(stage, place, Prop::Volume, document)?;
    write_property(stage, place, Prop::Keyer, document)
}

/// Writes a property as a member, unless it is the default.
fn write_property(
    stage: &Stage,
    place: Place,
    prop: Prop,
    document: &mut Document,
) -> Result<(), AllocError>
    requires { IsConfigured stage.now.channels place.channel }
    ensures { OnOk result (document.new ≡ document.old
        ++ property_tokens prop (numbers_of stage.now.journal.events place prop)) }
{
    let micros = stage.mixer_value(place, prop);
    let values = micros.values();
    let numbers = &values[..usize::from(micros.count())];
    if numbers == default_numbers(prop) {
        return Ok(());
    }
    document.key(prop.as_str())?;
    document.begin_array()?;
    write_numbers(numbers, document)?;
    document.end_array()
}

/// Writes numbers, one after another.
fn write_numbers(numbers: &[i64], document: &mut Document) -> Result<(), AllocError>
    ensures { OnOk result (document.new ≡ document.old ++ flat_map signed numbers.now) }
{
    for number in numbers {
        document.signed(*number)?;
    }
    Ok(())
}

/// Returns the numbers of a property without any setting, in millionths.
fn default_numbers(prop: Prop) -> &'static [i64]
    ensures { result.now ≡ take (number_count prop) (default_of prop) }
{
    match prop {
        Prop::Opacity | Prop::Volume => &[MICROS_PER_UNIT],
        Prop::Fill | Prop::Clip => &[0, 0, MICROS_PER_UNIT, MICROS_PER_UNIT],
        Prop::Keyer => &[0],
    }
}
