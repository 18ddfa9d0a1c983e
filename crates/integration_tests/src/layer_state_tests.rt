//! What the ticks of a layer show, in a table that was worked out by hand.
mod contents;
mod lives;
mod starts;
mod transitions;

use contents::{LOADS_AND_PLAYS, PAUSES_AND_STOPS, PICTURES};
use layer_state::{Layer, Shown};
use lives::{Asked, Life, Source, Step};
use play_types::{Curve, Kind, MAX_TICKS, Spec, Take, Trans};
use starts::{AUTOMATIC_STARTS, DUE_STARTS};
use std::test::Fail;
use transitions::{BROKEN_TRANSITIONS, TRANSITIONS};

/// Returns the producer as a take names it.
fn spec_of(source: Source) -> Spec {
    match source {
        Source::Red => Spec::Colour(0xFFFF_0000),
        Source::Blue => Spec::Colour(0xFF00_00FF),
        Source::Clip => Spec::Clip(1),
        Source::Other => Spec::Clip(2),
        Source::Route => Spec::RouteChannel(1),
    }
}

/// Returns the take that is asked for.
fn take_of(asked: Asked) -> Result<Take, Fail> {
    let kind = if asked.mix == 0 { Kind::Cut } else { Kind::Mix };
    let trans = Trans::new(kind, asked.mix, Curve::Linear, false).ok_or("a transition")?;
    let spec = spec_of(asked.source);
    let take = Take::new(
        spec,
        asked.looped,
        asked.seek,
        asked.length,
        trans,
        asked.auto,
    );
    Ok(take.ok_or("a take")?)
}

/// Lets a tick pass. The foreground of the layer has to be shown for fewer ticks than a history may have.
fn tick(layer: &mut Layer) -> Result<Shown, Fail> {
    if let Some(front) = layer.front()
        && front.shown >= MAX_TICKS
    {
        return Err("a foreground that was shown for too many ticks")?;
    }
    Ok(layer.tick())
}

/// Lets a tick pass, and returns whether it shows these pictures and this step of the transition.
fn tick_shows(
    layer: &mut Layer,
    now: Option<(Source, u32)>,
    old: Option<(Source, u32)>,
    step: u32,
) -> Result<bool, Fail> {
    let shown = tick(layer)?;
    let now = now.map(|(source, frame)| (spec_of(source), frame));
    let old = old.map(|(source, frame)| (spec_of(source), frame));
    Ok(shown.now == now && shown.old == old && shown.step == step)
}

/// Takes a step, and returns whether its ticks show what the table says.
fn take_step(layer: &mut Layer, step: Step) -> Result<bool, Fail> {
    let mut as_expected = true;
    match step {
        Step::Load(asked) => layer.load(take_of(asked)?),
        Step::LoadBg(asked) => layer.load_bg(take_of(asked)?),
        Step::Start(asked) => {
            layer.load_bg(take_of(asked)?);
            layer.play();
        }
        Step::Play => layer.play(),
        Step::Pause => layer.pause(),
        Step::Resume => layer.resume(),
        Step::Stop => layer.stop(),
        Step::Clear => layer.clear(),
        Step::Nothing(ticks) => {
            for _ in 0..ticks {
                as_expected &= tick_shows(layer, None, None, 0)?;
            }
        }
        Step::Shows(source, frames) => {
            for frame in frames {
                as_expected &= tick_shows(layer, Some((source, *frame)), None, 0)?;
            }
        }
        Step::ComesIn(source, steps) => {
            for step in steps {
                as_expected &= tick_shows(layer, Some((source, 0)), None, *step)?;
            }
        }
        Step::Mixes(source, old, ticks) => {
            for (frame, old_frame, step) in ticks {
                let old = Some((old, *old_frame));
                as_expected &= tick_shows(layer, Some((source, *frame)), old, *step)?;
            }
        }
    }
    Ok(as_expected)
}

/// Returns the name of the first life with a tick that shows something else than the table says, and the index of that step in it.
fn first_wrong(lives: &[Life]) -> Result<Option<(&'static str, usize)>, Fail> {
    for life in lives {
        let mut layer = Layer::new();
        for (at, step) in life.steps.iter().enumerate() {
            if !take_step(&mut layer, *step)? {
                return Ok(Some((life.name, at)));
            }
        }
    }
    Ok(None)
}

#[test]
fn a_content_shows_its_frames(rt: HostRuntime) -> Result<(), Fail> {
    assert_eq!(rt; first_wrong(&PICTURES)?, None);
    Ok(())
}

#[test]
fn load_and_play_show_their_producer(rt: HostRuntime) -> Result<(), Fail> {
    assert_eq!(rt; first_wrong(&LOADS_AND_PLAYS)?, None);
    Ok(())
}

#[test]
fn pause_holds_and_stop_empties(rt: HostRuntime) -> Result<(), Fail> {
    assert_eq!(rt; first_wrong(&PAUSES_AND_STOPS)?, None);
    Ok(())
}

#[test]
fn a_background_with_auto_starts_by_itself(rt: HostRuntime) -> Result<(), Fail> {
    assert_eq!(rt; first_wrong(&AUTOMATIC_STARTS)?, None);
    Ok(())
}

#[test]
fn an_automatic_start_comes_when_it_is_due(rt: HostRuntime) -> Result<(), Fail> {
    assert_eq!(rt; first_wrong(&DUE_STARTS)?, None);
    Ok(())
}

#[test]
fn transitions_show_their_steps(rt: HostRuntime) -> Result<(), Fail> {
    assert_eq!(rt; first_wrong(&TRANSITIONS)?, None);
    Ok(())
}

#[test]
fn a_command_holds_or_ends_a_transition(rt: HostRuntime) -> Result<(), Fail> {
    assert_eq!(rt; first_wrong(&BROKEN_TRANSITIONS)?, None);
    Ok(())
}
