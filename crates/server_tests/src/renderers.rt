//! Two channels that show each other, with ample memory. The bytes were worked out by hand.
ghost use Rattle.std.specs.Prelude.{◌≡◌, ◌↔◌, IfOk, IsTrue, length};
ghost use Rattle.play_types.specs.Scene.{ShowsConfigured};

use band_render::{OpenGate, Renderer};
use clip_format::MediaTable;
use play_types::{
    Channel, ChannelList, Config, Drawn, MAX_LIVE_LAYERS, Scenes, Still, Text, Trans,
};
use std::alloc::Global;
use std::test::Fail;
use std::thread::Threads;

/// Red with an alpha of 128.
const HALF_RED: Still = Still::Colour(0x80FF_0000);

/// Returns a configuration of two channels of one pixel and three pairs.
fn config(alloc: Global) -> Result<Config, Fail> {
    let mut channels = ChannelList::new(alloc);
    for _ in 0..2 {
        channels.push(Channel::new(1, 1, 3, Text::copy(alloc, "o")?).ok_or("a channel")?)?;
    }
    let listen = Text::copy(alloc, "l")?;
    let media = Text::copy(alloc, "m")?;
    Ok(Config::new(listen, media, 25, 1, 1, channels).ok_or("a configuration")?)
}

/// Returns whether a still shows no channel, or one of `channels` channels.
pub(crate) fn is_there(still: Still, channels: u8) -> bool
    ensures { IsTrue result ↔ ShowsConfigured channels still }
{
    match still {
        Still::Nothing | Still::Colour(_) | Still::Frame(_, _) => true,
        Still::Channel(channel) => 1 <= channel && channel <= channels,
    }
}

/// Adds a layer that fills a scene, if the channel that it shows is configured.
fn add(scenes: &mut Scenes, channel: u8, still: Still)
    ensures { length scenes.new ≡ length scenes.old }
{
    let drawn = Drawn {
        still,
        old: Still::Nothing,
        trans: Trans::cut(),
        step: 0,
        opacity: 1_000_000,
        fill: [0, 0, 1_000_000, 1_000_000],
        clip: [0, 0, 1_000_000, 1_000_000],
        volume: 1_000_000,
        keyer: false,
    };
    let channels = scenes.channels();
    if channel == 0 || channel > channels || !is_there(still, channels) {
        return;
    }
    if scenes.scene(channel).drawn().len() < MAX_LIVE_LAYERS {
        scenes.push(channel, drawn);
    }
}

/// Returns the scenes of a configuration of two channels.
fn two_scenes(alloc: Global, config: &Config) -> Result<Scenes, Fail>
    ensures two { IfOk result (λ scenes. length scenes ≡ 2) }
    ensures all { IfOk result (λ scenes. length scenes ≡ length config.now.channels) }
{
    let scenes = Scenes::new(alloc, config)?;
    if scenes.channels() != 2 {
        return Err(Fail::from("two channels"));
    }
    Ok(scenes)
}

/// Returns the scenes and a renderer of two channels.
fn two_channels(alloc: Global) -> Result<(Scenes, Renderer), Fail>
    ensures { IfOk result (λ both. (length both.0 ≡ 2) × (length both.1 ≡ 2)) }
{
    let config = config(alloc)?;
    let scenes = two_scenes(alloc, &config)?;
    let renderer = Renderer::new(alloc, &config, 64)?;
    Ok((scenes, renderer))
}

/// Renders a tick, and returns whether the two channels then have these frames.
fn shows<R: Threads + Sync>(
    rt: &R,
    renderer: &mut Renderer,
    scenes: &Scenes,
    media: &MediaTable,
    first: [u8; 4],
    second: [u8; 4],
) -> bool
    requires scenes { length scenes.now ≡ 2 }
    requires renderer { length renderer.old ≡ 2 }
    ensures { length renderer.new ≡ 2 }
{
    renderer.render(rt, scenes, media, &OpenGate);
    renderer.frame(1) == first.as_slice() && renderer.frame(2) == second.as_slice()
}

/// Channel 1 shows channel 2 below half red, and channel 2 shows channel 1: the red of channel 1 is 128, and 128 + (128 * 127 + 127)
/// / 255 = 192 once channel 2 showed that red at the tick before.
#[test]
fn channels_that_show_each_other(rt: HostRuntime) -> Result<(), Fail> {
    let alloc = rt.alloc();
    let media = MediaTable::empty(alloc)?;
    let (mut scenes, mut renderer) = two_channels(alloc)?;
    add(&mut scenes, 1, Still::Channel(2));
    add(&mut scenes, 1, HALF_RED);
    add(&mut scenes, 2, Still::Channel(1));
    assert!(rt;
        shows(
            &rt,
            &mut renderer,
            &scenes,
            &media,
            [0, 0, 128, 128],
            [0, 0, 0, 0]
        )
    );
    assert!(rt;
        shows(
            &rt,
            &mut renderer,
            &scenes,
            &media,
            [0, 0, 128, 128],
            [0, 0, 128, 128]
        )
    );
    assert!(rt;
        shows(
            &rt,
            &mut renderer,
            &scenes,
            &media,
            [0, 0, 192, 192],
            [0, 0, 128, 128]
        )
    );
    Ok(())
}
