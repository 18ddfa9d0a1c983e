//! Events and commands that are printed to a sink with room. What they print was written by hand, by the form of printed
//! commands.
use amcp_text::tokens;
use cmd_parse::parse;
use cmd_print::{print, print_event};
use play_outside::{MemSink, Sent};
use play_types::{
    Channel, ChannelList, Cmd, CmdList, Config, Curve, Event, Geometry, Kind, MAX_MEDIA_NAMES,
    MediaName, MediaNames, Parsed, Place, Prop, Setting, Spec, Tag, Take, Text, Trans,
};
use std::alloc::Global;
use std::test::Fail;

/// Two clips, of which the second has each character in its name that is escaped.
fn names(alloc: Global) -> Result<MediaNames, Fail> {
    let size = Geometry {
        width: 16,
        height: 9,
        pairs: 0,
    };
    let mut names = MediaNames::new(alloc);
    names.push(MediaName::clip(Text::copy(alloc, "BGLOOP")?, size, 4).ok_or("a clip")?)?;
    names.push(MediaName::clip(Text::copy(alloc, "A \"B\\C\nD")?, size, 9).ok_or("a clip")?)?;
    Ok(names)
}

/// The tag of a connection.
const TAG: Tag = Tag {
    worker: 2,
    session: 70000,
};

/// The tag of the server itself.
const SERVER: Tag = Tag {
    worker: 0,
    session: 0,
};

/// Returns commands of a place.
fn commands(place: Place) -> Result<[Cmd; 4], Fail> {
    let cut = Trans::cut();
    let wipe = Trans::new(Kind::Wipe, 12, Curve::Linear, true).ok_or("a transition")?;
    let clip = Take::new(Spec::Clip(0), true, 0, 4, cut, false).ok_or("a take")?;
    let escaped = Take::new(Spec::Clip(1), false, 2, 7, wipe, true).ok_or("a take")?;
    let missing = Take::new(Spec::Clip(2), false, 0, 1, cut, false).ok_or("a take")?;
    let colour = Take::new(Spec::Colour(0x8000AF09), false, 0, 0, cut, false).ok_or("a take")?;
    Ok([
        Cmd::play_take(place, clip),
        Cmd::LoadBg(place, escaped),
        Cmd::load(place, missing),
        Cmd::load(place, colour),
    ])
}

/// The line of each of these commands in a history, given by the connection for layer 10 of channel 1.
const COMMAND_LINES: [&str; 4] = [
    "2.70000 PLAY 1-10 \"BGLOOP\" LOOP SEEK 0 LENGTH 4\n",
    "2.70000 LOADBG 1-10 \"A \\\"B\\\\C\\nD\" SEEK 2 LENGTH 7 WIPE 12 LINEAR LEFT AUTO\n",
    "2.70000 LOAD 1-10 \"\" SEEK 0 LENGTH 1\n",
    "2.70000 LOAD 1-10 #8000AF09\n",
];

#[test]
fn a_command_is_printed_after_its_connection(rt: HostRuntime) -> Result<(), Fail> {
    let alloc = rt.alloc();
    let names = names(alloc)?;
    let commands = commands(Place::new(1, 10).ok_or("a place")?)?;
    for (cmd, line) in commands.iter().zip(COMMAND_LINES) {
        let mut sink = MemSink::new(alloc, 0, 200, 7, Vec::new(alloc))?;
        let sent = print_event(&Event::Do(TAG, *cmd), 1, &names, &mut sink);
        assert_eq!(rt; sent, Sent::All);
        assert_eq!(rt; sink.taken(), line.as_bytes());
    }
    Ok(())
}

#[test]
fn ticks_batches_and_stops_are_printed_as_lines(rt: HostRuntime) -> Result<(), Fail> {
    let alloc = rt.alloc();
    let names = names(alloc)?;
    let place = Place::new(1, 10).ok_or("a place")?;
    let values = [250_000, -500_000, 1_000_000, 30];
    let fill = Setting::new(place, Prop::Fill, values, 5, Curve::Linear, true);
    let mut batch = CmdList::new(alloc);
    batch.push(Cmd::SwapLayers(place, place, true))?;
    batch.push(Cmd::Set(fill.ok_or("a setting")?))?;
    let mut sink = MemSink::new(alloc, 0, 1000, 7, Vec::new(alloc))?;
    let sent = [
        print_event(&Event::Tick, 200_001, &names, &mut sink),
        print_event(&Event::Batch(TAG, batch), 1, &names, &mut sink),
        print_event(&Event::Tick, 1, &names, &mut sink),
        print_event(&Event::Stop(TAG), 1, &names, &mut sink),
        print_event(&Event::Stop(SERVER), 1, &names, &mut sink),
    ];
    assert_eq!(rt; sent, [Sent::All; 5]);
    assert_eq!(rt;
        sink.taken(),
        b"T 100000
T 100000
T 1
2.70000 BEGIN
2.70000 SWAP 1-10 1-10 TRANSFORMS
2.70000 MIXER 1-10 FILL 0.25 -0.5 1 0.00003 5 LINEAR DEFER
2.70000 COMMIT
T 1
2.70000 KILL
X
"
            .as_slice()
    );
    Ok(())
}

/// Lines of clients, each with the text of the command that it asks for, with two channels and the clips of `clips`.
const LINES: &str = r#"PLAY 1-0 #FFFF0000 => PLAY 1-0 #FFFF0000
PLAY 1-0 BLUE => PLAY 1-0 #FF0000FF
PLAY 1-0 GREEN => PLAY 1-0 #FF00FF00
PLAY 1-0 RED => PLAY 1-0 #FFFF0000
play 1-0 "r"ed => PLAY 1-0 #FFFF0000
PLAY 1-1 BLUE => PLAY 1-1 #FF0000FF
PLAY 1-1 RED => PLAY 1-1 #FFFF0000
PLAY 1-1 #80FF0000 => PLAY 1-1 #80FF0000
PLAY 1-2 BLUE => PLAY 1-2 #FF0000FF
PLAY 1-2 RED => PLAY 1-2 #FFFF0000
PLAY 1-20 #C0202020 => PLAY 1-20 #C0202020
PLAY 1-63 BLUE => PLAY 1-63 #FF0000FF
PLAY 1-63 #00ff00 LOOP SEEK 5 => PLAY 1-63 #FF00FF00
PLAY 1-64 RED => PLAY 1-64 #FFFF0000
PLAY 2-5 BLUE => PLAY 2-5 #FF0000FF
PLAY 1-0 RED MIX 9 => PLAY 1-0 #FFFF0000 MIX 9 LINEAR RIGHT
PLAY 1-0 RED WIPE 4 RIGHT => PLAY 1-0 #FFFF0000 WIPE 4 LINEAR RIGHT
PLAY 1-0 RED WIPE 4 EaseInQuad => PLAY 1-0 #FFFF0000 WIPE 4 EASEINQUAD RIGHT
PLAY 1-0 RED SLIDE 4 LEFT easeoutquad => PLAY 1-0 #FFFF0000 SLIDE 4 EASEOUTQUAD LEFT
PLAY 1-0 RED CUT 4 EASEINQUAD => PLAY 1-0 #FFFF0000
PLAY 1-0 BLUE PUSH 4 LEFT => PLAY 1-0 #FF0000FF PUSH 4 LINEAR LEFT
PLAY 1-1 route://1 => PLAY 1-1 route://1
PLAY 1-1 ROUTE://01-0 => PLAY 1-1 route://1-0
PLAY 1-1 route://1-0 => PLAY 1-1 route://1-0
PLAY 2-10 route://1 => PLAY 2-10 route://1
PLAY 1-0 BARS => PLAY 1-0 "BARS" SEEK 0 LENGTH 1
PLAY 1-1 BARS => PLAY 1-1 "BARS" SEEK 0 LENGTH 1
PLAY 1-0 THREE => PLAY 1-0 "THREE" SEEK 0 LENGTH 3
PLAY 1-0 THREE SEEK 1 LOOP => PLAY 1-0 "THREE" LOOP SEEK 1 LENGTH 2
PLAY 1-1 HALF => PLAY 1-1 "HALF" SEEK 0 LENGTH 1
PLAY 1-0 TONE => PLAY 1-0 "TONE" SEEK 0 LENGTH 1
PLAY 1-1 TONE => PLAY 1-1 "TONE" SEEK 0 LENGTH 1
PLAY 1-10 "BGLOOP" LOOP => PLAY 1-10 "BGLOOP" LOOP SEEK 0 LENGTH 4
PLAY 1-1 => PLAY 1-1
LOADBG 1-1 RED MIX 2 => LOADBG 1-1 #FFFF0000 MIX 2 LINEAR RIGHT
LOADBG 1-0 BLUE MIX 2 AUTO => LOADBG 1-0 #FF0000FF MIX 2 LINEAR RIGHT AUTO
LOADBG 1-0 BLUE MIX 5 AUTO => LOADBG 1-0 #FF0000FF MIX 5 LINEAR RIGHT AUTO
LOADBG 1-0 BLUE AUTO => LOADBG 1-0 #FF0000FF AUTO
LOADBG 1-1 "a \"b\\c\nd" LENGTH 7 SLIDE 12 FROMRIGHT SEEK 2 AUTO => LOADBG 1-1 "A \"B\\C\nD" SEEK 2 LENGTH 7 SLIDE 12 LINEAR LEFT AUTO
LOAD 1-0 THREE => LOAD 1-0 "THREE" SEEK 0 LENGTH 3
LOAD 1-2 EMPTY WIPE 3 LEFT AUTO => LOAD 1-2 #00000000
PAUSE 2 => PAUSE 2-0
RESUME 1-0 => RESUME 1-0
STOP 1-9999 => STOP 1-9999
CLEAR 1-0 => CLEAR 1-0
CLEAR 2 => CLEAR 2
SWAP 1-0 1-0 => SWAP 1-0 1-0
SWAP 1-1 1-2 TRANSFORMS => SWAP 1-1 1-2 TRANSFORMS
SWAP 1 2 => SWAP 1 2
SWAP 2 1 TRANSFORMS => SWAP 2 1 TRANSFORMS
MIXER 1-1 OPACITY 0.5 => MIXER 1-1 OPACITY 0.5 0 LINEAR
MIXER 1-1 OPACITY 0 DEFER => MIXER 1-1 OPACITY 0 0 LINEAR DEFER
MIXER 1-1 OPACITY 0.5 DEFER => MIXER 1-1 OPACITY 0.5 0 LINEAR DEFER
MIXER 1-2 OPACITY 0.5 DEFER => MIXER 1-2 OPACITY 0.5 0 LINEAR DEFER
MIXER 1-0 OPACITY 0 4 => MIXER 1-0 OPACITY 0 4 LINEAR
MIXER 1-0 OPACITY 0 4 easeInCubic => MIXER 1-0 OPACITY 0 4 EASEINCUBIC
MIXER 1-0 OPACITY 0 4 EASEOUTCUBIC DEFER => MIXER 1-0 OPACITY 0 4 EASEOUTCUBIC DEFER
MIXER 1-20 OPACITY 0.9 12 LINEAR DEFER => MIXER 1-20 OPACITY 0.9 12 LINEAR DEFER
MIXER 1-1 FILL 0.5 0 0.5 1 => MIXER 1-1 FILL 0.5 0 0.5 1 0 LINEAR
MIXER 1-1 FILL 0 0 0 1 => MIXER 1-1 FILL 0 0 0 1 0 LINEAR
MIXER 1-1 FILL 1 0 -1 1 => MIXER 1-1 FILL 1 0 -1 1 0 LINEAR
MIXER 1-1 FILL 0 0 0.5 1 => MIXER 1-1 FILL 0 0 0.5 1 0 LINEAR
MIXER 1-0 FILL -0.25 .5 1.0000009 +2 => MIXER 1-0 FILL -0.25 0.5 1 2 0 LINEAR
MIXER 1-20 FILL 0 1 1 0.2 => MIXER 1-20 FILL 0 1 1 0.2 0 LINEAR
MIXER 1-20 FILL 0 0.8 1 0.2 12 LINEAR DEFER => MIXER 1-20 FILL 0 0.8 1 0.2 12 LINEAR DEFER
MIXER 1-0 CLIP 0.25 0 0.5 1 => MIXER 1-0 CLIP 0.25 0 0.5 1 0 LINEAR
MIXER 1-0 VOLUME 0.5 => MIXER 1-0 VOLUME 0.5 0 LINEAR
MIXER 1-1 KEYER 1 => MIXER 1-1 KEYER 1
MIXER 1-1 KEYER 0 DEFER => MIXER 1-1 KEYER 0 DEFER
MIXER 1-0 OPACITY => MIXER 1-0 OPACITY
MIXER 1-1 OPACITY => MIXER 1-1 OPACITY
MIXER 1-2 OPACITY => MIXER 1-2 OPACITY
mixer 1-0 fill => MIXER 1-0 FILL
MIXER 1 COMMIT => MIXER 1 COMMIT
MIXER 2-5 COMMIT => MIXER 2 COMMIT
MIXER 1-5 CLEAR => MIXER 1-5 CLEAR
MIXER 2 CLEAR => MIXER 2 CLEAR
add 1 file "take"_1 => ADD 1 FILE TAKE_1
ADD 02 FILE 0123456789-abcdefghijklmnopqrstu => ADD 2 FILE 0123456789-ABCDEFGHIJKLMNOPQRSTU
REMOVE 02 FILE => REMOVE 2 FILE
INFO => INFO"#;

/// Returns a configuration of two channels.
fn two_channels(alloc: Global) -> Result<Config, Fail> {
    let mut channels = ChannelList::new(alloc);
    for _channel in 0..2 {
        let output = Text::copy(alloc, "out.raw")?;
        channels.push(Channel::new(1, 1, 0, output).ok_or("a channel")?)?;
    }
    let listen = Text::copy(alloc, "here")?;
    let media = Text::copy(alloc, "media")?;
    Ok(Config::new(listen, media, 25, 4, 1000, channels).ok_or("a configuration")?)
}

/// Returns the names of clips of several lengths. The last one has each character that is escaped.
fn clips(alloc: Global) -> Result<MediaNames, Fail> {
    let size = Geometry {
        width: 4,
        height: 1,
        pairs: 2,
    };
    let mut names = MediaNames::new(alloc);
    for (name, frames) in [
        ("BARS", 1),
        ("THREE", 3),
        ("HALF", 1),
        ("TONE", 1),
        ("BGLOOP", 4),
        ("A \"B\\C\nD", 9),
    ] {
        let clip = MediaName::clip(Text::copy(alloc, name)?, size, frames).ok_or("a clip")?;
        if names.len() >= MAX_MEDIA_NAMES {
            return Err("room for a name")?;
        }
        names.push(clip)?;
    }
    Ok(names)
}

/// Returns the command of the stage that a line asks for.
fn command_of(alloc: Global, line: &str, config: &Config, media: &MediaNames) -> Result<Cmd, Fail> {
    let words = tokens(alloc, line)?;
    if words.is_empty() {
        return Err("a line with words")?;
    }
    match parse(&words, config, media) {
        Ok(Parsed::Stage(cmd)) => Ok(cmd),
        _ => Err("a command of the stage")?,
    }
}

/// Returns the text of a command.
fn text_of(alloc: Global, cmd: &Cmd, media: &MediaNames) -> Result<String, Fail> {
    let mut sink = MemSink::new(alloc, 0, 200, 7, Vec::new(alloc))?;
    match print(cmd, media, &mut sink) {
        Sent::All => Ok(String::from_utf8_lossy(alloc, sink.taken())?),
        Sent::Failed => Err("room for the text")?,
    }
}

/// Returns whether the command that a line asks for is printed as `wanted`, and whether that text asks for it again.
fn is_asked_again(
    alloc: Global,
    line: &str,
    wanted: &str,
    config: &Config,
    media: &MediaNames,
) -> Result<bool, Fail> {
    let cmd = command_of(alloc, line, config, media)?;
    let text = text_of(alloc, &cmd, media)?;
    let again = command_of(alloc, text.as_str(), config, media)?;
    Ok(text.as_str() == wanted && again == cmd)
}

#[test]
fn a_printed_command_is_read_again(rt: HostRuntime) -> Result<(), Fail> {
    let alloc = rt.alloc();
    let config = two_channels(alloc)?;
    let media = clips(alloc)?;
    for row in LINES.lines() {
        let (line, wanted) = row.split_once(" => ").ok_or("a line and a text")?;
        assert!(rt;
            is_asked_again(alloc, line, wanted, &config, &media)?,
            "{line}"
        );
    }
    Ok(())
}
