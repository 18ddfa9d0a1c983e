//! Texts as users write them, read with ample memory.

use config_file::{ConfigFault, explain, read_config};
use std::test::Fail;

/// Two channels, with comments, and with escapes and numbers in forms that TOML has.
const TWO_CHANNELS: &[u8] = br#"# by hand
"listen" = "127.0.0.1:\u0035250"
media = 'm\edia' # a literal string
rate = 0x19
journal_limit = 1_000
channel = [
    { width = 1280, height = 720, pairs = 1920, output = "one.raw" },
    { width = 1, height = 2, output = "two.raw" },
]
"#;

#[test]
fn a_configuration_in_unusual_toml_is_read(rt: HostRuntime) -> Result<(), Fail> {
    let config = read_config(rt.alloc(), TWO_CHANNELS)
        .ok()
        .ok_or("a configuration")?;
    assert_eq!(rt; config.listen().as_str(), "127.0.0.1:5250");
    assert_eq!(rt; config.media().as_str(), "m\\edia");
    assert_eq!(rt; config.rate(), 25);
    assert_eq!(rt; config.journal_limit(), 1_000);
    assert_eq!(rt; config.channels().len(), 2);
    Ok(())
}

#[test]
fn a_refused_configuration_names_the_wrong_key(rt: HostRuntime) -> Result<(), Fail> {
    for (text, key) in [
        ("", "listen"),
        ("listen = 'a'\nmedia = '\u{e9}'\nrate = 1979-05-27", "rate"),
        (
            "listen = 'a'\nmedia = 'm'\nrate = 25\n[[channel]]\nwidth = 1",
            "channel.1.height",
        ),
        (
            "listen = 'a'\nmedia = 'm'\nrate = 25\nchannel = [1]",
            "channel.1",
        ),
    ] {
        match read_config(rt.alloc(), text.as_bytes()).err() {
            Some(ConfigFault::Key(name)) => assert_eq!(rt; name.as_str(), key),
            _ => return Err("a key")?,
        }
    }
    let fault = read_config(rt.alloc(), b"listen = '\xff'").err();
    assert!(rt; matches!(fault, Some(ConfigFault::NotToml)));
    Ok(())
}

/// The keys of every configuration, without its channels.
const TOP: &str = "listen = 'a'\nmedia = 'm'\nrate = 25\n";

/// A valid channel.
const CHANNEL: &str = "[[channel]]\nwidth = 1280\nheight = 720\noutput = 'o'\n";

/// A text that is refused, in three parts, and the message about it.
#[derive(Clone, Copy)]
struct Refused {
    parts: [&'static str; 3],
    said: &'static str,
}

const REFUSED: [Refused; 50] = [
    Refused {
        parts: ["", "listen = 127.0.0.1:5250\n", CHANNEL],
        said: "line 1, column 10: invalid value, expected a string, number, boolean, date-time, array or inline table",
    },
    Refused {
        parts: ["", "listen = 'a'\nmedia = \"m\nrate = 25\n", CHANNEL],
        said: "line 2, column 11: invalid string",
    },
    Refused {
        parts: ["", "# é\nmedia = 'é' 'm'\n", CHANNEL],
        said: "line 2, column 13: unexpected key or value, expected newline, `#`",
    },
    Refused {
        parts: [TOP, "rate = 30\n", CHANNEL],
        said: "line 4, column 1: duplicate key",
    },
    Refused {
        parts: [TOP, "[[channel]\n", ""],
        said: "line 4, column 11: unclosed array table, expected `]]`",
    },
    Refused {
        parts: ["", "rate = 9223372036854775808\n", CHANNEL],
        said: "line 1, column 8: number out of range",
    },
    Refused {
        parts: ["", "", ""],
        said: "listen is missing: a text in quotation marks that is not empty",
    },
    Refused {
        parts: ["", "lsiten = 'a'\nmedia = 'm'\nrate = 25\n", CHANNEL],
        said: "listen is missing: a text in quotation marks that is not empty; there is lsiten, which is no key",
    },
    Refused {
        parts: ["", "listen = 'a'\nmedia = 'm'\nrat = 25\n", CHANNEL],
        said: "rate is missing: a whole number from 1 to 240; there is rat, which is no key",
    },
    Refused {
        parts: ["listen = 'a'\nmedia = 'm'\n", CHANNEL, "rate = 25"],
        said: "rate is missing: a whole number from 1 to 240; it is below [[channel]], and belongs above it",
    },
    Refused {
        parts: ["", "listen = 5250\n", CHANNEL],
        said: "listen = 5250: a text in quotation marks that is not empty",
    },
    Refused {
        parts: ["", "listen = 'a'\nmedia = ''\n", CHANNEL],
        said: "media = \"\": a text in quotation marks that is not empty",
    },
    Refused {
        parts: ["", "listen = 'a'\nmedia = 'm'\nrate = 0\n", CHANNEL],
        said: "rate = 0: a whole number from 1 to 240; 1 is the nearest",
    },
    Refused {
        parts: ["", "listen = 'a'\nmedia = 'm'\nrate = 241\n", CHANNEL],
        said: "rate = 241: a whole number from 1 to 240; 240 is the nearest",
    },
    Refused {
        parts: ["", "listen = 'a'\nmedia = 'm'\nrate = -25\n", CHANNEL],
        said: "rate = -25: a whole number from 1 to 240; 1 is the nearest",
    },
    Refused {
        parts: [
            "",
            "listen = 'a'\nmedia = 'm'\nrate = 9223372036854775807\n",
            CHANNEL,
        ],
        said: "rate = 9223372036854775807: a whole number from 1 to 240; 240 is the nearest",
    },
    Refused {
        parts: ["", "listen = 'a'\nmedia = 'm'\nrate = 29.97\n", CHANNEL],
        said: "rate = 29.97: a whole number from 1 to 240; 30 is the nearest",
    },
    Refused {
        parts: ["", "listen = 'a'\nmedia = 'm'\nrate = 25.0\n", CHANNEL],
        said: "rate = 25.0: a whole number from 1 to 240; 25 is the nearest",
    },
    Refused {
        parts: ["", "listen = 'a'\nmedia = 'm'\nrate = 1e300\n", CHANNEL],
        said: "rate = 1e300: a whole number from 1 to 240; 240 is the nearest",
    },
    Refused {
        parts: ["", "listen = 'a'\nmedia = 'm'\nrate = -inf\n", CHANNEL],
        said: "rate = -inf: a whole number from 1 to 240",
    },
    Refused {
        parts: ["", "listen = 'a'\nmedia = 'm'\nrate = nan\n", CHANNEL],
        said: "rate = NaN: a whole number from 1 to 240",
    },
    Refused {
        parts: ["", "listen = 'a'\nmedia = 'm'\nrate = '59.94'\n", CHANNEL],
        said: "rate = \"59.94\": a whole number from 1 to 240, without quotation marks; 60 is the nearest",
    },
    Refused {
        parts: ["", "listen = 'a'\nmedia = 'm'\nrate = 'fast'\n", CHANNEL],
        said: "rate = \"fast\": a whole number from 1 to 240, without quotation marks",
    },
    Refused {
        parts: [
            "",
            "listen = 'a'\nmedia = 'm'\nrate = \"\\u001b[31m\\n\"\n",
            CHANNEL,
        ],
        said: "rate = \"\\u{1b}[31m\\n\": a whole number from 1 to 240, without quotation marks",
    },
    Refused {
        parts: [
            "",
            "listen = 'a'\nmedia = 'm'\nrate = '123456789_123456789_123456789_123456789_123456789_123456789_éé'\n",
            CHANNEL,
        ],
        said: "rate = \"123456789_123456789_123456789_123456789_123456789_123456789_\"..: a whole number from 1 to 240, without quotation marks",
    },
    Refused {
        parts: ["", "listen = 'a'\nmedia = 'm'\nrate = true\n", CHANNEL],
        said: "rate = true: a whole number from 1 to 240",
    },
    Refused {
        parts: [
            "",
            "listen = 'a'\nmedia = 'm'\nrate = 1979-05-27\n",
            CHANNEL,
        ],
        said: "rate = 1979-05-27: a whole number from 1 to 240",
    },
    Refused {
        parts: ["", "listen = 'a'\nmedia = 'm'\nrate = [25]\n", CHANNEL],
        said: "rate = [..]: a whole number from 1 to 240",
    },
    Refused {
        parts: [
            "",
            "listen = 'a'\nmedia = 'm'\nrate = { n = 25 }\n",
            CHANNEL,
        ],
        said: "rate = {..}: a whole number from 1 to 240",
    },
    Refused {
        parts: [TOP, "connections = 65\n", CHANNEL],
        said: "connections = 65: a whole number from 1 to 64; 64 is the nearest",
    },
    Refused {
        parts: [TOP, "journal_limit = 0\n", CHANNEL],
        said: "journal_limit = 0: a whole number from 1 to 16777216; 1 is the nearest",
    },
    Refused {
        parts: [TOP, "", ""],
        said: "channel is missing: 1 to 16 tables, each begun by [[channel]]",
    },
    Refused {
        parts: [TOP, "chanel = 1\n", ""],
        said: "channel is missing: 1 to 16 tables, each begun by [[channel]]; there is chanel, which is no key",
    },
    Refused {
        parts: [TOP, "channel = 1\n", ""],
        said: "channel = 1: 1 to 16 tables, each begun by [[channel]]",
    },
    Refused {
        parts: [TOP, "[channel]\nwidth = 1\n", ""],
        said: "channel = {..}: 1 to 16 tables, each begun by [[channel]]; [[channel]] in place of [channel] makes one",
    },
    Refused {
        parts: [TOP, "channel = []\n", ""],
        said: "channel has 0 elements: 1 to 16 tables, each begun by [[channel]]",
    },
    Refused {
        parts: [TOP, "channel = [1,1,1,1,1,1,1,1,1,1,1,1,1,1,1,1,1]\n", ""],
        said: "channel has 17 elements: 1 to 16 tables, each begun by [[channel]]",
    },
    Refused {
        parts: [TOP, "channel = ['one']\n", ""],
        said: "channel.1 = \"one\": a table with width, height and output, begun by [[channel]]",
    },
    Refused {
        parts: [TOP, "[[channel]]\nwidth = 0\n", ""],
        said: "channel.1.width = 0: a whole number from 1 to 4096; 1 is the nearest",
    },
    Refused {
        parts: [TOP, "[[channel]]\nwidth = 1280\nheigth = 720\n", ""],
        said: "channel.1.height is missing: a whole number from 1 to 4096; there is heigth, which is no key",
    },
    Refused {
        parts: [TOP, CHANNEL, "pairs = -1\n"],
        said: "channel.1.pairs = -1: a whole number from 0 to 4096; 0 is the nearest",
    },
    Refused {
        parts: [TOP, CHANNEL, "[[channel]]\nwidth = 1280\nheight = 4097\n"],
        said: "channel.2.height = 4097: a whole number from 1 to 4096; 4096 is the nearest",
    },
    Refused {
        parts: [TOP, CHANNEL, "[[channel]]\nwidth = 1280\nheight = 720\n"],
        said: "channel.2.output is missing: a text in quotation marks that is not empty",
    },
    Refused {
        parts: [TOP, "zone = 1\n", CHANNEL],
        said: "zone is no key: there are listen, media, rate, connections, journal_limit and channel",
    },
    Refused {
        parts: [TOP, "connection = 3\n", CHANNEL],
        said: "connection is no key: there are listen, media, rate, connections, journal_limit and channel; connections is the nearest",
    },
    Refused {
        parts: [TOP, "pairs = 1920\n", CHANNEL],
        said: "pairs is no key: there are listen, media, rate, connections, journal_limit and channel; pairs belongs below [[channel]]",
    },
    Refused {
        parts: [TOP, "'a b' = 1\n", CHANNEL],
        said: "\"a b\" is no key: there are listen, media, rate, connections, journal_limit and channel",
    },
    Refused {
        parts: [TOP, "'channel.1.width' = 1\n", CHANNEL],
        said: "\"channel.1.width\" is no key: there are listen, media, rate, connections, journal_limit and channel",
    },
    Refused {
        parts: [TOP, CHANNEL, "connections = 3\n"],
        said: "channel.1.connections is no key: a channel has width, height, pairs and output; connections belongs above the first [[channel]]",
    },
    Refused {
        parts: [TOP, CHANNEL, "pair = 3\n"],
        said: "channel.1.pair is no key: a channel has width, height, pairs and output; pairs is the nearest",
    },
];

#[test]
fn a_refused_configuration_is_explained(rt: HostRuntime) -> Result<(), Fail> {
    let alloc = rt.alloc();
    for Refused { parts, said } in REFUSED {
        let [first, second, third] = parts;
        let text = format!(in alloc; "{first}{second}{third}")?;
        let fault = read_config(alloc, text.as_bytes()).err().ok_or("a fault")?;
        let why = explain(alloc, text.as_bytes(), &fault).ok_or("a sentence")?;
        assert_eq!(rt; why.as_str(), said);
    }
    let bytes = b"\xef\xbb\xbflisten = '\xff'".as_slice();
    let why = explain(alloc, bytes, &ConfigFault::NotToml).ok_or("a sentence")?;
    assert_eq!(rt; why.as_str(), "line 1, column 11: invalid UTF-8");
    Ok(())
}
