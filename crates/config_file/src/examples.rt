//! Worked texts. Each function does nothing, and its contract says which configuration is read from a text, or which key
//! is refused.
#![tactic(auto, unfolding(crate::proofs::OnLiterals::config_on_literals))]

ghost use Rattle.std.specs.Prelude.{◌≡◌, ◌∷◌, [], Some, Ok, codes};
ghost use Rattle.config_file.specs.Reading.{config_in};
ghost use Rattle.config_file.specs.Worked.{channel, no_toml, one, refused, says, then_says};

/// Configurations, with the defaults and without.
pub fn configurations()
    ensures whole { says "listen = \"127.0.0.1:5250\"\nmedia = \"media\"\nrate = 25\n[[channel]]\nwidth = 1280\nheight = 720\npairs = 1920\noutput = \"one.raw\"\n"
        ≡ Some (Ok (record {
          listen = codes "127.0.0.1:5250";
          media = codes "media";
          rate = 25;
          connections = 4;
          journal_limit = 4194304;
          channels = record { width = 1280; height = 720; pairs = 1920; output = codes "one.raw" } ∷ [];
        })) }
    ensures defaults { then_says "channel = [{width = 1, height = 2, output = 'o'}]" ≡ one 4 4194304 (channel 1 2 0) }
    ensures greatest { then_says "connections = 64\njournal_limit = 16777216\n[[channel]]\nwidth = 4096\nheight = 4096\npairs = 4096\noutput = 'o'"
        ≡ one 64 16777216 (channel 4096 4096 4096) }
{}

/// Bytes that are no text in TOML.
pub fn no_texts()
    ensures no_value { says "listen =" ≡ no_toml }
    ensures two_values { says "rate = 1\nrate = 1" ≡ no_toml }
    ensures long_integer { says "rate = 9223372036854775808" ≡ no_toml }
    ensures not_utf8 { config_in (255 ∷ []) ≡ no_toml }
{}

/// The first key that is missing, of another type or out of range is refused.
pub fn order()
    ensures nothing { says "" ≡ refused "listen" }
    ensures listen_first { says "rate = 0\nmedia = ''" ≡ refused "listen" }
    ensures empty { says "listen = ''" ≡ refused "listen" }
    ensures media { says "listen = 'a'\nrate = 0\nmedia = 1" ≡ refused "media" }
    ensures no_rate { says "listen = 'a'\nmedia = 'm'\nconnections = 0" ≡ refused "rate" }
    ensures rate_0 { says "listen = 'a'\nmedia = 'm'\nrate = 0" ≡ refused "rate" }
    ensures rate_241 { says "listen = 'a'\nmedia = 'm'\nrate = 241" ≡ refused "rate" }
    ensures negative_rate { says "listen = 'a'\nmedia = 'm'\nrate = -25" ≡ refused "rate" }
    ensures float { says "listen = 'a'\nmedia = 'm'\nrate = 25.0" ≡ refused "rate" }
    ensures connections { then_says "journal_limit = 0\nconnections = 65" ≡ refused "connections" }
    ensures journal_limit { then_says "channel = 1\njournal_limit = 16777217" ≡ refused "journal_limit" }
    ensures no_channel { then_says "unknown = 1" ≡ refused "channel" }
{}

/// The keys of the channels, one channel after the other.
pub fn channels()
    ensures no_array { then_says "channel = 1" ≡ refused "channel" }
    ensures one_table { then_says "[channel]\nwidth = 1" ≡ refused "channel" }
    ensures none { then_says "channel = []" ≡ refused "channel" }
    ensures seventeen { then_says "channel = [1,1,1,1,1,1,1,1,1,1,1,1,1,1,1,1,1]" ≡ refused "channel" }
    ensures no_table { then_says "channel = [1]" ≡ refused "channel.1" }
    ensures table_before { then_says "channel = [{width = 1}, 1]" ≡ refused "channel.1.height" }
    ensures second { then_says "channel = [{width = 1, height = 2, output = 'o'}, {}]" ≡ refused "channel.2.width" }
    ensures first { then_says "channel = [{width = 1, height = 2}, {}]" ≡ refused "channel.1.output" }
    ensures pairs { then_says "channel = [{width = 1, height = 2, pairs = 4097}]" ≡ refused "channel.1.pairs" }
    ensures height_0 { then_says "channel = [{width = 1, height = 0, pairs = 4097}]" ≡ refused "channel.1.height" }
    ensures sixteen { then_says "channel = [1,1,1,1,1,1,1,1,1,1,1,1,1,1,1,1]" ≡ refused "channel.1" }
{}

/// Unknown keys are refused after all others, the least of the top table first.
pub fn unknown_keys()
    ensures after_others { then_says "zone = 1" ≡ refused "channel" }
    ensures least { then_says "zone = 1\nRate = 1\nborder = 1\nchannel = [{width = 1, height = 2, output = 'o'}]" ≡ refused "Rate" }
    ensures top_first { then_says "zone = 1\nchannel = [{width = 1, height = 2, output = 'o', border = 1}]" ≡ refused "zone" }
    ensures least_of_channel { then_says "channel = [{width = 1, height = 2, output = 'o', zone = 1, media = 'm'}]" ≡ refused "channel.1.media" }
    ensures first_channel { then_says "channel = [{width = 1, height = 2, output = 'o', zone = 1}, {width = 1, height = 2, output = 'o', border = 1}]" ≡ refused "channel.1.zone" }
    ensures second_channel { then_says "channel = [{width = 1, height = 2, output = 'o'}, {width = 1, height = 2, output = 'o', 'a b' = 1}]" ≡ refused "channel.2.a b" }
    ensures bad_before { then_says "channel = [{width = 1, height = 2, output = 'o', zone = 1}, {width = 1, height = 2, output = ''}]" ≡ refused "channel.2.output" }
{}
