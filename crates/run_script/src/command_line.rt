//! The words of the command line.
ghost use Rattle.std.specs.Prelude.{◌≡◌, ◌≤◌, map, option_map, string_bytes, IfSome};
ghost use Rattle.play_types.specs.Geometry.{IsSize};
ghost use Rattle.amcp_text.specs.Numbers.{number_within};
ghost use Rattle.run_script.specs.CommandLine.{IsInRange, command_line_of, command_line_view, converted_of, digests_of, generated_of, last_workers, options_of, planned_of, recorded_of, run_of, size_of, workers_of, reported_of};
ghost use Rattle.run_script.specs.declared.command_line.TheConstants.{MAX_SEED, MAX_WORKERS};

use amcp_text::number_within;
use made_script::MAX_STEPS;
use play_types::{Geometry, MAX_SIDE, RecName};

/// The most workers that the words may name.
const MAX_WORKERS: u32 = 64;

/// The greatest seed of a generated script.
const MAX_SEED: u64 = u64::MAX;

/// A command line that was read.
#[derive(Clone, Copy, Debug)]
pub enum CommandLine<'a> {
    /// One channel of this size, without sound and without clips.
    Plain(Geometry),
    /// The channels and the clips of a configuration.
    Configured {
        /// The path of the configuration.
        path: &'a str,
        /// Whether frames are written as digests.
        digests: bool,
        /// The number of threads that make the frames, 1 to 64.
        workers: u32,
    },
    /// A generated script.
    Generated {
        /// The seed of the generator.
        seed: u64,
        /// The number of steps, 1 to 100,000.
        steps: u32,
    },
    /// A clip that is converted.
    Converted,
    /// A cue sheet, played on the channels and the clips of a configuration.
    Planned {
        /// The path of the configuration.
        path: &'a str,
        /// Whether frames are written as digests.
        digests: bool,
        /// The number of threads that make the frames, 1 to 64.
        workers: u32,
    },
    /// A script on the channels and the clips of a configuration, for which the status of all channels is written in place of frames.
    Reported {
        /// The path of the configuration.
        path: &'a str,
    },
    /// The film of a script on the channels and the clips of a configuration.
    Recorded {
        /// The path of the configuration.
        path: &'a str,
        /// The name of the recording.
        name: RecName,
        /// The number of threads that make the frames, 1 to 64.
        workers: u32,
    },
}

impl CommandLine<'_> {
    /// Reads a command line: `run W H`, each number from 1 to 4,096; or `run --config PATH`, after which `--workers N`, a whole number
    /// from 1 to 64, and then `--digest` may follow; or `gen SEED N`, a whole number of 64 bits and one from 1 to 100,000; or `convert`;
    /// or `plan --config PATH`, followed by what may follow `run --config PATH`; or `osc --config PATH`; or `record --config PATH NAME`,
    /// the name of a recording, after which `--workers N` may follow.
    ///
    /// Returns `None` exactly if the words are none of these. Without `--workers` there is one worker.
    pub fn read(words: &[String]) -> Option<CommandLine<'_>>
        ensures value { option_map command_line_view result ≡ command_line_of (map string_bytes words.now) }
        ensures range { IfSome result IsInRange }
    {
        let (word, rest) = words.split_first()?;
        match word.as_str() {
            "run" => run_of(rest),
            "gen" => generated_of(rest),
            "convert" => converted_of(rest),
            "plan" => planned_of(rest),
            "osc" => reported_of(rest),
            "record" => recorded_of(rest),
            _ => None,
        }
    }
}

/// Returns the command line of the words after `run`: a size, or a configuration and its options.
fn run_of(words: &[String]) -> Option<CommandLine<'_>>
    ensures value { option_map command_line_view result ≡ run_of (map string_bytes words.now) }
    ensures range { IfSome result IsInRange }
{
    match words {
        [config, path, options @ ..] if config.as_str() == "--config" => {
            let digests = options_of(options)?;
            Some(CommandLine::Configured {
                path: path.as_str(),
                digests,
                workers: workers_of(options),
            })
        }
        _ => {
            let size = size_of(words)?;
            Some(CommandLine::Plain(size))
        }
    }
}

/// Returns the size of the words `W H`.
fn size_of(words: &[String]) -> Option<Geometry>
    ensures value { result ≡ size_of (map string_bytes words.now) }
    ensures range { IfSome result (λ size. IsSize size.width size.height 0) }
{
    match words {
        [width, height] => {
            let width = number_within(1, u32::from(MAX_SIDE), width.as_bytes())?;
            let height = number_within(1, u32::from(MAX_SIDE), height.as_bytes())?;
            Some(Geometry {
                width: width as u16,
                height: height as u16,
                pairs: 0,
            })
        }
        _ => None,
    }
}

/// Returns whether the words after a path ask for digests, and `None` if they are not valid options.
fn options_of(words: &[String]) -> Option<bool>
    ensures { result ≡ options_of (map string_bytes words.now) }
{
    match words {
        [option, number, rest @ ..] => {
            if option.as_str() != "--workers" {
                return None;
            }
            number_within(1, MAX_WORKERS, number.as_bytes())?;
            digests_of(rest)
        }
        _ => digests_of(words),
    }
}

/// Returns the number of workers in the words after a path, and 1 if they have none.
fn workers_of(words: &[String]) -> u32
    ensures value { result ≡ workers_of (map string_bytes words.now) }
    ensures some { 1 ≤ result }
    ensures few { result ≤ MAX_WORKERS }
{
    match words {
        [option, number, _rest @ ..] => {
            if option.as_str() != "--workers" {
                return 1;
            }
            number_within(1, MAX_WORKERS, number.as_bytes()).unwrap_or(1)
        }
        _ => 1,
    }
}

/// Returns whether the last words ask for digests, and `None` if they are anything else.
fn digests_of(words: &[String]) -> Option<bool>
    ensures { result ≡ digests_of (map string_bytes words.now) }
{
    match words {
        [] => Some(false),
        [word] if word.as_str() == "--digest" => Some(true),
        _ => None,
    }
}

/// Returns the command line of the words after `gen`: a seed and a number of steps.
fn generated_of(words: &[String]) -> Option<CommandLine<'_>>
    ensures value { option_map command_line_view result ≡ generated_of (map string_bytes words.now) }
    ensures range { IfSome result IsInRange }
{
    match words {
        [seed, steps] => {
            let seed = seed_of(seed.as_str())?;
            let steps = number_within(1, MAX_STEPS, steps.as_bytes())?;
            Some(CommandLine::Generated { seed, steps })
        }
        _ => None,
    }
}

/// Returns the number that a word writes in digits alone, or `None` if it is not a number of 64 bits.
fn seed_of(word: &str) -> Option<u64>
    ensures { result ≡ number_within 0 MAX_SEED word.now }
{
    match word.as_bytes() {
        [b'+', ..] => None,
        _ => word.parse::<u64>().ok(),
    }
}

/// Returns the command line of the words after `convert`, of which there may be none.
fn converted_of(words: &[String]) -> Option<CommandLine<'_>>
    ensures value { option_map command_line_view result ≡ converted_of (map string_bytes words.now) }
    ensures range { IfSome result IsInRange }
{
    words.is_empty().then_some(CommandLine::Converted)
}

/// Returns the command line of the words after `plan`: `--config`, a path and options.
fn planned_of(words: &[String]) -> Option<CommandLine<'_>>
    ensures value { option_map command_line_view result ≡ planned_of (map string_bytes words.now) }
    ensures range { IfSome result IsInRange }
{
    match words {
        [config, path, options @ ..] if config.as_str() == "--config" => {
            let digests = options_of(options)?;
            Some(CommandLine::Planned {
                path: path.as_str(),
                digests,
                workers: workers_of(options),
            })
        }
        _ => None,
    }
}

/// Returns the command line of the words after `osc`: `--config` and a path.
fn reported_of(words: &[String]) -> Option<CommandLine<'_>>
    ensures value { option_map command_line_view result ≡ reported_of (map string_bytes words.now) }
    ensures range { IfSome result IsInRange }
{
    match words {
        [config, path] if config.as_str() == "--config" => Some(CommandLine::Reported {
            path: path.as_str(),
        }),
        _ => None,
    }
}

/// Returns the command line of the words after `record`: `--config`, a path and the name of a recording, after which `--workers N` may
/// follow.
fn recorded_of(words: &[String]) -> Option<CommandLine<'_>>
    ensures value { option_map command_line_view result ≡ recorded_of (map string_bytes words.now) }
    ensures range { IfSome result IsInRange }
{
    match words {
        [config, path, name, rest @ ..] if config.as_str() == "--config" => {
            let name = RecName::read(name.as_str())?;
            let workers = last_workers(rest)?;
            Some(CommandLine::Recorded {
                path: path.as_str(),
                name,
                workers,
            })
        }
        _ => None,
    }
}

/// Returns the number of workers in the last words, 1 if there are no words, and `None` if they are anything but `--workers N`.
fn last_workers(words: &[String]) -> Option<u32>
    ensures value { result ≡ last_workers (map string_bytes words.now) }
    ensures some { IfSome result (λ count. 1 ≤ count) }
    ensures few { IfSome result (λ count. count ≤ MAX_WORKERS) }
{
    match words {
        [] => Some(1),
        [option, number] if option.as_str() == "--workers" => {
            number_within(1, MAX_WORKERS, number.as_bytes())
        }
        _ => None,
    }
}
