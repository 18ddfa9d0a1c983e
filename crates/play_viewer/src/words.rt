//! The arguments of the command line.
ghost use Rattle.std.specs.Prelude.{◌≡◌, ◌≢◌, ◌∷◌, ◌++◌, [], true, is_some, codes, List, ℕ, IfOk, IsErrOf, map, take, option_map, Some, string_bytes};
ghost use Rattle.clap.specs.Words.{fault_of, first_of, first_value, found_of, matches_of, rows_of, rule_of};
ghost use Rattle.clap.specs.Built.{FitsChain, TakesValue};
ghost use Rattle.play_viewer.specs.ViewerWords.{Names, ReadsWords, address_of, config_rule, has_too_many, listen_rule, log_rule, no_pictures_rule, osc_rule, pictures_in, playview_app, receivers_in, workers_in, workers_rule};
ghost use Rattle.play_viewer.specs.inner.ViewerCommand.{HasRequired, IsViewerCommand};
ghost use Rattle.play_viewer.specs.declared.words.ViewerWordsFault.TheVariants.{OutOfMemory};

use clap::error::ErrorKind;
use clap::{Arg, ArgAction, ArgMatches, Command};
use std::alloc::{AllocError, Global};
use std::error::Error;
use std::fmt;

/// The name of the program, which `clap` takes as the first word.
const PROGRAM: &str = "playview";

/// The address at which browsers are answered if none is given.
const DEFAULT_ADDRESS: &str = "127.0.0.1:5280";

/// The most receivers of status messages.
pub const MAX_RECEIVERS: usize = 8;

/// The parsed arguments of `playview`.
#[derive(Debug, Drop)]
pub struct ViewerWords {
    /// The path of the configuration.
    pub config: String,
    /// The path of the log, or `-` for standard input.
    pub log: String,
    /// The address at which browsers are answered, if it was given.
    pub listen: Option<String>,
    /// The value of `--workers`, 1 to 64: the number of threads that make the frames.
    pub workers: u32,
    /// Whether there are pages of pictures and levels of sound.
    pub pictures: bool,
    /// The addresses of the receivers of status messages, at most [`MAX_RECEIVERS`].
    pub receivers: Vec<String>,
}

/// Why the arguments could not be parsed.
#[derive(Clone, Copy, Debug, PartialEq, Eq)]
pub enum ViewerWordsFault {
    /// They are not a command line of `playview`.
    Usage,
    /// Memory ran out.
    OutOfMemory,
}

impl fmt::Display for ViewerWordsFault {
    fn fmt<W: fmt::Write>(&self, f: &mut fmt::Formatter<W>) -> fmt::Result {
        match self {
            ViewerWordsFault::Usage => write!(f, "unknown command line of playview"),
            ViewerWordsFault::OutOfMemory => write!(f, "out of memory"),
        }
    }
}

impl Error for ViewerWordsFault {}

impl From<AllocError> for ViewerWordsFault {
    ghost from_gives = { λ _ fault. fault ≡ OutOfMemory };

    fn from(_error: AllocError) -> ViewerWordsFault {
        ViewerWordsFault::OutOfMemory
    }
}

impl ViewerWords {
    /// Parses the arguments that follow the program's name: `--config FILE` and `--log FILE` once, `--listen HOST:PORT`, `--workers N`, a
    /// number from 1 to 64, and `--no-pictures` at most once each, and `--osc HOST:PORT` up to eight times, in any order. Without
    /// `--workers` there is one worker.
    ///
    /// Returns `Usage` if `clap` refuses the arguments for another cause than memory, and if there are more than eight receivers. Returns
    /// `OutOfMemory` if memory runs out.
    pub fn read(alloc: Global, words: &[String]) -> Result<ViewerWords, ViewerWordsFault>
        ensures { ReadsWords (codes "playview" ∷ map string_bytes words.now) result }
    {
        let line = command_line(alloc, words)?;
        let matches = parse(alloc, line.as_slice())?;
        if has_too_many(&matches) {
            return Err(ViewerWordsFault::Usage);
        }
        named(alloc, &matches)
    }

    /// Returns the address at which browsers are answered: 127.0.0.1:5280 if none was given.
    pub fn address(&self) -> &str
        ensures { result.now ≡ address_of self.now }
    {
        match &self.listen {
            Some(address) => address.as_str(),
            None => DEFAULT_ADDRESS,
        }
    }
}

/// Returns the arguments with the program's name before them.
fn command_line(alloc: Global, words: &[String]) -> Result<Vec<&str>, AllocError>
    ensures { IfOk result (λ line. map (λ word. word.now) line.items ≡ codes "playview" ∷ map string_bytes words.now) }
{
    let mut line = Vec::with_capacity(alloc, words.len() + 1)?;
    line.push_reserved(PROGRAM);
    for word in words {
        line.push_reserved(word.as_str());
    }
    Ok(line)
}

/// Parses `words`, the first of which is the program's name.
fn parse<'a>(alloc: Global, words: &'a [&'a str]) -> Result<ArgMatches<'a>, ViewerWordsFault>
    ensures accepted { IfOk result (λ m. (fault_of playview_app (map (λ w. w.now) words.entry.now) ≡ [])
        × (rows_of (found_of m) ≡ matches_of playview_app (map (λ w. w.now) words.entry.now))) }
    ensures given { IfOk result HasRequired }
    ensures usage { IsErrOf result ViewerWordsFault.Usage
        → fault_of playview_app (map (λ w. w.now) words.entry.now) ≢ [] }
{
    let command = viewer_command(alloc)?;
    match command.try_get_matches_from(words) {
        Ok(matches) => Ok(matches),
        Err(error) => {
            if error.kind() == ErrorKind::OutOfMemory {
                Err(ViewerWordsFault::OutOfMemory)
            } else {
                Err(ViewerWordsFault::Usage)
            }
        }
    }
}

/// Returns the `clap` command of `playview`.
fn viewer_command<'a>(alloc: Global) -> Result<Command<'a>, AllocError>
    ensures { IfOk result IsViewerCommand }
{
    let config = config_arg(alloc);
    let log = log_arg(alloc);
    let listen = listen_arg(alloc);
    let workers = workers_arg(alloc);
    let no_pictures = no_pictures_arg(alloc);
    let osc = osc_arg(alloc);
    let bare = Command::new(alloc, PROGRAM)
        .disable_help_flag(true)
        .disable_version_flag(true);
    let one = bare.arg(config)?;
    let two = one.arg(log)?;
    let three = two.arg(listen)?;
    let four = three.arg(workers)?;
    let five = four.arg(no_pictures)?;
    five.arg(osc)
}

/// Returns the argument `--config FILE`.
fn config_arg<'a>(alloc: Global) -> Arg<'a>
    ensures rule { rule_of result ≡ config_rule }
    ensures fits { FitsChain result }
    ensures value { TakesValue result }
    ensures id { result.id.now ≡ codes "config" }
{
    Arg::new(alloc, "config")
        .long("config")
        .required(true)
        .action(ArgAction::Set)
}

/// Returns the argument `--log FILE`.
fn log_arg<'a>(alloc: Global) -> Arg<'a>
    ensures rule { rule_of result ≡ log_rule }
    ensures fits { FitsChain result }
    ensures value { TakesValue result }
    ensures id { result.id.now ≡ codes "log" }
{
    Arg::new(alloc, "log")
        .long("log")
        .required(true)
        .action(ArgAction::Set)
}

/// Returns the argument `--listen HOST:PORT`.
fn listen_arg<'a>(alloc: Global) -> Arg<'a>
    ensures rule { rule_of result ≡ listen_rule }
    ensures fits { FitsChain result }
    ensures id { result.id.now ≡ codes "listen" }
{
    Arg::new(alloc, "listen")
        .long("listen")
        .action(ArgAction::Set)
}

/// Returns the argument `--workers N`.
fn workers_arg<'a>(alloc: Global) -> Arg<'a>
    ensures rule { rule_of result ≡ workers_rule }
    ensures fits { FitsChain result }
    ensures id { result.id.now ≡ codes "workers" }
{
    Arg::new(alloc, "workers")
        .long("workers")
        .action(ArgAction::Set)
        .value_parser(clap::value_parser!(u32).range(1..65))
}

/// Returns the argument `--no-pictures`.
fn no_pictures_arg<'a>(alloc: Global) -> Arg<'a>
    ensures rule { rule_of result ≡ no_pictures_rule }
    ensures fits { FitsChain result }
    ensures id { result.id.now ≡ codes "no-pictures" }
{
    Arg::new(alloc, "no-pictures")
        .long("no-pictures")
        .action(ArgAction::SetTrue)
}

/// Returns the argument `--osc HOST:PORT`.
fn osc_arg<'a>(alloc: Global) -> Arg<'a>
    ensures rule { rule_of result ≡ osc_rule }
    ensures fits { FitsChain result }
    ensures id { result.id.now ≡ codes "osc" }
{
    Arg::new(alloc, "osc").long("osc").action(ArgAction::Append)
}

/// Returns whether the arguments have more than eight receivers.
fn has_too_many(matches: &ArgMatches<'_>) -> bool
    ensures { result ≡ has_too_many (rows_of (found_of matches.now)) }
{
    match matches.get_strs("osc") {
        Some(receivers) => receivers.len() > MAX_RECEIVERS,
        None => false,
    }
}

/// Returns the values of the arguments that were accepted.
fn named(alloc: Global, matches: &ArgMatches<'_>) -> Result<ViewerWords, ViewerWordsFault>
    requires { HasRequired matches.now }
    ensures words { IfOk result (λ words. Names (rows_of (found_of matches.now)) words) }
    ensures memory { IsErrOf result ViewerWordsFault.Usage → ⊥ }
{
    let config = String::from_str(alloc, config_of(matches))?;
    let log = String::from_str(alloc, log_of(matches))?;
    let listen = listen_of(alloc, matches)?;
    let receivers = receivers_of(alloc, matches)?;
    Ok(ViewerWords {
        config,
        log,
        listen,
        workers: workers_of(matches),
        pictures: pictures_of(matches),
        receivers,
    })
}

/// Returns the path of the configuration.
fn config_of<'a>(matches: &ArgMatches<'a>) -> &'a str
    requires { is_some (first_value (found_of matches.now) (codes "config")) ≡ true }
    ensures { first_of (codes "config") (rows_of (found_of matches.now)) ≡ Some result.now }
{
    matches.get_str("config").unwrap()
}

/// Returns the path of the log.
fn log_of<'a>(matches: &ArgMatches<'a>) -> &'a str
    requires { is_some (first_value (found_of matches.now) (codes "log")) ≡ true }
    ensures { first_of (codes "log") (rows_of (found_of matches.now)) ≡ Some result.now }
{
    matches.get_str("log").unwrap()
}

/// Returns a copy of the address at which browsers are answered, if it was given.
fn listen_of(alloc: Global, matches: &ArgMatches<'_>) -> Result<Option<String>, AllocError>
    ensures { IfOk result (λ listen. first_of (codes "listen") (rows_of (found_of matches.now)) ≡ option_map string_bytes listen) }
{
    matches
        .get_str("listen")
        .map(|address| String::from_str(alloc, address))
        .transpose()
}

/// Returns the number of workers.
fn workers_of(matches: &ArgMatches<'_>) -> u32
    ensures { result ≡ workers_in (rows_of (found_of matches.now)) }
{
    match matches.get_str("workers") {
        Some(text) => u32::from(text.parse::<u8>().unwrap_or(0).clamp(1, 64)),
        None => 1,
    }
}

/// Returns whether pictures are wanted.
fn pictures_of(matches: &ArgMatches<'_>) -> bool
    ensures { result ≡ pictures_in (rows_of (found_of matches.now)) }
{
    match matches.get_str("no-pictures") {
        Some(text) => text != "true",
        None => true,
    }
}

/// Returns copies of the addresses of the receivers.
fn receivers_of(alloc: Global, matches: &ArgMatches<'_>) -> Result<Vec<String>, AllocError>
    ensures { IfOk result (λ receivers. map string_bytes receivers.items ≡ receivers_in (rows_of (found_of matches.now))) }
{
    match matches.get_strs("osc") {
        Some(receivers) => copies_of(alloc, receivers),
        None => Ok(Vec::new(alloc)),
    }
}

/// Returns copies of texts.
fn copies_of(alloc: Global, texts: &[&str]) -> Result<Vec<String>, AllocError>
    ensures { IfOk result (λ copies. map string_bytes copies.items ≡ map (λ text. text.now) texts.entry.now) }
{
    let mut copies = Vec::new(alloc);
    for text in texts {
        let copy = String::from_str(alloc, text)?;
        copies.push(copy)?;
    }
    Ok(copies)
}
