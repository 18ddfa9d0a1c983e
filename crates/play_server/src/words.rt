//! The arguments of the command line.
ghost use Rattle.std.specs.Prelude.{◌≡◌, ◌≢◌, ◌∷◌, ◌++◌, [], true, is_some, codes, List, ℕ, IfOk, IsErrOf, map, take, option_map, Some, string_bytes};
ghost use Rattle.std.specs.Str.{bytes_eq};
ghost use Rattle.clap.specs.Words.{fault_of, first_of, first_value, found_of, matches_of, rows_of, rule_of};
ghost use Rattle.clap.specs.Built.{FitsChain, TakesValue};
ghost use Rattle.play_server.specs.ServerWords.{ReadsWords, Names, config_rule, journal_rule, names_twice, playd_app, resume_rule, workers_in, workers_rule};
ghost use Rattle.play_server.specs.inner.ServerCommand.{IsServerCommand};
ghost use Rattle.play_server.specs.declared.words.ServerWordsFault.TheVariants.{OutOfMemory};

use clap::error::ErrorKind;
use clap::{Arg, ArgAction, ArgMatches, Command};
use std::alloc::{AllocError, Global};
use std::error::Error;
use std::fmt;

/// The name of the program, which `clap` takes as the first word.
const PROGRAM: &str = "playd";

/// The ending of the path of a history's log, after the path of the history.
const LOG_ENDING: &[u8] = b".log";

/// The parsed arguments of `playd`.
#[derive(Debug, Drop)]
pub struct ServerWords {
    /// The path of the configuration.
    pub config: String,
    /// The value of `--workers`, 1 to 64: the number of threads that make the frames.
    pub workers: u32,
    /// The path of the file that the text of the history is written to, if it was given.
    pub journal: Option<String>,
    /// The path of the history that the run goes on from, if it was given.
    pub resume: Option<String>,
}

/// Why the arguments could not be parsed.
#[derive(Clone, Copy, Debug, PartialEq, Eq)]
pub enum ServerWordsFault {
    /// They are not a command line of `playd`.
    Usage,
    /// Memory ran out.
    OutOfMemory,
}

impl fmt::Display for ServerWordsFault {
    fn fmt<W: fmt::Write>(&self, f: &mut fmt::Formatter<W>) -> fmt::Result {
        match self {
            ServerWordsFault::Usage => write!(f, "unknown command line of playd"),
            ServerWordsFault::OutOfMemory => write!(f, "out of memory"),
        }
    }
}

impl Error for ServerWordsFault {}

impl From<AllocError> for ServerWordsFault {
    ghost from_gives = { λ _ fault. fault ≡ OutOfMemory };

    fn from(_error: AllocError) -> ServerWordsFault {
        ServerWordsFault::OutOfMemory
    }
}

impl ServerWords {
    /// Parses the arguments that follow the program's name: `--config FILE` once, and `--workers N`, a number from 1 to 64,
    /// `--journal FILE` and `--resume FILE` at most once each, in any order. Without `--workers` there is one worker.
    ///
    /// Returns `Usage` if `clap` refuses the arguments for another cause than memory, and if `--resume` has the path of `--journal`, or
    /// that path with `.log` after it. Returns `OutOfMemory` if memory runs out.
    pub fn read(alloc: Global, words: &[String]) -> Result<ServerWords, ServerWordsFault>
        ensures { ReadsWords (codes "playd" ∷ map string_bytes words.now) result }
    {
        let line = command_line(alloc, words)?;
        let matches = parse(alloc, line.as_slice())?;
        if names_twice(&matches) {
            return Err(ServerWordsFault::Usage);
        }
        named(alloc, &matches)
    }
}

/// Returns the arguments with the program's name before them.
fn command_line(alloc: Global, words: &[String]) -> Result<Vec<&str>, AllocError>
    ensures { IfOk result (λ line. map (λ word. word.now) line.items ≡ codes "playd" ∷ map string_bytes words.now) }
{
    let mut line = Vec::with_capacity(alloc, words.len() + 1)?;
    line.push_reserved(PROGRAM);
    for word in words {
        line.push_reserved(word.as_str());
    }
    Ok(line)
}

/// Parses `words`, the first of which is the program's name.
fn parse<'a>(alloc: Global, words: &'a [&'a str]) -> Result<ArgMatches<'a>, ServerWordsFault>
    ensures accepted { IfOk result (λ m. (fault_of playd_app (map (λ w. w.now) words.entry.now) ≡ [])
        × (rows_of (found_of m) ≡ matches_of playd_app (map (λ w. w.now) words.entry.now))) }
    ensures config { IfOk result (λ m. is_some (first_value (found_of m) (codes "config")) ≡ true) }
    ensures usage { IsErrOf result ServerWordsFault.Usage
        → fault_of playd_app (map (λ w. w.now) words.entry.now) ≢ [] }
{
    let command = server_command(alloc)?;
    match command.try_get_matches_from(words) {
        Ok(matches) => Ok(matches),
        Err(error) => {
            if error.kind() == ErrorKind::OutOfMemory {
                Err(ServerWordsFault::OutOfMemory)
            } else {
                Err(ServerWordsFault::Usage)
            }
        }
    }
}

/// Returns the `clap` command of `playd`.
fn server_command<'a>(alloc: Global) -> Result<Command<'a>, AllocError>
    ensures { IfOk result IsServerCommand }
{
    let config = config_arg(alloc);
    let workers = workers_arg(alloc);
    let journal = journal_arg(alloc);
    let resume = resume_arg(alloc);
    let bare = Command::new(alloc, PROGRAM)
        .disable_help_flag(true)
        .disable_version_flag(true);
    let one = bare.arg(config)?;
    let two = one.arg(workers)?;
    let three = two.arg(journal)?;
    three.arg(resume)
}

/// Returns the argument `--config FILE`.
fn config_arg<'a>(alloc: Global) -> Arg<'a>
    ensures rule { rule_of result ≡ config_rule }
    ensures fits { FitsChain result }
    ensures value { TakesValue result }
    ensures id { result.id.now ≡ codes "config" }
{
    Arg::new(alloc, "config")
        .long("config")
        .required(true)
        .action(ArgAction::Set)
}

/// Returns the argument `--workers N`.
fn workers_arg<'a>(alloc: Global) -> Arg<'a>
    ensures rule { rule_of result ≡ workers_rule }
    ensures fits { FitsChain result }
    ensures id { result.id.now ≡ codes "workers" }
{
    Arg::new(alloc, "workers")
        .long("workers")
        .action(ArgAction::Set)
        .value_parser(clap::value_parser!(u32).range(1..65))
}

/// Returns the argument `--journal FILE`.
fn journal_arg<'a>(alloc: Global) -> Arg<'a>
    ensures rule { rule_of result ≡ journal_rule }
    ensures fits { FitsChain result }
    ensures id { result.id.now ≡ codes "journal" }
{
    Arg::new(alloc, "journal")
        .long("journal")
        .action(ArgAction::Set)
}

/// Returns the argument `--resume FILE`.
fn resume_arg<'a>(alloc: Global) -> Arg<'a>
    ensures rule { rule_of result ≡ resume_rule }
    ensures fits { FitsChain result }
    ensures id { result.id.now ≡ codes "resume" }
{
    Arg::new(alloc, "resume")
        .long("resume")
        .action(ArgAction::Set)
}

/// Returns whether the arguments name one file as the history to go on from and as the file of the history, or its log.
fn names_twice(matches: &ArgMatches<'_>) -> bool
    ensures { result ≡ names_twice (rows_of (found_of matches.now)) }
{
    match (matches.get_str("resume"), matches.get_str("journal")) {
        (Some(resume), Some(journal)) => resume == journal || is_log_of(resume, journal),
        (Some(_), None) | (None, _) => false,
    }
}

/// Returns whether a path is that of the log of the history with the path `journal`.
fn is_log_of(path: &str, journal: &str) -> bool
    ensures { result ≡ bytes_eq path.now (journal.now ++ codes ".log") }
{
    match path.as_bytes().strip_suffix(LOG_ENDING) {
        Some(front) => front == journal.as_bytes(),
        None => false,
    }
}

/// Returns the values of the arguments that were accepted.
fn named(alloc: Global, matches: &ArgMatches<'_>) -> Result<ServerWords, ServerWordsFault>
    requires { is_some (first_value (found_of matches.now) (codes "config")) ≡ true }
    ensures words { IfOk result (λ words. Names (rows_of (found_of matches.now)) words) }
    ensures memory { IsErrOf result ServerWordsFault.Usage → ⊥ }
{
    let config = String::from_str(alloc, config_of(matches))?;
    let journal = journal_of(alloc, matches)?;
    let resume = resume_of(alloc, matches)?;
    Ok(ServerWords {
        config,
        workers: workers_of(matches),
        journal,
        resume,
    })
}

/// Returns the path of the configuration.
fn config_of<'a>(matches: &ArgMatches<'a>) -> &'a str
    requires { is_some (first_value (found_of matches.now) (codes "config")) ≡ true }
    ensures { first_of (codes "config") (rows_of (found_of matches.now)) ≡ Some result.now }
{
    matches.get_str("config").unwrap()
}

/// Returns the number of workers.
fn workers_of(matches: &ArgMatches<'_>) -> u32
    ensures { result ≡ workers_in (rows_of (found_of matches.now)) }
{
    match matches.get_str("workers") {
        Some(text) => u32::from(text.parse::<u8>().unwrap_or(0).clamp(1, 64)),
        None => 1,
    }
}

/// Returns a copy of the path of the history's file, if it was given.
fn journal_of(alloc: Global, matches: &ArgMatches<'_>) -> Result<Option<String>, AllocError>
    ensures { IfOk result (λ journal. first_of (codes "journal") (rows_of (found_of matches.now)) ≡ option_map string_bytes journal) }
{
    matches
        .get_str("journal")
        .map(|path| String::from_str(alloc, path))
        .transpose()
}

/// Returns a copy of the path of the history to go on from, if it was given.
fn resume_of(alloc: Global, matches: &ArgMatches<'_>) -> Result<Option<String>, AllocError>
    ensures { IfOk result (λ resume. first_of (codes "resume") (rows_of (found_of matches.now)) ≡ option_map string_bytes resume) }
{
    matches
        .get_str("resume")
        .map(|path| String::from_str(alloc, path))
        .transpose()
}
