//! The faults of a run.
ghost use Rattle.std.specs.Prelude.{◌≡◌, ◌∷◌, ◌++◌, [], IfOk, MatchOption, string_bytes};
ghost use Rattle.play_outside.specs.Sink.{Sends};
ghost use Rattle.server_setup.specs.Fault.{HasDetail, fault_line, fault_of_clip, fault_of_config, fault_of_file, fault_of_scan, status_of};
ghost use Rattle.server_setup.specs.inner.Detail.{detail_of, second_of};
ghost use Rattle.server_setup.specs.declared.fault.RunFault.TheVariants.{Device, OutOfMemory};

use crate::clip_line;
use clip_store::ScanFault;
use config_file::ConfigFault;
use itoa::Buffer;
use play_outside::{FileFault, Sent, Sink, WriteFailed, send_parts};
use play_types::{ClipFault, Text};
use std::alloc::{AllocError, Global};
use std::error::Error;
use std::fmt;

/// Why a run of `playrun` or of `playd` ended with a status above 0.
#[derive(Debug, Drop)]
pub enum RunFault {
    /// The words are no command line of the program.
    Usage,
    /// The configuration is not TOML.
    ConfigText,
    /// This key of the configuration is refused, such as `rate` or `channel.1.pairs`.
    ConfigKey(Text),
    /// The line of a script with this number, counted from 1, is no line of a script.
    BadLine(u64),
    /// The input is too long: a script of more than 4,294,967,296 bytes, a clip of more than 1,073,741,824, or a cue
    /// sheet of more than 268,435,456.
    InputTooLong,
    /// The line with this number, counted from 1, is the first faulty one of a cue sheet.
    Plan(u32),
    /// The cue sheet has no END.
    PlanEnd,
    /// The script has no film of this name.
    Record(Text),
    /// The line with this number, counted from 1, is the first line of a history that cannot be resumed.
    Resume(u64),
    /// The input is no clip.
    Clip(ClipFault),
    /// Two clip files have this name.
    MediaTwice(Text),
    /// The clip files are too large: this sum of their lengths, in bytes, is above 1,073,741,824.
    MediaTotal(u64),
    /// A read or a write failed.
    Device,
    /// Memory ran out.
    OutOfMemory,
}

impl RunFault {
    /// Returns the exit status: 1 for the command line, 2 for the configuration, the script, the cue sheet, the
    /// recording, the history that is resumed and the clip that is read, 3 for the clips of the folder, 4 for a device and 5 for memory.
    pub fn status(&self) -> u8
        ensures { result ≡ status_of self.now }
    {
        match self {
            RunFault::Usage => 1,
            RunFault::ConfigText
            | RunFault::ConfigKey(_)
            | RunFault::BadLine(_)
            | RunFault::InputTooLong
            | RunFault::Plan(_)
            | RunFault::PlanEnd
            | RunFault::Record(_)
            | RunFault::Resume(_) => 2,
            RunFault::Clip(fault) => clip_line::status(*fault),
            RunFault::MediaTwice(_) | RunFault::MediaTotal(_) => 3,
            RunFault::Device => 4,
            RunFault::OutOfMemory => 5,
        }
    }

    /// Writes the line of the fault.
    pub fn send_line<K: Sink>(&self, to: &mut K) -> Sent
        ensures { Sends result (fault_line self.now) (K.state to.old) (K.state to.new) }
    {
        let mut digits = Buffer::new();
        let mut more_digits = Buffer::new();
        let detail = self.detail(&mut digits);
        match self.second(&mut more_digits) {
            Some(second) => send_numbers(self.label(), detail, second, to),
            None => send_both(self.label(), detail, to),
        }
    }

    /// Returns the line without its line feed, if it has neither a name nor a number.
    pub fn short_line(&self) -> Option<&'static str>
        ensures { MatchOption result (HasDetail self.now) (λ line. line.now ++ 10 ∷ [] ≡ fault_line self.now) }
    {
        match self {
            RunFault::ConfigKey(_)
            | RunFault::BadLine(_)
            | RunFault::Plan(_)
            | RunFault::Record(_)
            | RunFault::Resume(_)
            | RunFault::MediaTwice(_)
            | RunFault::MediaTotal(_) => None,
            RunFault::Clip(fault) => clip_line::short(*fault),
            RunFault::Usage
            | RunFault::ConfigText
            | RunFault::InputTooLong
            | RunFault::PlanEnd
            | RunFault::Device
            | RunFault::OutOfMemory => Some(self.label()),
        }
    }

    /// Returns the line without its line feed.
    pub fn line(&self, alloc: Global) -> Result<String, AllocError>
        ensures { IfOk result (λ line. string_bytes line ++ 10 ∷ [] ≡ fault_line self.now) }
    {
        let mut digits = Buffer::new();
        let mut more_digits = Buffer::new();
        let detail = self.detail(&mut digits);
        let mut line = String::from_str(alloc, self.label())?;
        line.push_str(detail)?;
        if let Some(second) = self.second(&mut more_digits) {
            line.push_str(" ")?;
            line.push_str(second)?;
        }
        Ok(line)
    }

    /// Returns the line up to its name or its numbers: all of it, without its line feed, if it has none.
    fn label(&self) -> &'static str
        ensures { result.now ++ detail_of self.now ++ second_of self.now ++ 10 ∷ [] ≡ fault_line self.now }
    {
        match self {
            RunFault::Usage => "E usage",
            RunFault::ConfigText => "E config text",
            RunFault::ConfigKey(_) => "E config key ",
            RunFault::BadLine(_) => "E line ",
            RunFault::InputTooLong => "E input too long",
            RunFault::Plan(_) => "E plan ",
            RunFault::PlanEnd => "E plan end",
            RunFault::Record(_) => "E record ",
            RunFault::Resume(_) => "E resume ",
            RunFault::Clip(fault) => clip_line::label(*fault),
            RunFault::MediaTwice(_) => "E media twice ",
            RunFault::MediaTotal(_) => "E media total ",
            RunFault::Device => "E device",
            RunFault::OutOfMemory => "E memory",
        }
    }

    /// Returns the name or the first number of the line, or nothing if it has neither. A number is written into
    /// `digits`.
    fn detail<'a>(&'a self, digits: &'a mut Buffer) -> &'a str
        ensures { result.now ≡ detail_of self.entry.now }
    {
        match self {
            RunFault::ConfigKey(name) | RunFault::Record(name) | RunFault::MediaTwice(name) =>
                name.as_str(),
            RunFault::BadLine(number) | RunFault::Resume(number) | RunFault::MediaTotal(number) =>
                digits.format(*number),
            RunFault::Plan(number) => digits.format(*number),
            RunFault::Clip(fault) => clip_line::first_number(*fault, digits),
            RunFault::Usage
            | RunFault::ConfigText
            | RunFault::InputTooLong
            | RunFault::PlanEnd
            | RunFault::Device
            | RunFault::OutOfMemory => "",
        }
    }

    /// Returns the second number of the line, if it has one. The number is written into `digits`.
    fn second<'a>(&'a self, digits: &'a mut Buffer) -> Option<&'a str>
        ensures { MatchOption result (second_of self.entry.now ≡ []) (λ number. 32 ∷ number.now ≡ second_of self.entry.now) }
    {
        match self {
            RunFault::Clip(fault) => clip_line::second_number(*fault, digits),
            RunFault::Usage
            | RunFault::ConfigText
            | RunFault::ConfigKey(_)
            | RunFault::BadLine(_)
            | RunFault::InputTooLong
            | RunFault::Plan(_)
            | RunFault::PlanEnd
            | RunFault::Record(_)
            | RunFault::Resume(_)
            | RunFault::MediaTwice(_)
            | RunFault::MediaTotal(_)
            | RunFault::Device
            | RunFault::OutOfMemory => None,
        }
    }
}

/// Writes a line with two numbers, with a space between them.
fn send_numbers<'a, K: Sink>(label: &'a str, first: &'a str, second: &'a str, to: &mut K) -> Sent
    ensures { Sends result (label.now ++ first.now ++ 32 ∷ second.now ++ 10 ∷ []) (K.state to.old) (K.state to.new) }
{
    send_parts(
        &[
            label.as_bytes(),
            first.as_bytes(),
            b" ",
            second.as_bytes(),
            b"\n",
        ],
        to,
    )
}

/// Writes a line of two parts.
fn send_both<'a, K: Sink>(label: &'a str, detail: &'a str, to: &mut K) -> Sent
    ensures { Sends result (label.now ++ detail.now ++ 10 ∷ []) (K.state to.old) (K.state to.new) }
{
    send_parts(&[label.as_bytes(), detail.as_bytes(), b"\n"], to)
}

impl fmt::Display for RunFault {
    fn fmt<W: fmt::Write>(&self, f: &mut fmt::Formatter<W>) -> fmt::Result {
        match self {
            RunFault::Usage => write!(f, "the command line is none that the program takes"),
            RunFault::ConfigText => write!(f, "the configuration is not TOML"),
            RunFault::ConfigKey(key) => {
                let key = key.as_str();
                write!(f, "the key {key} of the configuration is refused")
            }
            RunFault::BadLine(number) => write!(f, "line {number} is not valid"),
            RunFault::InputTooLong => write!(f, "the input has more bytes than are read"),
            RunFault::Plan(number) => write!(f, "line {number} of the cue sheet is not valid"),
            RunFault::PlanEnd => write!(f, "the cue sheet has no END"),
            RunFault::Record(name) => {
                let name = name.as_str();
                write!(f, "nothing was recorded under the name {name}")
            }
            RunFault::Resume(number) => write!(f, "line {number} of the history cannot be resumed"),
            RunFault::Clip(fault) => write!(f, "the input is no clip: {fault}"),
            RunFault::MediaTwice(name) => {
                let name = name.as_str();
                write!(f, "two clip files have the name {name}")
            }
            RunFault::MediaTotal(total) => {
                write!(
                    f,
                    "the clip files have {total} bytes, more than 1,073,741,824"
                )
            }
            RunFault::Device => write!(f, "a read or a write failed"),
            RunFault::OutOfMemory => write!(f, "out of memory"),
        }
    }
}

impl Error for RunFault {}

impl From<FileFault> for RunFault {
    ghost from_gives = { λ error fault. fault ≡ fault_of_file error };

    fn from(error: FileFault) -> RunFault {
        match error {
            FileFault::Failed => RunFault::Device,
            FileFault::OutOfMemory => RunFault::OutOfMemory,
        }
    }
}

impl From<ConfigFault> for RunFault {
    ghost from_gives = { λ error fault. fault ≡ fault_of_config error };

    fn from(error: ConfigFault) -> RunFault {
        match error {
            ConfigFault::NotToml => RunFault::ConfigText,
            ConfigFault::Key(name) => RunFault::ConfigKey(name),
            ConfigFault::OutOfMemory => RunFault::OutOfMemory,
        }
    }
}

impl From<ClipFault> for RunFault {
    ghost from_gives = { λ error fault. fault ≡ fault_of_clip error };

    fn from(error: ClipFault) -> RunFault {
        match error {
            ClipFault::BadMagic
            | ClipFault::BadVersion
            | ClipFault::BadField { .. }
            | ClipFault::Short { .. }
            | ClipFault::Long { .. } => RunFault::Clip(error),
            ClipFault::OutOfMemory => RunFault::OutOfMemory,
        }
    }
}

impl From<ScanFault> for RunFault {
    ghost from_gives = { λ error fault. fault ≡ fault_of_scan error };

    fn from(error: ScanFault) -> RunFault {
        match error {
            ScanFault::ReadFault => RunFault::Device,
            ScanFault::TwoNames { name } => RunFault::MediaTwice(name),
            ScanFault::TooLarge { total } => RunFault::MediaTotal(total),
            ScanFault::OutOfMemory => RunFault::OutOfMemory,
        }
    }
}

impl From<AllocError> for RunFault {
    ghost from_gives = { λ _ fault. fault ≡ OutOfMemory };

    fn from(_error: AllocError) -> RunFault {
        RunFault::OutOfMemory
    }
}

impl From<WriteFailed> for RunFault {
    ghost from_gives = { λ _ fault. fault ≡ Device };

    fn from(_failed: WriteFailed) -> RunFault {
        RunFault::Device
    }
}
