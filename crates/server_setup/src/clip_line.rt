//! The line of a run whose input is no clip.
ghost use Rattle.std.specs.Prelude.{◌≡◌, ◌∷◌, ◌++◌, [], MatchOption};
ghost use Rattle.server_setup.specs.Fault.{HasNumber, clip_line, clip_status};
ghost use Rattle.server_setup.specs.inner.Detail.{first_number, second_number};

use itoa::Buffer;
use play_types::ClipFault;

/// Returns the exit status: 2, or 5 if memory ran out.
pub(crate) fn status(fault: ClipFault) -> u8
    ensures { result ≡ clip_status fault }
{
    match fault {
        ClipFault::BadMagic
        | ClipFault::BadVersion
        | ClipFault::BadField { .. }
        | ClipFault::Short { .. }
        | ClipFault::Long { .. } => 2,
        ClipFault::OutOfMemory => 5,
    }
}

/// Returns the line without its line feed, if it has no number.
pub(crate) fn short(fault: ClipFault) -> Option<&'static str>
    ensures { MatchOption result (HasNumber fault) (λ line. line.now ++ 10 ∷ [] ≡ clip_line fault) }
{
    match fault {
        ClipFault::BadField { .. } | ClipFault::Short { .. } | ClipFault::Long { .. } => None,
        ClipFault::BadMagic | ClipFault::BadVersion | ClipFault::OutOfMemory => Some(label(fault)),
    }
}

/// Returns the line up to its numbers: all of it, without its line feed, if it has none.
pub(crate) fn label(fault: ClipFault) -> &'static str
    ensures { result.now ++ first_number fault ++ second_number fault ++ 10 ∷ [] ≡ clip_line fault }
{
    match fault {
        ClipFault::BadMagic => "E clip magic",
        ClipFault::BadVersion => "E clip version",
        ClipFault::BadField { .. } => "E clip field ",
        ClipFault::Short { .. } => "E clip short ",
        ClipFault::Long { .. } => "E clip long ",
        ClipFault::OutOfMemory => "E memory",
    }
}

/// Returns the first number of the line, or nothing if it has none. The number is written into `digits`.
pub(crate) fn first_number<'a>(fault: ClipFault, digits: &'a mut Buffer) -> &'a str
    ensures { result.now ≡ first_number fault }
{
    match fault {
        ClipFault::BadField { at } => digits.format(at),
        ClipFault::Short { needed, .. } => digits.format(needed),
        ClipFault::Long { extra } => digits.format(extra),
        ClipFault::BadMagic | ClipFault::BadVersion | ClipFault::OutOfMemory => "",
    }
}

/// Returns the second number of the line, if it has one. The number is written into `digits`.
pub(crate) fn second_number<'a>(fault: ClipFault, digits: &'a mut Buffer) -> Option<&'a str>
    ensures { MatchOption result (second_number fault ≡ []) (λ number. 32 ∷ number.now ≡ second_number fault) }
{
    match fault {
        ClipFault::Short { had, .. } => Some(digits.format(had)),
        ClipFault::BadMagic
        | ClipFault::BadVersion
        | ClipFault::BadField { .. }
        | ClipFault::Long { .. }
        | ClipFault::OutOfMemory => None,
    }
}
