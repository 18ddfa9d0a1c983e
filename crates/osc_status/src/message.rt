//! Messages that are read.
ghost use Rattle.std.specs.Prelude.{◌≡◌, ◌↔◌, ◌⊎◌, Ok, Err, IfOk};
ghost use Rattle.osc_status.specs.Message.{IsMessageOf};
ghost use Rattle.osc_status.specs.declared.message.OscFault.TheVariants.{NoMessage, OutOfMemory};
ghost use Rattle.osc_status.specs.inner.Reading.{IsReadAs, message_at};

use crate::arg::ArgList;
use crate::parts::{are_values, args_of, parts_of};
use play_types::Text;
use std::alloc::{AllocError, Global};
use std::error::Error;
use std::fmt;

/// A message: its address and its arguments.
#[derive(Debug, Drop)]
pub struct Message {
    /// Text without a zero character that begins with `/`.
    pub address: Text,
    pub args: ArgList,
}

/// Why bytes were not read as a message.
#[derive(Clone, Copy, Debug, PartialEq, Eq)]
pub enum OscFault {
    /// The bytes are no message.
    NoMessage,
    /// Memory ran out before the message was read.
    OutOfMemory,
}

impl fmt::Display for OscFault {
    fn fmt<W: fmt::Write>(&self, f: &mut fmt::Formatter<W>) -> fmt::Result {
        match self {
            OscFault::NoMessage => write!(f, "the bytes are no message"),
            OscFault::OutOfMemory => write!(f, "out of memory"),
        }
    }
}

impl Error for OscFault {}

impl From<AllocError> for OscFault {
    ghost use Rattle.std.specs.Prelude.{◌≡◌};
    ghost use Rattle.osc_status.specs.declared.message.OscFault.TheVariants.{OutOfMemory};

    ghost from_gives = { λ _ fault. fault ≡ OutOfMemory };

    fn from(_error: AllocError) -> OscFault {
        OscFault::OutOfMemory
    }
}

/// Reads the bytes of a message of the form of OSC 1.0, whose arguments are numbers and words and whose texts are UTF-8.
///
/// The address begins with `/`, each text ends with a zero byte and has further ones up to a multiple of four, and nothing
/// follows the last argument. [`OscFault::NoMessage`] is returned exactly if the bytes are no such message.
pub fn read_message(alloc: Global, bytes: &[u8]) -> Result<Message, OscFault>
    ensures read { IfOk result (λ message. IsMessageOf bytes.now message) }
    ensures again { (message : Message) → IsMessageOf bytes.now message → (result ≡ Ok message) ⊎ (result ≡ Err OutOfMemory) }
    ensures none { (result ≡ Err NoMessage) ↔ ((message : Message) → IsMessageOf bytes.now message → ⊥) }
{
    message_in(alloc, bytes)
}

/// Returns the message whose bytes these are.
#[tactic(auto, unfolding(crate::specs::inner::Reading::message_at))]
fn message_in(alloc: Global, bytes: &[u8]) -> Result<Message, OscFault>
    ensures { IsReadAs (message_at bytes.now) result }
{
    let Some((address, kinds, values)) = parts_of(bytes) else {
        return Err(OscFault::NoMessage);
    };
    if !are_values(kinds, values) {
        return Err(OscFault::NoMessage);
    }
    Ok(Message {
        address: Text::copy(alloc, address)?,
        args: args_of(alloc, kinds, values)?,
    })
}
