//! OSC messages for a status display, about what the channels show.
//!
//! A message has the form of OSC 1.0: an address, and numbers and words as its arguments. Its texts are UTF-8, where
//! OSC 1.0 has ASCII. [`write_message`] writes a message, and [`read_message`] reads its bytes back as the message, and
//! refuses other bytes. [`write_status_message`] writes a message of the status after a tick, [`write_channel_status`] and
//! [`write_layer_status`] the lines of a channel and of a layer, each with the bytes of one message in hexadecimal.
//!
//! `specs/` defines messages and the status after a tick. The modules `examples` and `laws` have worked examples and a law
//! of these definitions.
#![tactic(auto)]

mod address;
mod arg;
pub mod examples;
mod form;
pub mod laws;
mod layer;
mod message;
mod padding;
mod parts;
mod producer;
mod reading;
mod status;
mod status_message;
mod text;
mod writing;

pub use arg::{ArgList, OscArg, OscValue};
pub use layer::LayerStatus;
pub use message::{Message, OscFault, read_message};
pub use status::{write_channel_status, write_layer_status};
pub use status_message::{StatusMessage, TICKS_MODULUS, write_status_message};
pub use writing::write_message;
