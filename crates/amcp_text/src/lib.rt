//! A client's bytes as lines, and a line as words.
//!
//! A line ends at LF, and one CR directly before that LF belongs to the end. A `LineReader` takes a stream in pieces
//! of any size and gives its lines one by one. Which lines it gives does not depend on the sizes of the pieces.
//!
//! The definitions of lines, words, escapes, whole numbers and decimals are in `specs/`. The modules `examples` and `laws`
//! show what they mean.
#![tactic(auto)]

mod escape;
pub mod examples;
pub mod laws;
mod line_reader;
mod number;
mod req_token;
mod token;
mod word_list;

pub use escape::escape_of;
pub use line_reader::{LineEvent, LineReader, MAX_LINE_BYTES, without_carriage_return};
pub use number::{is_whole_number, number_within, plain_number_within, word_within};
pub use req_token::{MAX_TOKEN_BYTES, ReqToken};
pub use token::{TokenFault, tokens};
pub use word_list::WordList;
