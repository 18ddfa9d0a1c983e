//! Worked examples, one module per topic. Each is a function that does nothing, and its contract is the example.
//!
//! Their vocabulary (`at`, `plays`, `row_text` ..) is defined in `specs/Worked.antt`. Rows of pixels are written in hexadecimal
//! letters: blue, green, red and alpha.

pub mod answers;
pub mod generator;
pub mod groups;
pub mod histories;
pub mod limits;
pub mod lives;
pub mod logs;
pub mod pictures;
pub mod places;
pub mod recordings;
pub mod requests;
pub mod routes;
pub mod scripts;
pub mod settings;
pub mod sounds;
