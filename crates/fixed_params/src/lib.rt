//! Parameters as text: decimals in millionths, read and printed, and names in quotation marks.
//!
//! A value is from -1000 to 1000. What is printed reads back to the value.
#![tactic(auto)]

mod print;
mod quote;
mod read;

pub use print::{MicroText, print_micro};
pub use quote::add_quoted;
pub use read::read_micro;
