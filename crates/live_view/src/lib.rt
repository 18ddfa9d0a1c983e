//! What is on air, as far as a log of script lines has been read, for browsers and for receivers of status messages.
//!
//! A [`LiveView`] takes the bytes of a log piece by piece, and plays their lines on a stage of its own. It returns the page at a path,
//! which is that of exactly the history of the bytes taken so far (`IsPage` of `specs/Page.antt`), and the status messages that are due
//! after it. While a log brings many ticks at once the view makes no frames. [`LiveView::settle`] makes those of the last tick, once no
//! more bytes are there for now.
#![tactic(auto)]

mod display;
pub mod examples;
mod maker;
mod options;
mod page;
mod page_script;
mod page_text;
mod query;
mod target;
mod view;

pub use display::ViewDisplay;
pub use options::ViewOptions;
pub use page_text::PAGE;
pub use view::LiveView;
