//! Pages for browsers, over HTTP/1.1.
//!
//! A program implements [`Pages`]: which page there is at a path, for a query. [`answer_requests`] reads requests from a stream and
//! writes the answers, in their order: `GET` and `HEAD` get the page or 404, every other method 405. A request that is none gets 400,
//! one whose first line or head has more than [`MAX_HEAD`] bytes 414 or 431, one whose body has more 413, one with an unknown transfer
//! coding 501, and then the connection is closed. [`serve_pages`] does so for up to [`MAX_CLIENTS`] connections at once, each in a
//! thread of its own, which gives a request ten seconds. No file is ever served.
//!
//! Browsers run no script and no style but those of the page of `live_view`, by their SHA-256 sums in the policy of each answer.
#![tactic(auto)]

mod answering;
mod content;
mod deadline;
pub mod examples;
mod page;
mod pages;
mod seats;
mod server;
mod site;
#[cfg(test)]
mod tests;

pub use answering::{MAX_HEAD, answer_requests};
pub use content::ContentType;
pub use page::{Page, Status};
pub use pages::Pages;
pub use seats::MAX_CLIENTS;
pub use server::serve_pages;
pub use site::Site;
