//! Digests of many frames, computed by several threads.
//!
//! [`DigestLines`] is given frames one after another and writes a line with the digest of each, in the order in which they came. A
//! line waits with a copy of its frame until there is no room for another, or until [`DigestLines::finish`] is called. Then the
//! digests of all that wait are computed in parallel, and their lines are written. A frame that is equal to the one kept last for
//! its channel is not copied, and has that one's digest.
#![tactic(auto)]

mod digest_lines;
mod digesting;
mod kept_frame;
mod rooms;
mod waiting;

pub use digest_lines::DigestLines;
