//! Sites in memory: one that hands out the devices that it was made with, and one whose devices never fail.

mod copies;
mod kept_devices;
mod kept_history;
mod mem_site;
mod plain_site;

pub use mem_site::MemSite;
pub use plain_site::PlainSite;
