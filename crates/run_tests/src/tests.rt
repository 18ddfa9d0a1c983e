//! The tests, by topic.
mod conversions;
mod digests;
mod made_scripts;
mod plans;
mod scripts;
mod shared;
mod sheets;
mod tellers;
mod worked_runs;
