//! Tests of the parts of the programs: what no clause states. Real files and folders; calls that allocate, with ample memory; values
//! from outside or worked out by hand. Each file is named for the crate that it tests. Tests of several crates together are in
//! `run_tests`, `server_tests` and `device_tests`.
//!
//! The crates below have no tests of their own, since the gate proves a crate that has tests a second time.
#![tactic(auto)]

#[cfg(test)]
mod amcp_text_tests;
#[cfg(test)]
mod clip_format_tests;
#[cfg(test)]
mod clip_store_tests;
#[cfg(test)]
mod cmd_print_tests;
#[cfg(test)]
mod config_file_tests;
#[cfg(test)]
mod frame_writer_tests;
#[cfg(test)]
mod history_reader_tests;
#[cfg(test)]
mod host_system_tests;
#[cfg(test)]
mod lane_blend_tests;
#[cfg(test)]
mod layer_state_tests;
#[cfg(test)]
mod mixer_state_tests;
#[cfg(test)]
mod osc_status_tests;
#[cfg(test)]
mod play_journal_tests;
#[cfg(test)]
mod play_outside_tests;
#[cfg(test)]
mod play_types_tests;
#[cfg(test)]
mod route_graph_tests;
#[cfg(test)]
mod server_setup_tests;
#[cfg(test)]
mod status_display_tests;
#[cfg(test)]
mod view_status_tests;
