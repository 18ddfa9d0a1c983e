//! The lines on standard error, for a person. Failures to write them are ignored.

use config_file::{explain, read_config};
use std::alloc::Global;
use std::fmt::Display;
use std::io::Eprint;

/// Reports on standard error, after the name of the program, why a file, a folder or a stream failed.
pub fn complain<E: Eprint, D: Display>(errors: &E, program: &str, of: &str, why: &D) {
    let _ = errors.eprintln(format_args!("{program}: {of}: {why}"));
}

/// Reports why a file of a folder failed.
pub(crate) fn complain_of_file<E: Eprint, D: Display>(
    errors: &E,
    program: &str,
    folder: &str,
    name: &str,
    why: &D,
) {
    let _ = errors.eprintln(format_args!("{program}: {folder}/{name}: {why}"));
}

/// Reports why the bytes of a configuration are refused, if they are. If memory runs out meanwhile, nothing is written.
pub(crate) fn complain_of_config<E: Eprint>(
    errors: &E,
    alloc: Global,
    program: &str,
    path: &str,
    bytes: &[u8],
) {
    let Some(fault) = read_config(alloc, bytes).err() else {
        return;
    };
    if let Some(why) = explain(alloc, bytes, &fault) {
        complain(errors, program, path, &why);
    }
}
