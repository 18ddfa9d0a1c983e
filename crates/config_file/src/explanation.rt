//! Why a configuration is refused, for a person.

mod problem;
mod rule;
mod shown;
mod spelling;

use crate::fault::ConfigFault;
use crate::section::Section;
use problem::{Hint, Problem, Wrong};
use rule::Rule;
use spelling::Nearest;
use std::alloc::Global;
use toml::de::Error;
use toml::{Table, Value};

/// Returns why the bytes of a configuration are refused with a fault: the line and the column of what TOML refuses, or the
/// value at a key, what is allowed there, and the nearest allowed number or key, if there is one. It is a part of a line, as
/// `rate = 29.97: a whole number from 1 to 240; 30 is the nearest`. Lines and columns count from 1, and a column is a
/// character.
///
/// Returns `None` if memory ran out, or if the bytes are TOML and do not have this fault.
pub fn explain(alloc: Global, bytes: &[u8], fault: &ConfigFault) -> Option<String> {
    match toml::table_from_slice(alloc, bytes) {
        Ok(table) => match fault {
            ConfigFault::Key(name) => {
                let wrong = find_wrong(alloc, &table, name.as_str())?;
                format!(in alloc; "{wrong}").ok()
            }
            ConfigFault::NotToml | ConfigFault::OutOfMemory => None,
        },
        Err(error) => explain_text(alloc, bytes, &error),
    }
}

/// Returns where a text is no TOML, and why.
fn explain_text(alloc: Global, bytes: &[u8], error: &Error) -> Option<String> {
    let before = bytes.get(..error.span()?.start)?;
    let (line, column) = place_after(before);
    let why = error.message();
    format!(in alloc; "line {line}, column {column}: {why}").ok()
}

/// Returns the line and the column of what follows these bytes. A byte order mark at the beginning is not counted.
fn place_after(before: &[u8]) -> (usize, usize) {
    let (mut line, mut column) = (1usize, 1usize);
    for byte in before.strip_prefix(b"\xef\xbb\xbf").unwrap_or(before) {
        if *byte == b'\n' {
            line = line.saturating_add(1);
            column = 1;
        } else if *byte & 0xc0 != 0x80 {
            column = column.saturating_add(1);
        }
    }
    (line, column)
}

/// Returns what is wrong at the key that a fault names. A name as `channel.1.width` may be an unknown key of the top table.
fn find_wrong<'a>(alloc: Global, top: &'a Table, name: &'a str) -> Option<Wrong<'a>> {
    match wrong_in_channel(alloc, top, name) {
        Some(wrong) => Some(wrong),
        None => wrong_at(alloc, Section::Top, top, top, name),
    }
}

/// Returns what is wrong at a key of a channel, or at the channel itself, by a name as `channel.1.width` or `channel.1`.
fn wrong_in_channel<'a>(alloc: Global, top: &'a Table, name: &'a str) -> Option<Wrong<'a>> {
    let name = name.strip_prefix("channel.")?;
    let (number, key) = match name.split_once('.') {
        Some((number, key)) => (number, Some(key)),
        None => (name, None),
    };
    let number: usize = number.parse().ok()?;
    let elements = top.get("channel")?.as_array()?.as_slice();
    let element = elements.get(number.checked_sub(1)?)?;
    match (element.as_table(), key) {
        (Some(table), Some(key)) => wrong_at(alloc, Section::Channel(number), top, table, key),
        (None, None) => Some(Wrong {
            section: Section::Top,
            key: "channel",
            problem: Problem::NoTable {
                number,
                value: element,
            },
        }),
        (Some(_), None) | (None, Some(_)) => None,
    }
}

/// Returns what is wrong at a key of a table, or `None` if nothing is.
fn wrong_at<'a>(
    alloc: Global,
    section: Section,
    top: &'a Table,
    table: &'a Table,
    key: &'a str,
) -> Option<Wrong<'a>> {
    let problem = match (Rule::of(section, key), table.get(key)) {
        (Some(rule), Some(value)) if rule.allows(value) => return None,
        (Some(rule), Some(value)) => Problem::Refused { rule, value },
        (Some(rule), None) => Problem::Missing {
            rule,
            hint: hint_of_missing(alloc, section, top, table, key),
        },
        (None, Some(_)) => Problem::Unknown {
            hint: hint_of_unknown(alloc, section, key),
        },
        (None, None) => return None,
    };
    Some(Wrong {
        section,
        key,
        problem,
    })
}

/// Returns what may be meant by a key that is missing: an unknown key of the table that is near to it, or, for a key of the
/// top table, one of the same name in a channel.
fn hint_of_missing<'a>(
    alloc: Global,
    section: Section,
    top: &'a Table,
    table: &'a Table,
    key: &str,
) -> Hint<'a> {
    match (nearest_unknown(alloc, section, table, key), section) {
        (Some(name), _) => Hint::Instead(name),
        (None, Section::Top) if is_in_a_channel(top, key) => Hint::BelowChannel,
        (None, Section::Top | Section::Channel(_)) => Hint::None,
    }
}

/// Returns the unknown key of a table that is nearest to the known key `key`, if one is near.
fn nearest_unknown<'a>(
    alloc: Global,
    section: Section,
    table: &'a Table,
    key: &str,
) -> Option<&'a str> {
    let mut nearest = Nearest::new(alloc);
    for other in table.keys() {
        if Rule::of(section, other.as_str()).is_none() {
            nearest.offer(key, other.as_str());
        }
    }
    nearest.name()
}

/// Returns what may be meant by an unknown key: a key of this name of the other tables, or a known one that is near to it.
fn hint_of_unknown<'a>(alloc: Global, section: Section, key: &str) -> Hint<'a> {
    if Rule::is_elsewhere(section, key) {
        return Hint::Elsewhere;
    }
    let mut nearest = Nearest::new(alloc);
    for name in Rule::names(section) {
        nearest.offer(key, name);
    }
    match nearest.name() {
        Some(name) => Hint::Nearest(name),
        None => Hint::None,
    }
}

/// Returns whether some channel has a key of this name.
fn is_in_a_channel(top: &Table, key: &str) -> bool {
    let Some(elements) = top.get("channel").and_then(|it| it.as_array()) else {
        return false;
    };
    elements
        .iter()
        .filter_map(|it: &Value| it.as_table())
        .any(|it| it.get(key).is_some())
}
