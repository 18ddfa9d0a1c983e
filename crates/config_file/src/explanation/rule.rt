//! What the keys of a configuration may hold, for a person.

use crate::section::Section;
use play_types::{
    MAX_CHANNELS, MAX_CONNECTIONS, MAX_JOURNAL_COMMANDS, MAX_PAIRS, MAX_RATE, MAX_SIDE,
};
use std::fmt;
use std::num::saturating_f64_to_u32;
use toml::Value;

/// What a key may hold.
#[derive(Clone, Copy)]
pub(crate) enum Rule {
    /// A string that is not empty.
    Text,
    /// An integer in a range.
    Number { least: u32, greatest: u32 },
    /// An array of tables.
    Channels,
}

impl Rule {
    /// Returns what the key of a table may hold, if it is a known one.
    pub(crate) fn of(section: Section, key: &str) -> Option<Rule> {
        let (least, greatest) = match (section, key) {
            (Section::Top, "listen" | "media") | (Section::Channel(_), "output") => {
                return Some(Rule::Text);
            }
            (Section::Top, "channel") => return Some(Rule::Channels),
            (Section::Top, "rate") => (1, MAX_RATE),
            (Section::Top, "connections") => (1, MAX_CONNECTIONS),
            (Section::Top, "journal_limit") => (1, MAX_JOURNAL_COMMANDS),
            (Section::Channel(_), "width" | "height") => (1, u32::from(MAX_SIDE)),
            (Section::Channel(_), "pairs") => (0, u32::from(MAX_PAIRS)),
            (Section::Top | Section::Channel(_), _) => return None,
        };
        Some(Rule::Number { least, greatest })
    }

    /// Returns the names of the known keys of a table.
    pub(crate) fn names(section: Section) -> &'static [&'static str] {
        match section {
            Section::Top => &[
                "listen",
                "media",
                "rate",
                "connections",
                "journal_limit",
                "channel",
            ],
            Section::Channel(_) => &["width", "height", "pairs", "output"],
        }
    }

    /// Returns whether the other tables have a key of this name: the channels, or the top table.
    pub(crate) fn is_elsewhere(section: Section, key: &str) -> bool {
        let other = match section {
            Section::Top => Section::Channel(1),
            Section::Channel(_) => Section::Top,
        };
        Rule::of(other, key).is_some()
    }

    /// Returns whether a value is allowed.
    pub(crate) fn allows(self, value: &Value) -> bool {
        match (self, value) {
            (Rule::Text, Value::String(text)) => !text.is_empty(),
            (Rule::Number { least, greatest }, Value::Integer(number)) => {
                (i64::from(least)..=i64::from(greatest)).contains(number)
            }
            (Rule::Channels, Value::Array(elements)) => {
                (1..=MAX_CHANNELS).contains(&elements.len())
            }
            (Rule::Text | Rule::Number { .. } | Rule::Channels, _) => false,
        }
    }

    /// Returns the allowed number that is nearest to a value, if the value is a number, also one in quotation marks.
    pub(crate) fn nearest_number(self, value: &Value) -> Option<u32> {
        let Rule::Number { least, greatest } = self else {
            return None;
        };
        let number = match value {
            Value::Integer(number) => u32::try_from((*number).max(0)).unwrap_or(u32::MAX),
            Value::Float(number) => nearest_to(*number)?,
            Value::String(text) => nearest_to(text.as_str().parse().ok()?)?,
            Value::Boolean(_) | Value::Datetime(_) | Value::Array(_) | Value::Table(_) => {
                return None;
            }
        };
        Some(number.max(least).min(greatest))
    }
}

impl fmt::Display for Rule {
    /// Writes what is allowed.
    fn fmt<W: fmt::Write>(&self, f: &mut fmt::Formatter<W>) -> fmt::Result {
        match self {
            Rule::Text => write!(f, "a text in quotation marks that is not empty"),
            Rule::Number { least, greatest } => {
                write!(f, "a whole number from {least} to {greatest}")
            }
            Rule::Channels => write!(f, "1 to {MAX_CHANNELS} tables, each begun by [[channel]]"),
        }
    }
}

/// Returns the whole number nearest to a number, if that is finite.
fn nearest_to(number: f64) -> Option<u32> {
    if !number.is_finite() {
        return None;
    }
    Some(saturating_f64_to_u32(number + 0.5))
}
