//! What is wrong with a configuration, as a sentence.

use super::rule::Rule;
use super::shown::{ShownKey, ShownPlace, ShownValue};
use crate::section::Section;
use std::fmt;
use toml::Value;

/// What is wrong at a key of a table.
#[derive(Clone, Copy)]
pub(crate) struct Wrong<'a> {
    pub(crate) section: Section,
    pub(crate) key: &'a str,
    pub(crate) problem: Problem<'a>,
}

/// What is wrong with a key, its value, or a whole channel.
#[derive(Clone, Copy)]
pub(crate) enum Problem<'a> {
    /// The key is missing, and has no default.
    Missing { rule: Rule, hint: Hint<'a> },
    /// The value is of another type, or out of range.
    Refused { rule: Rule, value: &'a Value },
    /// The table may have no such key.
    Unknown { hint: Hint<'a> },
    /// The element of `channel` with this number is no table.
    NoTable { number: usize, value: &'a Value },
}

/// What may have been meant.
#[derive(Clone, Copy)]
pub(crate) enum Hint<'a> {
    /// Nothing is near.
    None,
    /// A known key.
    Nearest(&'a str),
    /// An unknown key, in place of the missing one.
    Instead(&'a str),
    /// The missing key of the top table was put into a channel.
    BelowChannel,
    /// The other tables may have a key of this name.
    Elsewhere,
}

impl fmt::Display for Wrong<'_> {
    fn fmt<W: fmt::Write>(&self, f: &mut fmt::Formatter<W>) -> fmt::Result {
        let place = ShownPlace {
            section: self.section,
            key: self.key,
        };
        match self.problem {
            Problem::Missing { rule, hint } => {
                write!(f, "{place} is missing: {rule}")?;
                write_hint(f, self.section, self.key, hint)
            }
            Problem::Refused { rule, value } => write_refused(f, place, rule, value),
            Problem::Unknown { hint } => {
                let keys = keys_of(self.section);
                write!(f, "{place} is no key: {keys}")?;
                write_hint(f, self.section, self.key, hint)
            }
            Problem::NoTable { number, value } => write_no_table(f, number, value),
        }
    }
}

/// Returns which keys a table may have.
fn keys_of(section: Section) -> &'static str {
    match section {
        Section::Top => { "there are listen, media, rate, connections, journal_limit and channel" }
        Section::Channel(_) => "a channel has width, height, pairs and output",
    }
}

/// Writes a value that is refused, what is allowed, and the nearest allowed number, if the value is a number.
fn write_refused<W: fmt::Write>(
    f: &mut fmt::Formatter<W>,
    place: ShownPlace<'_>,
    rule: Rule,
    value: &Value,
) -> fmt::Result {
    if let (Rule::Channels, Value::Array(elements)) = (rule, value) {
        let count = elements.len();
        return write!(f, "{place} has {count} elements: {rule}");
    }
    let shown = ShownValue(value);
    write!(f, "{place} = {shown}: {rule}")?;
    if let (Rule::Number { .. }, Value::String(_)) = (rule, value) {
        write!(f, ", without quotation marks")?;
    }
    if let (Rule::Channels, Value::Table(_)) = (rule, value) {
        write!(f, "; [[channel]] in place of [channel] makes one")?;
    }
    match rule.nearest_number(value) {
        Some(nearest) => write!(f, "; {nearest} is the nearest"),
        None => Ok(()),
    }
}

/// Writes that an element of `channel` is no table.
fn write_no_table<W: fmt::Write>(
    f: &mut fmt::Formatter<W>,
    number: usize,
    value: &Value,
) -> fmt::Result {
    let shown = ShownValue(value);
    write!(
        f,
        "channel.{number} = {shown}: a table with width, height and output, begun by [[channel]]"
    )
}

/// Writes what may have been meant by a key.
fn write_hint<W: fmt::Write>(
    f: &mut fmt::Formatter<W>,
    section: Section,
    key: &str,
    hint: Hint<'_>,
) -> fmt::Result {
    let key = ShownKey(key);
    match hint {
        Hint::None => Ok(()),
        Hint::Nearest(name) => write!(f, "; {name} is the nearest"),
        Hint::Instead(name) => {
            let name = ShownKey(name);
            write!(f, "; there is {name}, which is no key")
        }
        Hint::BelowChannel => write!(f, "; it is below [[channel]], and belongs above it"),
        Hint::Elsewhere => match section {
            Section::Top => write!(f, "; {key} belongs below [[channel]]"),
            Section::Channel(_) => write!(f, "; {key} belongs above the first [[channel]]"),
        },
    }
}
