//! Keys and values as a person reads them in one line.

use crate::section::Section;
use std::fmt;
use toml::Value;

/// The most characters of a text that are shown.
const MOST_CHARACTERS: usize = 60;

/// A text in quotation marks, with escapes for what cannot be seen. A longer text is cut to 60 characters, and two points follow.
#[derive(Clone, Copy)]
pub(crate) struct ShownText<'a>(pub(crate) &'a str);

impl fmt::Display for ShownText<'_> {
    fn fmt<W: fmt::Write>(&self, f: &mut fmt::Formatter<W>) -> fmt::Result {
        match self.0.char_indices().nth(MOST_CHARACTERS) {
            Some((at, _)) => {
                let beginning = self.0.get(..at).unwrap_or("");
                write!(f, "{beginning:?}..")
            }
            None => {
                let text = self.0;
                write!(f, "{text:?}")
            }
        }
    }
}

/// A key, without quotation marks if TOML allows that and the key is short.
#[derive(Clone, Copy)]
pub(crate) struct ShownKey<'a>(pub(crate) &'a str);

impl fmt::Display for ShownKey<'_> {
    fn fmt<W: fmt::Write>(&self, f: &mut fmt::Formatter<W>) -> fmt::Result {
        let key = self.0;
        if is_bare(key) {
            write!(f, "{key}")
        } else {
            let key = ShownText(key);
            write!(f, "{key}")
        }
    }
}

/// Returns whether TOML allows a key without quotation marks, and it is short enough to be shown whole.
fn is_bare(key: &str) -> bool {
    let is_short = (1..=MOST_CHARACTERS).contains(&key.len());
    is_short && key.bytes().all(|byte| byte.is_ascii_alphanumeric() || byte == b'-' || byte == b'_')
}

/// A value. An array is shown as `[..]`, and a table as `{..}`.
#[derive(Clone, Copy)]
pub(crate) struct ShownValue<'a>(pub(crate) &'a Value);

impl fmt::Display for ShownValue<'_> {
    fn fmt<W: fmt::Write>(&self, f: &mut fmt::Formatter<W>) -> fmt::Result {
        match self.0 {
            Value::String(text) => {
                let text = ShownText(text.as_str());
                write!(f, "{text}")
            }
            Value::Integer(number) => write!(f, "{number}"),
            Value::Float(number) => write!(f, "{number:?}"),
            Value::Boolean(is_true) => write!(f, "{is_true}"),
            Value::Datetime(date) => write!(f, "{date}"),
            Value::Array(_) => write!(f, "[..]"),
            Value::Table(_) => write!(f, "{{..}}"),
        }
    }
}

/// The place of a key: the key alone, or after its channel.
#[derive(Clone, Copy)]
pub(crate) struct ShownPlace<'a> {
    pub(crate) section: Section,
    pub(crate) key: &'a str,
}

impl fmt::Display for ShownPlace<'_> {
    fn fmt<W: fmt::Write>(&self, f: &mut fmt::Formatter<W>) -> fmt::Result {
        let key = ShownKey(self.key);
        match self.section {
            Section::Top => write!(f, "{key}"),
            Section::Channel(number) => write!(f, "channel.{number}.{key}"),
        }
    }
}
