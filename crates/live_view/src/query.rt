//! What a query asks for.
ghost use Rattle.std.specs.Prelude.{◌≡◌, option_copied};
ghost use Rattle.live_view.specs.Query.{after_in, number_after, width_in};

use crate::target::after_prefix;
use amcp_text::number_within;

/// The greatest width that a query may ask for.
pub const MAX_WIDTH: u32 = 65_535;

/// The greatest position from which a query may ask for events.
pub const MAX_AFTER: u32 = 4_294_967_295;

/// Returns the width that a query asks for, `Some(None)` if there is no query, and `None` if the query is wrong.
pub fn width_in(query: Option<&str>) -> Option<Option<u16>>
    ensures { result ≡ width_in (option_copied query.entry) }
{
    match query {
        Some(query) => {
            let width = number_after(b"width=", 1, MAX_WIDTH, query)?;
            Some(Some(width as u16))
        }
        None => Some(None),
    }
}

/// Returns the position from which a query asks for events, 0 if there is no query, and `None` if the query is wrong.
pub fn after_in(query: Option<&str>) -> Option<u32>
    ensures { result ≡ after_in (option_copied query.entry) }
{
    match query {
        Some(query) => number_after(b"after=", 0, MAX_AFTER, query),
        None => Some(0),
    }
}

/// Returns the number after a key, if the whole query is the key and a number from `least` to `most` in digits.
fn number_after(key: &[u8], least: u32, most: u32, query: &str) -> Option<u32>
    ensures { result ≡ number_after key.now least most query.now }
{
    let digits = after_prefix(key, query.as_bytes())?;
    number_within(least, most, digits)
}
