//! Whole numbers, written in digits.
ghost use Rattle.std.specs.Prelude.{◌≡◌, ◌≤◌, IfSome, is_some};
ghost use Rattle.std.specs.Str.{chars};
ghost use Rattle.amcp_text.specs.Numbers.{are_digits, number_within, plain_number_within, whole_number};

/// Returns the whole number that a text spells in digits, if it lies from `least` to `most`. Leading zeros are allowed.
pub fn number_within(least: u32, most: u32, text: &[u8]) -> Option<u32>
    ensures value { result ≡ number_within least most text.now }
    ensures range { IfSome result (λ number. (least ≤ number) × (number ≤ most)) }
{
    if text.is_empty() {
        return None;
    }
    let mut value = 0u64;
    for digit in text {
        if !digit.is_ascii_digit() {
            return None;
        }
        value = value * 10 + u64::from(*digit - b'0');
        if value > u64::from(most) {
            return None;
        }
    }
    if value < u64::from(least) {
        None
    } else {
        Some(value as u32)
    }
}

/// Returns the whole number that a text spells in digits without a leading zero, if it lies from `least` to `most`.
pub fn plain_number_within(least: u32, most: u32, text: &[u8]) -> Option<u32>
    ensures { result ≡ plain_number_within least most text.now }
{
    match text.first() {
        Some(b'0') => None,
        _ => number_within(least, most, text),
    }
}

/// Returns the whole number that a word spells in digits, if it lies from `least` to `most`. Leading zeros are allowed.
pub fn word_within(least: u32, most: u32, word: &str) -> Option<u32>
    ensures value { result ≡ number_within least most (chars word.now) }
    ensures range { IfSome result (λ number. (least ≤ number) × (number ≤ most)) }
{
    number_within(least, most, word.as_bytes())
}

/// Returns whether a word is a whole number, of any size.
pub fn is_whole_number(word: &str) -> bool
    ensures { result ≡ is_some (whole_number (chars word.now)) }
{
    !word.is_empty() && are_digits(word.as_bytes())
}

fn are_digits(text: &[u8]) -> bool
    ensures { result ≡ are_digits text.now }
{
    text.iter().all(|byte| byte.is_ascii_digit())
}
