//! Reading a decimal.
ghost use Rattle.std.specs.Prelude.{◌≡◌, ◌<◌, min, nat_le, ◌&&◌, if◌then◌else◌, Some, None, IfSome, IsTrue, pos, neg_ℤ, ◌≤ℤ◌};
ghost use Rattle.std.specs.List.{before_first, after_first, position};
ghost use Rattle.std.specs.Str.{chars};
ghost use Rattle.std.specs.Str.Parse.{digits_value, starts_with_minus, without_leading_sign};
ghost use Rattle.amcp_text.specs.Numbers.{are_digits, is_point, is_unsigned_decimal, six_places, unsigned_micro};
ghost use Rattle.amcp_text.specs.Micros.{micro_of};

/// The greatest value without its sign, in millionths.
const LIMIT: u32 = 1_000_000_000;

/// Reads the value of a decimal, in millionths. Digits after the sixth place are dropped before the range is tested.
///
/// A decimal is an optional sign, digits, and optionally a point and digits, with at least one digit in all. The result is
/// `None` exactly if the text is no decimal, or its value is outside -1000 to 1000.
pub fn read_micro(text: &str) -> Option<i64>
    ensures value { result ≡ micro_of (chars text.now) }
    ensures range { IfSome result
        (λ value. (neg_ℤ (pos 1000000000) ≤ℤ value) × (value ≤ℤ pos 1000000000)) }
{
    let text = text.as_bytes();
    let micros = i64::from(read_unsigned(without_sign(text))?);
    Some(if is_negative(text) { -micros } else { micros })
}

/// Reads the value of a decimal without a sign, in millionths, if it is at most 1000.
fn read_unsigned(text: &[u8]) -> Option<u32>
    ensures { let micros = unsigned_micro text.now in
        result ≡ (if is_unsigned_decimal text.now && nat_le micros 1000000000 then Some micros else None) }
{
    let (whole, places) = split_at_point(text);
    if whole.is_empty() && places.is_empty() || !all_digits(whole) || !all_digits(places) {
        return None;
    }
    let micros = capped_whole(whole) * 1_000_000 + millionths(places);
    if micros > LIMIT {
        return None;
    }
    Some(micros)
}

/// Returns whether the text begins with a minus.
fn is_negative(text: &[u8]) -> bool
    ensures { result ≡ starts_with_minus text.now }
{
    matches!(text, [b'-', ..])
}

/// Returns the text without its sign, if it begins with one.
fn without_sign(text: &[u8]) -> &[u8]
    ensures { result.now ≡ without_leading_sign text.now }
{
    match text {
        [b'-' | b'+', unsigned @ ..] => unsigned,
        _ => text,
    }
}

/// Returns the text before the first point and the text after it. If there is no point, they are the whole text and an
/// empty one.
fn split_at_point(text: &[u8]) -> (&[u8], &[u8])
    ensures whole { result.0.now ≡ before_first is_point text.now }
    ensures places { result.1.now ≡ after_first is_point text.now }
{
    match point(text) {
        Some(at) => (&text[..at], &text[at + 1..]),
        None => (text, &[]),
    }
}

/// Returns the position of the first point.
fn point(text: &[u8]) -> Option<usize>
    ensures { result ≡ position is_point text.now }
{
    text.iter().position(|byte| *byte == b'.')
}

/// Returns whether each byte is a digit.
fn all_digits(text: &[u8]) -> bool
    ensures { result ≡ are_digits text.now }
{
    text.iter().all(|byte| byte.is_ascii_digit())
}

/// Reads the number that digits write, or returns 1001 if it is greater.
fn capped_whole(digits: &[u8]) -> u32
    requires { IsTrue (are_digits digits.now) }
    ensures { result ≡ min (digits_value 10 digits.now) 1001 }
{
    let mut value = 0;
    for digit in digits {
        value = (value * 10 + u32::from(*digit - b'0')).min(1001);
    }
    value
}

/// Reads the first six digits after a point, as millionths.
fn millionths(digits: &[u8]) -> u32
    requires { IsTrue (are_digits digits.now) }
    ensures value { result ≡ digits_value 10 (six_places digits.now) }
    ensures below { result < 1000000 }
{
    let mut value = 0;
    for place in 0..6 {
        let digit = match digits.get(place) {
            Some(digit) => *digit - b'0',
            None => 0,
        };
        value = value * 10 + u32::from(digit);
    }
    value
}
