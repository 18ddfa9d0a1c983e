//! The zero bytes after a text.
ghost use Rattle.std.specs.Prelude.{◌≡◌, ◌-◌, ◌%◌, ◌≤◌, length, flat_map};
ghost use Rattle.osc_status.specs.Texts.{without_zeros};

/// Returns how many zero bytes follow a text of these parts, whose own zero bytes are left out: 1 to 4.
pub(crate) fn padding_after(parts: &[&[u8]]) -> usize
    ensures { result ≡ 4 - length (flat_map (λ part. without_zeros part.now) parts.now) % 4 }
{
    let mut over = 0;
    for part in parts {
        over = (over + kept_len(part)) % 4;
    }
    4 - over
}

/// Returns the number of bytes that are not zero.
fn kept_len(bytes: &[u8]) -> usize
    ensures value { result ≡ length (without_zeros bytes.now) }
    ensures range { result ≤ length bytes.now }
{
    bytes.iter().filter(|byte| **byte != 0).count()
}
