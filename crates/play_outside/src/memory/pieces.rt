//! Bytes that are added within the capacity of a vector.
ghost use Rattle.std.specs.Prelude.{◌≡◌, ◌+◌, ◌≤◌, ◌++◌, length, vec_len, vec_capacity};

/// Adds the bytes at the end, within the capacity.
pub(crate) fn push_all_reserved(to: &mut Vec<u8>, bytes: &[u8])
    requires { vec_len to.old + length bytes.now ≤ vec_capacity to.old }
    ensures { to.new.items ≡ to.old.items ++ bytes.now }
{
    for byte in bytes {
        to.push_reserved(*byte);
    }
}
