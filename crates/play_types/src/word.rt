//! Words that are compared without the case of their ASCII letters.
ghost use Rattle.std.specs.Prelude.{◌≡◌, IsTrue};
ghost use Rattle.std.specs.Str.{chars};
ghost use Rattle.play_types.specs.Words.{are_capitals, is_same_name, is_word};

/// Returns whether `word` is `fixed`, which is given in capitals, without regard to the case of ASCII letters.
pub fn is_word(word: &str, fixed: &str) -> bool
    requires { IsTrue (are_capitals fixed.now) }
    ensures { result ≡ is_word fixed.now (chars word.now) }
{
    word.eq_ignore_ascii_case(fixed)
}

/// Returns whether two names are equal without regard to the case of their ASCII letters.
pub fn is_same_name(one: &str, other: &str) -> bool
    ensures { result ≡ is_same_name (chars one.now) (chars other.now) }
{
    one.eq_ignore_ascii_case(other)
}
