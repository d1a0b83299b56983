//! Which texts are symbolic names.

ghost use Rattle.std.specs.Prelude.{◌≡◌};
ghost use Rattle.std.specs.List.{list_all};
ghost use Rattle.meaning.specs.Characters.{is_alphanumeric as alphanumeric_test, is_name};

/// A letter or a digit.
pub fn is_alphanumeric(c: u8) -> bool
    ensures { result ≡ alphanumeric_test c }
{
    c.is_ascii_uppercase() || c.is_ascii_digit()
}

/// Whether all are letters or digits.
fn are_alphanumeric(text: &[u8]) -> bool
    ensures { result ≡ list_all alphanumeric_test text.now }
{
    text.iter().all(|c| is_alphanumeric(*c))
}

/// Whether a text is a symbolic name: a letter and up to thirty letters or digits (ANSI X3.9-1978,
/// 2.2, where they are up to five: longer names of up to 31 characters are read).
pub fn is_symbolic_name(text: &[u8]) -> bool
    ensures { result ≡ is_name text.now }
{
    match text.split_first() {
        None => false,
        Some((first, rest)) => first.is_ascii_uppercase()
            && are_alphanumeric(rest)
            && rest.len() <= 30,
    }
}
