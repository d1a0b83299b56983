//! Patterns, and whether a text has them.

ghost use Rattle.std.specs.Prelude.{◌≡◌};
ghost use Rattle.std.specs.List.{list_any};
ghost use Rattle.hints.specs.Patterns.{begins as begins_with, fits as fits_by, holds as has};

/// Whether a letter of a pattern stands for a character.
fn fits(letter: u8, c: u8) -> bool
    ensures { result ≡ fits_by letter c }
{
    match letter {
        b'a' => c == b'\r',
        b'b' | b'z' => c == b'\n',
        b'd' => c.is_ascii_digit(),
        b'e' => c.is_ascii_digit() || c == b' ',
        b'l' => c.is_ascii_uppercase(),
        b'm' => !c.is_ascii_uppercase(),
        b'n' => !(c.is_ascii_uppercase() || c.is_ascii_digit()),
        b'q' => c == b'"',
        b's' => c == b'+' || c == b'-',
        b't' => c == b'\t',
        b'u' => c.is_ascii_digit() && c != b'6',
        b'x' => c == b'D' || c == b'E',
        _ => c == letter,
    }
}

/// Whether a text begins with a pattern.
#[tactic(auto, unfolding(crate::specs::Patterns::begins))]
fn begins(text: &[u8], pattern: &[u8]) -> bool
    ensures { result ≡ begins_with text.now pattern.now }
{
    let mut rest = text;
    for &letter in pattern {
        match rest.split_first() {
            None => return false,
            Some((first, behind)) => {
                if !fits(letter, *first) {
                    return false;
                }
                rest = behind;
            }
        }
    }
    true
}

/// Whether it has a pattern at some place.
#[tactic(auto, using(crate::proofs::Texts::holds_front), unfolding(crate::specs::Patterns::holds))]
pub fn holds(text: &[u8], pattern: &[u8]) -> bool
    ensures { result ≡ has text.now pattern.now }
{
    let mut rest = text;
    while !begins(rest, pattern) {
        match rest.split_first() {
            None => return false,
            Some((_, behind)) => rest = behind,
        }
    }
    true
}

/// Whether it has one of these.
pub fn holds_any(text: &[u8], patterns: &[&[u8]]) -> bool
    ensures { result ≡ list_any (λ p. has text.now p.now) patterns.now }
{
    patterns.iter().any(|pattern| holds(text, pattern))
}
