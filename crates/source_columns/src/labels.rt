//! Statement labels (ANSI X3.9-1978, 3.4).

ghost use Rattle.std.specs.Prelude.{◌≡◌, ◌≤◌, length, filter, ◌||◌, ◌==◌, if◌then◌else◌};
ghost use Rattle.std.specs.List.{list_any, list_all};
ghost use Rattle.meaning.specs.Characters.{blank, is_digit, number_of};
ghost use Rattle.meaning.specs.Statements.{is_label_field};

/// Whether a field has a digit.
fn has_digit(field: &[u8]) -> bool
    ensures { result ≡ list_any is_digit field.now }
{
    field.iter().any(|c| c.is_ascii_digit())
}

/// The number that the digits of a field spell.
fn number_in(field: &[u8]) -> u32
    requires { length field.now ≤ 5 }
    ensures { result ≡ number_of (filter is_digit field.now) }
{
    let mut number = 0;
    for c in field {
        if c.is_ascii_digit() {
            number = 10 * number + u32::from(*c - b'0');
        }
    }
    number
}

/// Whether a field has digits and blanks alone.
fn are_digits_or_blanks(field: &[u8]) -> bool
    ensures { result ≡ list_all (λ c. is_digit c || (c == blank)) field.now }
{
    field.iter().all(|c| c.is_ascii_digit() || *c == b' ')
}

/// Whether columns 1 to 5 of an initial line are blank or hold a statement label.
pub fn is_label_or_blank(field: &[u8]) -> bool
    requires { length field.now ≤ 5 }
    ensures { result ≡ is_label_field field.now }
{
    are_digits_or_blanks(field) && (!has_digit(field) || number_in(field) > 0)
}

/// The statement label in columns 1 to 5.
pub fn label_in(field: &[u8]) -> Option<u32>
    requires { length field.now ≤ 5 }
    ensures { result ≡ (if list_any is_digit field.now
        then Some (number_of (filter is_digit field.now))
        else None) }
{
    if has_digit(field) {
        Some(number_in(field))
    } else {
        None
    }
}
