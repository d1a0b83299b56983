//! What is seen of a text before it is read, outside apostrophes.

ghost use Rattle.std.specs.Prelude.{◌≡◌, ◌<◌, ◌+◌, ◌-◌, ◌^◌, ◌==◌, ◌&&◌, not, false, if◌then◌else◌};
ghost use Rattle.std.specs.Prelude.{nat_eq, nat_lt};
ghost use Rattle.std.specs.List.{starts_with};
ghost use Rattle.meaning.specs.Kinds.{marks_at, has_equals, has_limits, behind_closing};
ghost use Rattle.meaning.specs.Spelling.{balanced};
ghost use Rattle.meaning.specs.Reading.{most_open};

/// How many parentheses may be open at once.
const MOST_OPEN: usize = 64;

/// A place in a text: how many parentheses are open there, and whether it stands inside
/// apostrophes.
#[derive(Clone, Copy)]
struct Place {
    depth: usize,
    inside: bool,
}

/// The front of a text.
const FRONT: Place = Place {
    depth: 0,
    inside: false,
};

/// The place behind a character. A closing parenthesis where none is open changes nothing.
fn behind(place: Place, c: u8) -> Place
    requires { place.depth < 2 ^ 64 - 1 }
    ensures depth { result.depth ≡ if not place.inside && c == 40 then place.depth + 1
        else (if not place.inside && c == 41 then place.depth - 1 else place.depth) }
    ensures inside { result.inside ≡ if c == 39 then not place.inside else place.inside }
{
    let Place { depth, inside } = place;
    match c {
        b'\'' => Place {
            depth,
            inside: !inside,
        },
        b'(' if !inside => Place {
            depth: depth + 1,
            inside,
        },
        b')' if !inside => Place {
            depth: depth.saturating_sub(1),
            inside,
        },
        _ => place,
    }
}

/// Whether a place is outside parentheses and apostrophes.
fn is_outside(place: Place) -> bool
    ensures { result ≡ (not place.inside && place.depth == 0) }
{
    !place.inside && place.depth == 0
}

/// Whether an equals sign stands outside parentheses and apostrophes, before a parenthesis that
/// closes what the text doesn't open.
#[tactic(auto, unfolding(meaning::specs::Kinds::marks_at))]
pub fn has_equals_sign(text: &[u8]) -> bool
    ensures { result ≡ has_equals text.now }
{
    let mut place = FRONT;
    for &c in text {
        if is_outside(place) {
            if c == b'=' {
                return true;
            }
            if c == b')' {
                return false;
            }
        }
        place = behind(place, c);
    }
    false
}

/// Whether a comma stands behind the first equals sign, both outside parentheses and apostrophes.
#[tactic(auto, unfolding(meaning::specs::Kinds::marks_at, meaning::specs::Kinds::has_limits))]
pub fn has_comma_behind(text: &[u8]) -> bool
    ensures { result ≡ has_limits (marks_at 0 false text.now) }
{
    let mut place = FRONT;
    let mut equals = false;
    for &c in text {
        if is_outside(place) {
            if c == b'=' {
                equals = true;
            } else if equals && c == b',' {
                return true;
            } else if c == b')' {
                return false;
            }
        }
        place = behind(place, c);
    }
    false
}

/// What stands behind the parenthesis that closes what the text doesn't open.
#[tactic(auto, unfolding(meaning::specs::Kinds::behind_closing))]
pub fn behind_closing_parenthesis(text: &[u8]) -> &[u8]
    ensures { result.now ≡ behind_closing 0 false text.now }
{
    let mut place = FRONT;
    let mut rest = text;
    while let Some((&c, more)) = rest.split_first() {
        if c == b')' && is_outside(place) {
            return more;
        }
        place = behind(place, c);
        rest = more;
    }
    rest
}

/// Whether the apostrophes of a text pair up, and outside them its parentheses do.
#[tactic(auto, unfolding(meaning::specs::Spelling::balanced))]
pub fn is_balanced(text: &[u8]) -> bool
    ensures { result ≡ balanced 0 false text.now }
{
    let mut place = FRONT;
    for &c in text {
        if c == b')' && is_outside(place) {
            return false;
        }
        place = behind(place, c);
    }
    is_outside(place)
}

/// Whether more than 64 parentheses are open at once outside apostrophes.
#[tactic(auto, using(crate::proofs::Scans::too_deep), unfolding(meaning::specs::Reading::most_open))]
pub fn is_too_deep(text: &[u8]) -> bool
    ensures { result ≡ nat_lt 64 (most_open 0 false text.now) }
{
    let mut place = FRONT;
    for &c in text {
        place = behind(place, c);
        if place.depth > MOST_OPEN {
            return true;
        }
    }
    false
}

/// Whether a text begins with a word.
pub fn begins(text: &[u8], word: &[u8]) -> bool
    ensures { result ≡ starts_with nat_eq text.now word.now }
{
    text.starts_with(word)
}
