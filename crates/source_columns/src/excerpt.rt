//! The lines of one statement as they stand in a source (ANSI X3.9-1978, 3.2 and 3.3), for whoever
//! shows them to people.

ghost use Rattle.std.specs.Prelude.{◌≡◌, ◌-◌, ◌<◌, ◌∷◌, [], length, drop, MatchOption};
ghost use Rattle.meaning.specs.Lines.{lines_of};
ghost use Rattle.source_columns.specs.Excerpts.{continued};

use crate::cards::{card_of, is_comment_line, is_initial_line};
use crate::lines::first_line;

/// The line of this number, counted from 1, without its end, and what stands behind it.
pub fn line_at(source: &[u8], number: u32) -> Option<(&[u8], &[u8])>
    ensures { MatchOption result
        (drop (number - 1) (lines_of source.now) ≡ [])
        (λ x. drop (number - 1) (lines_of source.now) ≡ x.0.now ∷ lines_of x.1.now) }
{
    let mut ahead = number.saturating_sub(1);
    let mut rest = source;
    while ahead > 0 {
        let (_, behind) = first_line(rest)?;
        rest = behind;
        ahead -= 1;
    }
    first_line(rest)
}

/// The first continuation line of these lines, without its end, and what stands behind it; none
/// where an initial line comes before it.
pub fn next_continuation(source: &[u8]) -> Option<(&[u8], &[u8])>
    ensures lines { MatchOption result
        (continued (lines_of source.now) ≡ [])
        (λ x. continued (lines_of source.now) ≡ x.0.now ∷ continued (lines_of x.1.now)) }
    ensures shorter { MatchOption result (Unit {0}) (λ x. length x.1.now < length source.now) }
{
    let mut rest = source;
    while let Some((line, behind)) = first_line(rest) {
        let columns = card_of(line);
        if !is_comment_line(&columns) {
            return if is_initial_line(&columns) {
                None
            } else {
                Some((line, behind))
            };
        }
        rest = behind;
    }
    None
}
