//! The lines of a source (ANSI X3.9-1978, 3.2).

ghost use Rattle.std.specs.Prelude.{◌≡◌, ◌<◌, ◌==◌, ◌∷◌, [], length, position, MatchOption};
ghost use Rattle.meaning.specs.Lines.{lines_of, pieces, without_return};

/// The index of the first line feed.
fn line_feed(source: &[u8]) -> Option<usize>
    ensures { result ≡ position (λ b. b == 10) source.now }
{
    source.iter().position(|b| *b == b'\n')
}

/// A line without the carriage return at its end.
fn without_carriage_return(piece: &[u8]) -> &[u8]
    ensures { result.now ≡ without_return piece.now }
{
    match piece.split_last() {
        Some((last, front)) => { if *last == b'\r' { front } else { piece } }
        None => piece,
    }
}

/// The bytes up to the first line feed, and those behind it.
#[tactic(auto, unfolding(meaning::specs::Lines::pieces))]
fn first_piece(source: &[u8]) -> Option<(&[u8], &[u8])>
    ensures pieces { MatchOption result
        (pieces source.now ≡ [])
        (λ x. pieces source.now ≡ x.0.now ∷ pieces x.1.now) }
    ensures shorter { MatchOption result
        (length source.now ≡ 0)
        (λ x. length x.1.now < length source.now) }
{
    if source.is_empty() {
        return None;
    }
    match line_feed(source) {
        Some(end) => Some((&source[..end], &source[end + 1..])),
        None => Some((source, &source[source.len()..])),
    }
}

/// The first line of a source without its end, and what stands behind it.
#[tactic(auto, unfolding(meaning::specs::Lines::lines_of))]
pub fn first_line(source: &[u8]) -> Option<(&[u8], &[u8])>
    ensures lines { MatchOption result
        (lines_of source.now ≡ [])
        (λ x. lines_of source.now ≡ x.0.now ∷ lines_of x.1.now) }
    ensures shorter { MatchOption result
        (length source.now ≡ 0)
        (λ x. length x.1.now < length source.now) }
{
    let (piece, rest) = first_piece(source)?;
    Some((without_carriage_return(piece), rest))
}

/// How many lines a source has.
pub fn line_count(source: &[u8]) -> usize
    ensures count { result ≡ length (lines_of source.now) }
{
    let mut count = 0;
    let mut rest = source;
    while let Some((_, behind)) = first_line(rest) {
        count += 1;
        rest = behind;
    }
    count
}
