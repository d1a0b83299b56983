//! The columns of a line and what they hold (ANSI X3.9-1978, 3.2).

ghost use Rattle.std.specs.Prelude.{◌≡◌, ◌≤◌, ◌==◌, ◌||◌, length, drop, ◌++◌, not};
ghost use Rattle.std.specs.List.{list_all};
ghost use Rattle.meaning.specs.Characters.{blank};
ghost use Rattle.meaning.specs.Lines.{card, is_comment, is_initial, label_field, statement_field};
ghost use Rattle.meaning.specs.Statements.{is_unpaired, is_printable, is_blank_field};

/// The columns of a line that are read.
pub const COLUMNS: usize = 72;

/// Columns 1 to 72 of a line. Blanks stand where the line is shorter.
#[tactic(auto, unfolding(meaning::specs::Lines::card))]
pub fn card_of(line: &[u8]) -> [u8; COLUMNS]
    ensures { result ≡ card line.now }
{
    let mut columns = [b' '; COLUMNS];
    put(&mut columns, &line[..line.len().min(COLUMNS)]);
    columns
}

/// Writes characters from column 1 on.
fn put(columns: &mut [u8], front: &[u8])
    requires { length front.now ≤ length columns.old }
    ensures { columns.new ≡ front.now ++ drop (length front.now) columns.old }
{
    columns[..front.len()].copy_from_slice(front);
}

/// Whether columns are blank.
pub fn is_blank(columns: &[u8]) -> bool
    ensures { result ≡ is_blank_field columns.now }
{
    columns.iter().all(|c| *c == b' ')
}

/// Whether a line is a comment line.
pub fn is_comment_line(columns: &[u8; COLUMNS]) -> bool
    ensures { result ≡ is_comment columns.now }
{
    let first = columns[0];
    first == b'C' || first == b'c' || first == b'*' || is_blank(columns)
}

/// Whether a line that is no comment is an initial line.
pub fn is_initial_line(columns: &[u8; COLUMNS]) -> bool
    ensures { result ≡ is_initial columns.now }
{
    columns[5] == b' ' || columns[5] == b'0'
}

/// Whether each character is one that can be printed.
pub fn are_printable(columns: &[u8]) -> bool
    ensures { result ≡ list_all is_printable columns.now }
{
    columns.iter().all(|c| (32..=126).contains(c))
}

/// Columns 1 to 5 of a line.
pub fn label_columns(columns: &[u8; COLUMNS]) -> &[u8]
    ensures value { result.now ≡ label_field columns.now }
    ensures len { length result.now ≡ 5 }
{
    &columns[..5]
}

/// Columns 7 to 72 of a line.
pub fn text_columns(columns: &[u8; COLUMNS]) -> &[u8]
    ensures value { result.now ≡ statement_field columns.now }
    ensures len { length result.now ≡ 66 }
{
    columns.split_at(6).1
}

/// Whether the apostrophes of a statement's text come in pairs.
pub fn is_paired(text: &[u8]) -> bool
    ensures { result ≡ not (is_unpaired text.now) }
{
    text.iter().filter(|c| **c == b'\'').count() % 2 == 0
}
