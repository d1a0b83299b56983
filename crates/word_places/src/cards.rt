//! The columns of a line (ANSI X3.9-1978, 3.2).

ghost use Rattle.std.specs.Prelude.{◌≡◌, ◌≤◌, ◌++◌, ◌&&◌, not, length, drop};
ghost use Rattle.meaning.specs.Lines.{card, is_comment as is_comment_by};
ghost use Rattle.meaning.specs.Lines.{is_initial as is_initial_by};
ghost use Rattle.meaning.specs.Statements.{is_blank_field};

/// The columns of a line that are read.
pub const COLUMNS: usize = 72;

/// Columns 1 to 72 of a line. Blanks stand where the line is shorter.
#[tactic(auto, unfolding(meaning::specs::Lines::card))]
pub fn card_of(line: &[u8]) -> [u8; COLUMNS]
    ensures { result ≡ card line.now }
{
    let mut columns = [b' '; COLUMNS];
    put(&mut columns, &line[..line.len().min(COLUMNS)]);
    columns
}

/// Writes characters from column 1 on.
fn put(columns: &mut [u8], front: &[u8])
    requires { length front.now ≤ length columns.old }
    ensures { columns.new ≡ front.now ++ drop (length front.now) columns.old }
{
    columns[..front.len()].copy_from_slice(front);
}

/// Whether columns are blank.
fn is_blank(columns: &[u8]) -> bool
    ensures { result ≡ is_blank_field columns.now }
{
    columns.iter().all(|c| *c == b' ')
}

/// Whether a line is a comment line.
pub fn is_comment(columns: &[u8; COLUMNS]) -> bool
    ensures { result ≡ is_comment_by columns.now }
{
    let first = columns[0];
    first == b'C' || first == b'c' || first == b'*' || is_blank(columns)
}

/// Whether a line begins a statement: an initial line, and no comment line.
pub fn is_start(columns: &[u8; COLUMNS]) -> bool
    ensures { result ≡ (not (is_comment_by columns.now) && is_initial_by columns.now) }
{
    !is_comment(columns) && (columns[5] == b' ' || columns[5] == b'0')
}
