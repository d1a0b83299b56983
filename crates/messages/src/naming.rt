//! The name of a file in messages.

ghost use Rattle.std.specs.Prelude.{◌≡◌};
ghost use Rattle.messages.specs.Named.{file_named};

/// The name of the file that a source is read from, for messages; where there is none, or a minus
/// sign, that is standard input.
pub fn file_name<'a>(file: Option<&'a str>) -> &'a str
    ensures { result.now ≡ file_named file.entry }
{
    match file {
        None => "<stdin>",
        Some(path) => { if path == "-" { "<stdin>" } else { path } }
    }
}
