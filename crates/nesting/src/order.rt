//! The order of statements (ANSI X3.9-1978, 3.5).

ghost use Rattle.std.specs.Prelude.{◌≡◌, [], ◌∷◌, ◌++◌, List};
ghost use Rattle.meaning.specs.Nesting.{is_misplaced, place_of};
ghost use Rattle.meaning.specs.Syntax.{ItemTree};
ghost use Rattle.meaning.specs.Trees.{item_tree};
ghost use Rattle.nesting.specs.Places.{IsOrderOf, is_at_executable, is_at_typing, misplaced_by};
ghost use Rattle.nesting.specs.Places.{place};

use meaning::syntax::{Item, Shape};

/// Where a statement stands among others.
#[derive(Clone, Copy)]
pub enum StatementClass {
    Program,
    Implicit,
    Parameter,
    /// A type statement or DIMENSION.
    Typing,
    Format,
    /// An executable statement, or another that stands behind the specification statements as one
    /// does.
    Executable,
}

/// Where the statement stands.
fn place_of_item(item: &Item) -> StatementClass
    ensures { place result ≡ place_of (item_tree item.now).shape }
{
    match &*item.form.shape {
        Shape::Program(_) => StatementClass::Program,
        Shape::Implicit(_) => StatementClass::Implicit,
        Shape::ImplicitNone => StatementClass::Implicit,
        Shape::Parameter(_) => StatementClass::Parameter,
        Shape::Integer(_) => StatementClass::Typing,
        Shape::Logical(_) => StatementClass::Typing,
        Shape::Dimension(_) => StatementClass::Typing,
        Shape::Format(_) => StatementClass::Format,
        _ => StatementClass::Executable,
    }
}

/// Whether it is a type statement or DIMENSION that stands there.
fn is_typing(stands: StatementClass) -> bool
    ensures { result ≡ is_at_typing (place stands) }
{
    match stands {
        StatementClass::Typing => true,
        StatementClass::Program
        | StatementClass::Implicit
        | StatementClass::Parameter
        | StatementClass::Format
        | StatementClass::Executable => false,
    }
}

/// Whether it is an executable statement, or another that stands as one does.
fn is_executable(stands: StatementClass) -> bool
    ensures { result ≡ is_at_executable (place stands) }
{
    match stands {
        StatementClass::Executable => true,
        StatementClass::Program
        | StatementClass::Implicit
        | StatementClass::Parameter
        | StatementClass::Typing
        | StatementClass::Format => false,
    }
}

/// Which statements were read.
#[derive(Clone, Copy)]
pub struct Order {
    /// Any at all.
    begun: bool,
    /// A type statement or DIMENSION.
    typed: bool,
    /// An executable statement, or another that stands as one does.
    executable: bool,
}

impl Order {
    /// No statement was read.
    pub fn start() -> Order
        ensures { IsOrderOf result [] }
    {
        Order {
            begun: false,
            typed: false,
            executable: false,
        }
    }

    /// One statement more was read.
    pub fn with(self, item: &Item) -> Order
        ensures { (before : List ItemTree) → IsOrderOf self before →
            IsOrderOf result (before ++ item_tree item.now ∷ []) }
    {
        let stands = place_of_item(item);
        Order {
            begun: true,
            typed: self.typed || is_typing(stands),
            executable: self.executable || is_executable(stands),
        }
    }

    /// Whether a statement may not stand behind those that were read.
    pub fn misplaces(self, item: &Item) -> bool
        ensures { (before : List ItemTree) → IsOrderOf self before → result
            ≡ is_misplaced before (item_tree item.now) }
    {
        self.misplaces_at(place_of_item(item))
    }

    /// Whether a statement that stands there may not stand behind those that were read.
    fn misplaces_at(self, stands: StatementClass) -> bool
        ensures { result ≡ misplaced_by self (place stands) }
    {
        match stands {
            StatementClass::Program => self.begun,
            StatementClass::Implicit => self.typed || self.executable,
            StatementClass::Parameter => self.executable,
            StatementClass::Typing => self.executable,
            StatementClass::Format => false,
            StatementClass::Executable => false,
        }
    }
}
