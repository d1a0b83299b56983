//! What the execution of a statement needs.

ghost use Rattle.std.specs.Prelude.{◌≡◌, []};
ghost use Rattle.meaning.specs.declared.syntax.Tree.{Tree};
ghost use Rattle.meaning.specs.Syntax.{ShapeTree};
ghost use Rattle.program.specs.Acts.{Acts};
ghost use Rattle.program.specs.Asked.{ConditionIs, ConditionalIs, ListIs, RepeatIs, WhileIs};
ghost use Rattle.program.specs.Kept.{message_in};

use meaning::ending::StopMessage;
use postfix::Code;
use std::alloc::Global;
use std::mem::replace;

/// Where the value of an assignment goes (ANSI X3.9-1978, 10.1).
#[derive(Drop)]
pub enum Target {
    /// A variable, by its cell.
    Variable(usize),
    /// An array's element: the code leaves the number of its cell.
    Element(Code),
}

/// The variable of a DO statement, by its cell, and its limits (ANSI X3.9-1978, 11.10).
#[derive(Drop)]
pub struct Repeat {
    /// The variable's cell.
    pub variable: usize,
    /// Its first value.
    pub first: Code,
    /// Its last value.
    pub last: Code,
    /// The step; none where it is not written.
    pub step: Option<Code>,
}

/// A whole array in an output list (ANSI X3.9-1978, 12.8.2). Its cells stand one behind the other,
/// in the order of its elements.
#[derive(Clone, Copy)]
pub struct WholeArray {
    /// The cell of its first element.
    pub first: usize,
    /// How many elements it has.
    pub size: usize,
    /// Whether they are LOGICAL.
    pub is_logical: bool,
}

/// An item of an output list (ANSI X3.9-1978, 12.8.2).
#[derive(Drop)]
#[cycle(list_code)]
pub enum ListCode {
    /// An expression.
    Value(Code),
    /// A whole array.
    Array(WholeArray),
    /// An implied DO: its items, and its variable and limits.
    Loop(Box<ListCodes>, Repeat),
}

/// The items of an output list, first to last.
#[cycle(list_code)]
pub enum ListCodes {
    Empty,
    More(ListCode, Box<ListCodes>),
}

/// Along the list, as `ListItems` is dropped.
impl Drop for ListCodes {
    #[cycle(list_code)]
    fn drop(mut self) {
        loop {
            match self {
                ListCodes::Empty => return,
                ListCodes::More(first, rest) => {
                    drop(first);
                    self = Box::into_inner(rest);
                }
            }
        }
    }
}

/// What the execution of a statement needs: codes in place of expressions, cells in place of names,
/// and labels as numbers.
#[derive(Drop)]
pub enum Action {
    /// It is passed over: it is not executable, defines a statement function, or is ELSE, END IF or
    /// END.
    Pass,
    /// An assignment: where the value goes, and its code.
    Assign(Target, Code),
    /// CONTINUE or END DO
    Continue,
    /// GO TO, with its label.
    GoTo(u32),
    /// A computed GO TO: its labels, and the code of its expression.
    ComputedGoTo(Vec<u32>, Code),
    /// An arithmetic IF: the code of its expression, and the labels for a negative value, zero and
    /// a positive one.
    ArithmeticIf(Code, u32, u32, u32),
    /// STOP, with what it tells.
    Stop(StopMessage),
    /// WRITE or PRINT, with its list.
    Output(ListCodes),
    /// A logical IF: the code of its condition, and what its statement needs.
    If(Code, Box<Action>),
    /// IF THEN or ELSE IF, with the code of the condition.
    Test(Code),
    /// DO
    Repeat(Repeat),
    /// DO WHILE, with the code of the condition.
    While(Code),
}

impl Action {
    /// The condition of a logical IF, and what its statement needs.
    #[inline(always)]
    pub fn conditional(&self) -> Option<(&Code, &Action)>
        ensures { (t : Tree) (s : ShapeTree) → Acts t self.now s → ConditionalIs t s result }
    {
        match self {
            Action::If(condition, action) => Some((condition, action)),
            _ => None,
        }
    }

    /// The condition of an IF THEN or ELSE IF statement.
    pub fn condition(&self) -> Option<&Code>
        ensures { (t : Tree) (s : ShapeTree) → Acts t self.now s → ConditionIs t s result }
    {
        match self {
            Action::Test(condition) => Some(condition),
            _ => None,
        }
    }

    /// The list of a WRITE or PRINT statement.
    pub fn list(&self) -> Option<&ListCodes>
        ensures { (t : Tree) (s : ShapeTree) → Acts t self.now s → ListIs t s result }
    {
        match self {
            Action::Output(list) => Some(list),
            _ => None,
        }
    }

    /// The condition of a DO WHILE statement.
    pub fn while_condition(&self) -> Option<&Code>
        ensures { (t : Tree) (s : ShapeTree) → Acts t self.now s → WhileIs t s result }
    {
        match self {
            Action::While(condition) => Some(condition),
            _ => None,
        }
    }

    /// What a DO statement needs.
    pub fn repeat(&self) -> Option<&Repeat>
        ensures { (t : Tree) (s : ShapeTree) → Acts t self.now s → RepeatIs t s result }
    {
        match self {
            Action::Repeat(repeat) => Some(repeat),
            _ => None,
        }
    }

    /// Takes out what a STOP statement tells, also one under a logical IF; other statements tell
    /// nothing. No memory is allocated.
    pub(crate) fn take_message(&mut self, alloc: Global) -> StopMessage
        ensures { result ≡ message_in self.old }
    {
        match self {
            Action::Stop(message) => replace(message, silence(alloc)),
            Action::If(_, action) => action.take_message(alloc),
            Action::Pass => silence(alloc),
            Action::Assign(_, _) => silence(alloc),
            Action::Continue => silence(alloc),
            Action::GoTo(_) => silence(alloc),
            Action::ComputedGoTo(_, _) => silence(alloc),
            Action::ArithmeticIf(_, _, _, _) => silence(alloc),
            Action::Output(_) => silence(alloc),
            Action::Test(_) => silence(alloc),
            Action::Repeat(_) => silence(alloc),
            Action::While(_) => silence(alloc),
        }
    }
}

/// A message without characters. No memory is allocated.
pub(crate) fn silence(alloc: Global) -> StopMessage
    ensures { result ≡ [] }
{
    StopMessage::new(Vec::new(alloc))
}
