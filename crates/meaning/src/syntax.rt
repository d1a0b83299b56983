//! What statements say: expressions, forms and programs.

ghost use Rattle.std.specs.Prelude.{◌≤◌, length};
ghost use Rattle.meaning.specs.Spelling.{spell};
ghost use Rattle.meaning.specs.Syntax.{shape_tree};

/// A sign at the front of an arithmetic expression.
#[derive(Clone, Copy, Debug, PartialEq, Eq)]
pub enum Sign {
    Plus,
    Minus,
}

/// An operator between two operands.
#[derive(Clone, Copy, Debug, PartialEq, Eq)]
pub enum Operator {
    /// `**`
    Power,
    /// `*`
    Multiply,
    /// `/`
    Divide,
    /// `+`
    Add,
    /// `-`
    Subtract,
    /// `.LT.`
    Less,
    /// `.LE.`
    LessOrEqual,
    /// `.EQ.`
    Equal,
    /// `.NE.`
    NotEqual,
    /// `.GE.`
    GreaterOrEqual,
    /// `.GT.`
    Greater,
    /// `.AND.`
    And,
    /// `.OR.`
    Or,
    /// `.EQV.`
    Equivalent,
    /// `.NEQV.`
    NotEquivalent,
}

/// An expression (ANSI X3.9-1978, chapter 6), with all that was written.
#[derive(Drop)]
#[cycle(expression)]
pub enum Expr {
    /// The digits of an integer constant.
    Number(Vec<u8>),
    /// `.TRUE.` or `.FALSE.` (4.7).
    Truth(bool),
    /// A symbolic name.
    Name(Vec<u8>),
    /// A sign and its operand.
    Signed(Sign, Box<Expr>),
    /// `.NOT.` and its operand (6.4).
    Not(Box<Expr>),
    /// An operator and its operands.
    Binary(Operator, Box<Expr>, Box<Expr>),
    /// An expression in parentheses.
    Paren(Box<Expr>),
    /// A name, and subscripts or arguments in parentheses, one at least.
    Element(Vec<u8>, Box<Exprs>),
    /// A function reference without arguments: a name and `()` (15.2.2).
    Call(Vec<u8>),
}

/// Expressions with commas between, first to last.
#[derive(Drop)]
#[cycle(expression)]
pub enum Exprs {
    Empty,
    More(Expr, Box<Exprs>),
}

/// The unit of a WRITE statement.
#[derive(Drop)]
pub enum Unit {
    /// An asterisk.
    Star,
    Number(Expr),
}

/// The limits of a DO statement: the first and the last value of its variable, and the step, which
/// is 1 when not written (ANSI X3.9-1978, 11.10).
#[derive(Drop)]
pub struct Limits {
    pub first: Expr,
    pub last: Expr,
    pub step: Option<Expr>,
}

/// The bounds of a dimension (ANSI X3.9-1978, 5.1.1); the lower one is 1 when not written.
#[derive(Drop)]
pub struct Bounds {
    pub lower: Option<Expr>,
    pub upper: Expr,
}

/// A name in a type statement, and the bounds of an array (ANSI X3.9-1978, 5.1 and 8.4.1).
#[derive(Drop)]
pub struct Declarator {
    pub name: Vec<u8>,
    pub bounds: Vec<Bounds>,
}

/// A data type (ANSI X3.9-1978, 4.1).
#[derive(Clone, Copy, Debug, PartialEq, Eq)]
pub enum DataType {
    Integer,
    Logical,
}

/// A letter in an IMPLICIT statement, or the letters from it to a last one (ANSI X3.9-1978, 8.5).
#[derive(Drop)]
pub struct Letters {
    pub first: u8,
    pub last: Option<u8>,
}

/// A data type, and the letters that an IMPLICIT statement gives it (ANSI X3.9-1978, 8.5).
#[derive(Drop)]
pub struct ImplicitPart {
    pub data_type: DataType,
    pub letters: Vec<Letters>,
}

/// A symbolic name of a constant, and the constant's expression (ANSI X3.9-1978, 8.6).
#[derive(Drop)]
pub struct NamedConstant {
    pub name: Vec<u8>,
    pub value: Expr,
}

/// What stands behind STOP (ANSI X3.9-1978, 11.12).
#[derive(Drop)]
pub enum StopText {
    None,
    /// One to five digits.
    Digits(Vec<u8>),
    /// A character constant: what stands between its apostrophes, those inside it written twice.
    Constant(Vec<u8>),
}

/// An item of the list of a WRITE, PRINT or DATA statement: an expression, or an implied DO (ANSI
/// X3.9-1978, 9.1 and 12.8.2).
#[derive(Drop)]
#[cycle(list_item)]
pub enum ListItem {
    Value(Expr),
    /// `(items,variable=limits)`
    Loop {
        items: Box<ListItems>,
        variable: Vec<u8>,
        limits: Limits,
    },
}

/// Items with commas between, first to last.
#[cycle(list_item)]
pub enum ListItems {
    Empty,
    More(ListItem, Box<ListItems>),
}

/// Along the list, so that no list is too long for the stack: a frame for each implied DO in
/// another, and none for each item.
impl Drop for ListItems {
    #[cycle(list_item)]
    fn drop(mut self) {
        loop {
            match self {
                ListItems::Empty => return,
                ListItems::More(first, rest) => {
                    drop(first);
                    self = Box::into_inner(rest);
                }
            }
        }
    }
}

/// A constant in a DATA statement (ANSI X3.9-1978, 9.1).
#[derive(Drop)]
pub enum DataConstant {
    /// An integer constant: its sign, if it is written, and its digits (4.3).
    Number(Option<Sign>, Vec<u8>),
    /// `.TRUE.` or `.FALSE.` (4.7).
    Truth(bool),
    /// The symbolic name of a constant.
    Name(Vec<u8>),
}

/// How often a constant stands in a DATA statement (ANSI X3.9-1978, 9.1).
#[derive(Drop)]
pub enum RepeatCount {
    /// The digits of an integer constant.
    Number(Vec<u8>),
    /// The symbolic name of a constant.
    Name(Vec<u8>),
}

/// A constant in a DATA statement, `constant` or `count*constant`; the count is 1 when not written
/// (ANSI X3.9-1978, 9.1).
#[derive(Drop)]
pub struct DataValue {
    pub repeat_count: Option<RepeatCount>,
    pub constant: DataConstant,
}

/// `list/values/` in a DATA statement (ANSI X3.9-1978, 9.1). The items of the list are names,
/// elements and implied DOs, and inside implied DOs elements and implied DOs.
#[derive(Drop)]
pub struct DataSet {
    /// Whether a comma stands before the list, as it may behind another set.
    pub comma: bool,
    pub list: ListItems,
    pub values: Vec<DataValue>,
}

/// Where the format of a WRITE or PRINT statement stands (ANSI X3.9-1978, 12.4).
#[derive(Drop)]
pub enum FormatSource {
    /// The label of a FORMAT statement, as its digits stand there.
    Label(Vec<u8>),
    /// A character constant: what stands between its apostrophes, those inside it written twice.
    Constant(Vec<u8>),
}

/// How the unit and the format of a WRITE statement are written (ANSI X3.9-1978, 12.8.1).
#[derive(Clone, Copy, Debug, PartialEq, Eq)]
pub enum ControlOrder {
    /// `unit,format`
    Plain,
    /// `unit,FMT=format`
    FormatNamed,
    /// `UNIT=unit,FMT=format`
    UnitFirst,
    /// `FMT=format,UNIT=unit`
    FormatFirst,
}

/// What the parentheses of a WRITE statement hold (ANSI X3.9-1978, 12.8.1).
#[derive(Drop)]
pub struct Control {
    pub order: ControlOrder,
    pub unit: Unit,
    pub format: FormatSource,
}

/// What a form says.
#[derive(Drop)]
pub enum Shape {
    /// `PROGRAM name`
    Program(Vec<u8>),
    /// `IMPLICIT`, and data types with letters.
    Implicit(Vec<ImplicitPart>),
    /// `IMPLICITNONE`
    ImplicitNone,
    /// `name=value` or `name(subscripts)=value`
    Assignment {
        name: Vec<u8>,
        subscripts: Exprs,
        value: Expr,
    },
    /// `WRITE(control)list`
    Write {
        control: Control,
        list: ListItems,
    },
    /// `PRINT format`, or `PRINT format,list`
    Print {
        format: FormatSource,
        list: ListItems,
    },
    /// `FORMAT(text)`
    Format(Vec<u8>),
    /// `DO label variable=limits`, the label as its digits stand there; a comma may stand behind
    /// it. Or without a label, which END DO ends.
    Do {
        label: Option<Vec<u8>>,
        comma: bool,
        variable: Vec<u8>,
        limits: Limits,
    },
    /// `DO label WHILE(condition)`, with a label and a comma as DO has them.
    DoWhile {
        label: Option<Vec<u8>>,
        comma: bool,
        condition: Expr,
    },
    /// `ENDDO`
    EndDo,
    /// `CONTINUE`
    Continue,
    /// `INTEGER`, and names and arrays with commas between.
    Integer(Vec<Declarator>),
    /// `LOGICAL`, and names and arrays with commas between.
    Logical(Vec<Declarator>),
    /// `DIMENSION`, and arrays with commas between; each has bounds.
    Dimension(Vec<Declarator>),
    /// `PARAMETER(name=value,..)`
    Parameter(Vec<NamedConstant>),
    /// `DATA`, and lists with their constants, a comma between two or none.
    Data(Vec<DataSet>),
    /// `name()=value`, a statement function without dummy arguments.
    Definition(Vec<u8>, Expr),
    /// `GOTO label`
    GoTo(Vec<u8>),
    /// `GOTO(labels)value`; a comma may stand behind the parenthesis.
    ComputedGoTo {
        labels: Vec<Vec<u8>>,
        comma: bool,
        value: Expr,
    },
    /// `IF(value)negative,zero,positive`, labels.
    ArithmeticIf {
        value: Expr,
        negative: Vec<u8>,
        zero: Vec<u8>,
        positive: Vec<u8>,
    },
    /// `IF(condition)statement`, the statement being an assignment, `name()=value`, any GO TO, an
    /// arithmetic IF, CONTINUE, STOP, WRITE or PRINT.
    LogicalIf(Expr, Box<Shape>),
    /// `IF(condition)THEN`
    IfThen(Expr),
    /// `ELSEIF(condition)THEN`
    ElseIf(Expr),
    /// `ELSE`
    Else,
    /// `ENDIF`
    EndIf,
    /// `STOP`
    Stop(StopText),
    /// `END`
    End,
}

/// A form: what a statement says, no longer than a statement can be. It stands behind a pointer, so
/// that a form in its place is moved as a few words are, and the proofs of those that move one
/// needn't say all that a form can be.
pub struct Form {
    pub shape: Box<Shape>,
    /// Twenty lines of 66 columns at most.
    ghost short: { length (spell (shape_tree shape.value)) ≤ 1320 },
}

/// Written out, so that the crates above call it and don't prove again how each part of a form is
/// dropped.
impl Drop for Form {
    fn drop(self) {
        let Form { shape } = self;
        drop(shape);
    }
}

/// A form in its place: the initial line and the label of its statement.
pub struct Item {
    pub line: u32,
    pub label: Option<u32>,
    pub form: Form,
}

impl Drop for Item {
    fn drop(self) {
        let Item {
            line: _,
            label: _,
            form,
        } = self;
        drop(form);
    }
}

/// A member of a list of statements: a statement, a DO statement with its range, or a block IF.
#[derive(Drop)]
#[cycle(member)]
pub enum Member {
    Plain(Item),
    Loop(Loop),
    Block(Block),
}

/// A DO statement and its range, the statements behind it up to its terminal statement (ANSI
/// X3.9-1978, 11.10).
#[derive(Drop)]
#[cycle(member)]
pub struct Loop {
    pub head: Item,
    pub range: Vec<Member>,
}

/// A block IF: its arms, and its END IF statement, which belongs to the list that holds the block
/// IF (ANSI X3.9-1978, 11.6 to 11.9).
#[derive(Drop)]
#[cycle(member)]
pub struct Block {
    pub arms: Vec<Arm>,
    pub end: Item,
}

/// An arm of a block IF: its IF THEN, ELSE IF or ELSE statement, and the statements behind it (ANSI
/// X3.9-1978, 11.6 to 11.8).
#[derive(Drop)]
#[cycle(member)]
pub struct Arm {
    pub head: Item,
    pub body: Vec<Member>,
}

/// A program unit: its statements, the last of which is END.
pub struct Tree {
    pub body: Vec<Member>,
}

impl Drop for Tree {
    fn drop(self) {
        let Tree { body } = self;
        drop(body);
    }
}

/// Which statement a bare text can be.
#[derive(Clone, Copy, Debug, PartialEq, Eq)]
pub enum Kind {
    Assignment,
    Write,
    Format,
    Do,
    DoWhile,
    EndDo,
    Continue,
    Integer,
    End,
    Program,
    Implicit,
    ImplicitNone,
    Logical,
    Dimension,
    Parameter,
    Data,
    GoTo,
    ComputedGoTo,
    ArithmeticIf,
    LogicalIf,
    IfThen,
    ElseIf,
    Else,
    EndIf,
    Stop,
    Print,
    /// None that is read.
    Other,
}
