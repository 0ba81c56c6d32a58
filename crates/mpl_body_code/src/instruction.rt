use mpl_ast::expression::{
    EqualityOperator, RelationOperator, SumOperator, TermOperator, UnaryOperator,
};

/// Where the words of a place lie: in a variable, or in the object's state.
#[derive(Clone, Copy, Debug)]
pub enum Base {
    /// By its number among the body's variables, the oldest being 0.
    Slot(usize),
    State,
}

/// Some of the words of a variable or of the state.
#[derive(Clone, Copy, Debug)]
pub struct Spot {
    pub base: Base,
    pub offset: usize,
    pub words: usize,
    pub is_bool: bool,
}

/// An operator whose two operands are always evaluated.
#[derive(Clone, Copy, Debug)]
pub enum Operator {
    Equate(EqualityOperator),
    Compare(RelationOperator),
    Add(SumOperator),
    Multiply(TermOperator),
}

/// What a body does next. The names of its source are resolved; a number in front is a line.
#[derive(Clone, Copy, Debug)]
pub enum Instruction {
    Number(i64),
    Truth(bool),
    /// The word of the object.
    Own,
    /// A value of no words, which a place has that stands for nothing.
    Nothing,
    Input(u32),
    Read(Spot),
    /// The element of an array at an index.
    Index(u32),
    /// A plain function by its number, and how many arguments it is called with.
    CallPlain(usize, usize),
    Unary(u32, UnaryOperator),
    Binary(u32, Operator),
    /// The value is true, and so many instructions are passed over; or else it is dropped.
    Or(usize),
    And(usize),
    Wait,
    /// A new variable of so many zeros.
    Declare(usize),
    /// A new variable that holds what is on top.
    Bind,
    /// What a variable holds, as it stands.
    Pass(usize),
    /// A member of a regular class, and how many arguments it is called with.
    CallRegular(usize, usize),
    /// The word of an object, which has to be one.
    Receiver(u32),
    /// A member, called on the object below its arguments.
    CallObject(u32, usize),
    /// A variable holds something else.
    Hold(usize),
    Force,
    Put(Spot),
    PutElement(u32, Spot),
    /// A new object of a class.
    New(i64),
    ForceSpot(Spot),
    Drop,
    /// So many instructions are passed over unless a value is true.
    Unless(usize),
    Skip(usize),
    /// Only so many variables stay.
    Leave(usize),
    Turn,
    /// A turn, and then so many instructions back.
    Again(usize),
    Print(usize),
    Give(u32),
    Return,
    ReturnNothing,
    End,
}

/// What becomes of a body's result at its end.
#[derive(Clone, Copy, Debug)]
pub enum Finish {
    /// It stays as it is.
    Main,
    /// An open result is no word.
    Void,
    /// An open result is a trap at this line.
    Value(u32),
}

/// The code of a plain function: where it begins, the line of its last brace, and whether it gives a `bool`.
#[derive(Clone, Copy, Debug)]
pub struct FunctionCode {
    pub entry: usize,
    pub line: u32,
    pub is_bool: bool,
}

/// The code of a member.
#[derive(Clone, Copy, Debug)]
pub struct MemberCode {
    pub entry: usize,
    pub finish: Finish,
}
