use mpl_value::Bytes;

/// An instruction of a frame. A frame has a stack of words and a stack of flow values, of which each is known, a trap or
/// the result of a call. The operands are numbers of variables, offsets and counts of words, places in the code, numbers of
/// functions, members or classes, and last the line of the source where the instruction can trap.
#[derive(Drop)]
pub enum Instr {
    /// One more word.
    Push(i64),
    /// So many words go.
    Drop(u32),
    /// Words of a variable: variable, offset, count.
    Load(u32, u32, u32),
    /// Words into a variable: variable, offset, count.
    Store(u32, u32, u32),
    /// A word of an array in a variable: variable, offset, dimension, line.
    LoadIndexed(u32, u32, u32, u32),
    /// A word into an array in a variable: variable, offset, dimension, line.
    StoreIndexed(u32, u32, u32, u32),
    /// A variable of zeros.
    Zero(u32),
    /// A variable holds what another holds: variable, source.
    Copy(u32, u32),
    /// A variable's value is needed.
    Need(u32),
    /// Words of the object's state: offset, count.
    Fetch(u32, u32),
    /// Words into the object's state: offset, count.
    Keep(u32, u32),
    /// A word of an array in the state: offset, dimension, line.
    FetchIndexed(u32, u32, u32),
    /// A word into an array in the state: offset, dimension, line.
    KeepIndexed(u32, u32, u32),
    Add(u32),
    Sub(u32),
    Mul(u32),
    Div(u32),
    Rem(u32),
    Neg(u32),
    Not,
    Equal,
    NotEqual,
    Less,
    LessEqual,
    Greater,
    GreaterEqual,
    /// On at a place.
    Jump(u32),
    /// On at a place where the word is 0.
    JumpZero(u32),
    /// A turn, for the test of a loop.
    Test,
    /// A plain function, with a turn.
    Call(u32),
    /// So many words for the caller.
    Return(u32),
    /// The word of the body's object.
    Own,
    /// The word of an object, which is not 0: line.
    Bound(u32),
    /// So many words become a flow value.
    ArgWords(u32),
    /// A variable's value as a flow value.
    ArgVariable(u32),
    /// A call on a regular member: member, count of arguments.
    Send(u32, u32),
    /// A call on a persistent member, with its object's word: member, count of arguments.
    Post(u32, u32),
    /// A flow value into a variable.
    SetVariable(u32),
    DropFlow,
    /// The words of a flow value, which is needed.
    Force,
    /// A new object of a class.
    Create(u32),
    /// The body's result: line.
    Reply(u32),
    /// A number of the input: line.
    Input(u32),
    /// A line of words, each an int where its letter is `i` and a bool where it is `b`.
    Print(Bytes),
    /// The end of the body: the line where a result was missed.
    End(u32),
    /// The end of a plain function that gives no result: line.
    Fail(u32),
}
