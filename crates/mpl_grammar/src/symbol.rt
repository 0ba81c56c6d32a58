ghost use Rattle.std.specs.Prelude.{◌≡◌};
ghost use Rattle.mpl_grammar.specs.Internal.Grammar as grammar;

/// What is still to come in a program, one piece of the grammar for each place at which its tokens can stand.
#[derive(Clone, Copy, Debug, PartialEq, Eq)]
pub enum Symbol {
    // one token
    AName,
    ANumber,
    AType,
    Semicolon,
    Colon,
    Dot,
    Assign,
    MentatWord,
    ClassWord,
    AcceptWord,
    CloseParenthesis,
    CloseBracket,
    // what begins with a bracket
    OpenFields,
    OpenItems,
    OpenEntries,
    OpenFormals,
    OpenTest,
    OpenFor,
    OpenPrint,
    OpenFlow,
    OpenFlows,
    OpenNothing,
    ABlock,
    // declarations
    Fields,
    Items,
    Entries,
    BehindItemName,
    DimensionIfAny,
    MoreNames,
    FormalsIfAny,
    MoreFormals,
    GuardIfAny,
    // statements
    BlockRest,
    AStatement,
    /// behind the first name of a statement
    StatementName,
    /// behind `NAME .`
    StatementDot,
    /// behind `NAME . NAME`
    StatementField,
    /// behind `NAME . NAME .`
    StatementFieldDot,
    DeclaratorEnd,
    MoreDeclarators,
    ElseIfAny,
    /// the end of a statement behind `while`, `for` or `else`
    WordEnd,
    ForStart,
    ForName,
    ForStep,
    AssignedName,
    AssignedField,
    // flows
    AFlow,
    FlowOwn,
    FlowName,
    FlowField,
    FlowsIfAny,
    MoreFlows,
    // expressions, with the operators that they have so far
    ExpressionIfAny,
    ExpressionsIfAny,
    MoreExpressions,
    Operand(u32),
    Operators(u32),
    OperandName,
    ElementIfAny,
}

impl Symbol {
    /// It may be over before a token that it doesn't take.
    pub fn may_end(self) -> bool
        ensures { result ≡ grammar.may_end self }
    {
        match self {
            Symbol::DimensionIfAny
            | Symbol::MoreNames
            | Symbol::FormalsIfAny
            | Symbol::MoreFormals
            | Symbol::GuardIfAny
            | Symbol::DeclaratorEnd
            | Symbol::MoreDeclarators
            | Symbol::ElseIfAny
            | Symbol::WordEnd
            | Symbol::ForStart
            | Symbol::ForStep
            | Symbol::FlowOwn
            | Symbol::FlowName
            | Symbol::FlowField
            | Symbol::FlowsIfAny
            | Symbol::MoreFlows
            | Symbol::ExpressionIfAny
            | Symbol::ExpressionsIfAny
            | Symbol::MoreExpressions
            | Symbol::Operators(_)
            | Symbol::OperandName
            | Symbol::ElementIfAny => true,
            _ => false,
        }
    }
}
