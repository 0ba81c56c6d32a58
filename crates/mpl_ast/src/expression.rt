use crate::place::{At, Name};
use sqlite_items::{Boxed, Items};

/// `and | expr '||' and`
#[cycle(expression)]
#[derive(Drop)]
pub enum Expression {
    OneConjunction(At, Conjunction),
    Or(At, u32, Boxed<Expression>, Boxed<Conjunction>),
}

/// `eql | and '&&' eql`
#[cycle(expression)]
#[derive(Drop)]
pub enum Conjunction {
    OneEquality(At, Equality),
    And(At, u32, Boxed<Conjunction>, Boxed<Equality>),
}

#[derive(Clone, Copy, Debug, PartialEq, Eq)]
pub enum EqualityOperator {
    Equal,
    Unequal,
}

/// `rel | eql ('==' | '!=') rel`
#[cycle(expression)]
#[derive(Drop)]
pub enum Equality {
    OneRelation(At, Relation),
    Equate(At, u32, Boxed<Equality>, EqualityOperator, Boxed<Relation>),
}

#[derive(Clone, Copy, Debug, PartialEq, Eq)]
pub enum RelationOperator {
    Less,
    LessEqual,
    Greater,
    GreaterEqual,
}

/// `sum | rel ('<' | '<=' | '>' | '>=') sum`
#[cycle(expression)]
#[derive(Drop)]
pub enum Relation {
    OneSum(At, Sum),
    Compare(At, u32, Boxed<Relation>, RelationOperator, Boxed<Sum>),
}

#[derive(Clone, Copy, Debug, PartialEq, Eq)]
pub enum SumOperator {
    Plus,
    Minus,
}

/// `term | sum ('+' | '-') term`
#[cycle(expression)]
#[derive(Drop)]
pub enum Sum {
    OneTerm(At, Term),
    Add(At, u32, Boxed<Sum>, SumOperator, Boxed<Term>),
}

#[derive(Clone, Copy, Debug, PartialEq, Eq)]
pub enum TermOperator {
    Times,
    Over,
    Modulo,
}

/// `unary | term ('*' | '/' | '%') unary`
#[cycle(expression)]
#[derive(Drop)]
pub enum Term {
    OneUnary(At, Unary),
    Multiply(At, u32, Boxed<Term>, TermOperator, Boxed<Unary>),
}

#[derive(Clone, Copy, Debug, PartialEq, Eq)]
pub enum UnaryOperator {
    Negative,
    Not,
}

/// `prim | ('-' | '!') unary`
#[cycle(expression)]
#[derive(Drop)]
pub enum Unary {
    OnePrimary(At, Primary),
    Apply(At, u32, UnaryOperator, Boxed<Unary>),
}

/// `NUMBER | 'true' | 'false' | 'self' | place | 'input' '(' ')' | NAME '(' (expr % ',')? ')' | '(' expr ')'`
#[cycle(expression)]
#[derive(Drop)]
pub enum Primary {
    Number(At, i64),
    True(At),
    False(At),
    Own(At),
    Read(At, Boxed<Place>),
    Input(At),
    CallPlain(At, Name, Items<Expression>),
    Parenthesized(At, Boxed<Expression>),
}

/// `NAME | NAME '.' NAME`
#[derive(Drop)]
pub enum Target {
    Variable(At, Name),
    Field(At, Name, Name),
}

/// `target | target '[' expr ']'`
#[cycle(expression)]
#[derive(Drop)]
pub enum Place {
    Whole(At, Target),
    Element(At, u32, Target, Boxed<Expression>),
}
