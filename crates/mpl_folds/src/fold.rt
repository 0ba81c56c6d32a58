//! A row of operands folded into an expression, one level of operators in the other.

ghost use Rattle.std.specs.Prelude.{◌≡◌, suc, [], ◌∷◌, ◌++◌, OnOk, OnErr, Err};
ghost use Rattle.mpl_trees.specs.Folds as spec;
ghost use Rattle.mpl_trees.specs.Taking as taking;
ghost use Rattle.mpl_reader.specs.Reader.{most_number};
ghost use Rattle.mpl_folds.specs.Row.{Folded, IsInner, IsOpening, Whole, level_at, row_of};

use mpl_ast::expression::{
    Conjunction, Equality, EqualityOperator, Expression, Relation, RelationOperator, Sum,
    SumOperator, Term, TermOperator, Unary,
};
use mpl_ast::token::Mark;
use mpl_ast::{At, Span};
use mpl_reader::Stop;
use mpl_reader::ahead::level_of;
use mpl_trees::piece::{Piece, Sign, Sole, Start};
use sqlite_items::Boxed;
use std::alloc::Global;
use std::collections::VecDeque;

/// What is left of a row, and where its last operand that was taken ends.
#[derive(Drop)]
pub struct Row {
    pub pieces: VecDeque<Piece>,
    last: u32,
}

/// The operator before an operand, and where that begins.
#[derive(Clone, Copy)]
struct Opening {
    sign: Sign,
    start: Start,
}

/// How the trees of one level of operators are made, from parts of the next level.
pub trait Grade {
    type Part: Drop;

    type Tree: Drop;

    type Operator: Drop;

    ghost grade: { spec.Grade Self.Part Self.Tree Self.Operator };

    ghost parts: { spec.Folds Self.Part };

    /// A part from the front of a row.
    fn part(alloc: Global, start: Start, row: &mut Row) -> Result<Self::Part, Stop>
        ensures { Folded (parts most_number start (row_of row.old)) result (row_of row.new) };

    fn operator(mark: Mark) -> Option<Self::Operator>
        ensures { result ≡ grade.operator mark };

    /// A tree of one part alone.
    fn one(at: At, part: Self::Part) -> Self::Tree
        ensures { result ≡ grade.one at part };

    /// A tree with an operator between its parts.
    fn more(
        at: At,
        line: u32,
        left: Boxed<Self::Tree>,
        operator: Self::Operator,
        right: Boxed<Self::Part>,
    ) -> Self::Tree
        ensures { result ≡ grade.more at line left operator right };
}

impl Row {
    pub fn new(alloc: Global) -> Row
        ensures { result.pieces.items ≡ [] }
    {
        Row {
            pieces: VecDeque::new(alloc),
            last: 0,
        }
    }

    pub fn push(&mut self, piece: Piece) -> Result<(), Stop>
        ensures ok { OnOk result (self.new.pieces.items ≡ self.old.pieces.items ++ piece ∷ []) }
        ensures err { OnErr result (self.new.pieces.items ≡ self.old.pieces.items) }
        ensures memory { result ≡ Err Stop.Stuck → ⊥ }
    {
        self.pieces.push_back(piece)?;
        Ok(())
    }

    fn finish(&self, start: Start) -> At
        ensures { result ≡ taking.place start self.now.last }
    {
        At {
            span: Span {
                from: start.from,
                to: self.last,
            },
            line: start.line,
            id: start.id,
        }
    }

    /// What stands before the next operand, if there is an operator.
    fn opening(&self) -> Option<Opening>
        ensures { IsOpening self.now.pieces.items result }
    {
        let piece = self.pieces.front()?;
        let sign = piece.sign?;
        Some(Opening {
            sign,
            start: piece.start,
        })
    }

    /// The next operand.
    fn unary(&mut self) -> Result<Unary, Stop>
        ensures { Folded (spec.first_unary self.old.pieces.items) result (row_of self.new) }
    {
        let Some(piece) = self.pieces.pop_front() else {
            return Err(Stop::Stuck);
        };
        self.last = piece.to;
        Ok(piece.unary)
    }

    /// The operators of a level that come, behind the next operand.
    fn operators(&self, level: u32) -> usize
        ensures { result ≡ spec.operators_in level self.now.pieces.items }
    {
        let mut found = 0;
        for at in 1..self.pieces.len() {
            let Some(other) = self.level_at(at) else {
                return found;
            };
            if other > level {
                return found;
            }
            if other == level {
                found += 1;
            }
        }
        found
    }

    /// The level of the operator before an operand.
    fn level_at(&self, at: usize) -> Option<u32>
        ensures { result ≡ level_at self.now.pieces.items at }
    {
        let piece = self.pieces.get(at)?;
        let sign = piece.sign?;
        level_of(sign.mark)
    }
}

/// The node within, which begins at the same token.
fn inner(start: Start) -> Result<Start, Stop>
    ensures { IsInner start result }
{
    let Some(id) = start.id.checked_add(1) else {
        return Err(Stop::Stuck);
    };
    Ok(Start { id, ..start })
}

/// So many operators of a level, where a node begins there.
#[cycle(chain)]
fn chain<G: Grade>(
    alloc: Global,
    operators: usize,
    start: Start,
    row: &mut Row,
) -> Result<G::Tree, Stop>
    ensures { Folded (spec.chain G.grade G.parts operators most_number start (row_of row.old)) result (row_of row.new) }
{
    if operators == 0 {
        lone::<G>(alloc, start, row)
    } else {
        longer::<G>(alloc, operators - 1, start, row)
    }
}

/// A part alone.
fn lone<G: Grade>(alloc: Global, start: Start, row: &mut Row) -> Result<G::Tree, Stop>
    ensures { Folded (spec.chain G.grade G.parts 0 most_number start (row_of row.old)) result (row_of row.new) }
{
    let within = inner(start)?;
    let part = G::part(alloc, within, row)?;
    Ok(G::one(row.finish(start), part))
}

/// One operator more than so many.
#[cycle(chain)]
fn longer<G: Grade>(
    alloc: Global,
    operators: usize,
    start: Start,
    row: &mut Row,
) -> Result<G::Tree, Stop>
    ensures { Folded (spec.chain G.grade G.parts (suc operators) most_number start (row_of row.old)) result (row_of row.new) }
{
    let within = inner(start)?;
    let left = chain::<G>(alloc, operators, within, row)?;
    joined::<G>(alloc, start, left, row)
}

/// One operator more, and what stands behind it.
fn joined<G: Grade>(
    alloc: Global,
    start: Start,
    left: G::Tree,
    row: &mut Row,
) -> Result<G::Tree, Stop>
    ensures { Folded (spec.joined_on G.grade G.parts most_number start left (row_of row.old).pieces (row_of row.old)) result (row_of row.new) }
{
    let Some(opening) = row.opening() else {
        return Err(Stop::Stuck);
    };
    let Some(operator) = G::operator(opening.sign.mark) else {
        return Err(Stop::Stuck);
    };
    let right = G::part(alloc, opening.start, row)?;
    let left = Boxed::new(alloc, left)?;
    let right = Boxed::new(alloc, right)?;
    Ok(G::more(row.finish(start), opening.sign.line, left, operator, right))
}

/// All operators of a level that come.
fn chained<G: Grade>(
    alloc: Global,
    level: u32,
    start: Start,
    row: &mut Row,
) -> Result<G::Tree, Stop>
    ensures { Folded (spec.chained level G.grade G.parts most_number start (row_of row.old)) result (row_of row.new) }
{
    chain::<G>(alloc, row.operators(level), start, row)
}

/// The expression that a row is.
pub fn whole_row(alloc: Global, start: Start, mut row: Row) -> Result<Expression, Stop>
    ensures { Whole (spec.whole_row most_number start row.pieces.items) result }
{
    row.last = 0;
    chained::<Disjunctions>(alloc, 5, start, &mut row)
}

pub(crate) struct Terms;

impl Grade for Terms {
    type Part = Unary;

    type Tree = Term;

    type Operator = TermOperator;

    ghost grade = { spec.terms };

    ghost parts = { spec.next_unary };

    fn part(_alloc: Global, _start: Start, row: &mut Row) -> Result<Unary, Stop> {
        row.unary()
    }

    fn operator(mark: Mark) -> Option<TermOperator> {
        match mark {
            Mark::Star => Some(TermOperator::Times),
            Mark::Slash => Some(TermOperator::Over),
            Mark::Percent => Some(TermOperator::Modulo),
            _ => None,
        }
    }

    fn one(at: At, part: Unary) -> Term {
        Term::OneUnary(at, part)
    }

    fn more(
        at: At,
        line: u32,
        left: Boxed<Term>,
        operator: TermOperator,
        right: Boxed<Unary>,
    ) -> Term
        ensures { result ≡ spec.terms.more at line left operator right }
    {
        Term::Multiply(at, line, left, operator, right)
    }
}

pub(crate) struct Sums;

impl Grade for Sums {
    type Part = Term;

    type Tree = Sum;

    type Operator = SumOperator;

    ghost grade = { spec.sums };

    ghost parts = { spec.next_term };

    fn part(alloc: Global, start: Start, row: &mut Row) -> Result<Term, Stop> {
        chained::<Terms>(alloc, 0, start, row)
    }

    fn operator(mark: Mark) -> Option<SumOperator> {
        match mark {
            Mark::Plus => Some(SumOperator::Plus),
            Mark::Minus => Some(SumOperator::Minus),
            _ => None,
        }
    }

    fn one(at: At, part: Term) -> Sum {
        Sum::OneTerm(at, part)
    }

    fn more(at: At, line: u32, left: Boxed<Sum>, operator: SumOperator, right: Boxed<Term>) -> Sum
        ensures { result ≡ spec.sums.more at line left operator right }
    {
        Sum::Add(at, line, left, operator, right)
    }
}

pub(crate) struct Relations;

impl Grade for Relations {
    type Part = Sum;

    type Tree = Relation;

    type Operator = RelationOperator;

    ghost grade = { spec.relations };

    ghost parts = { spec.next_sum };

    fn part(alloc: Global, start: Start, row: &mut Row) -> Result<Sum, Stop> {
        chained::<Sums>(alloc, 1, start, row)
    }

    fn operator(mark: Mark) -> Option<RelationOperator> {
        match mark {
            Mark::Less => Some(RelationOperator::Less),
            Mark::Greater => Some(RelationOperator::Greater),
            Mark::LessEqual => Some(RelationOperator::LessEqual),
            Mark::GreaterEqual => Some(RelationOperator::GreaterEqual),
            _ => None,
        }
    }

    fn one(at: At, part: Sum) -> Relation {
        Relation::OneSum(at, part)
    }

    fn more(
        at: At,
        line: u32,
        left: Boxed<Relation>,
        operator: RelationOperator,
        right: Boxed<Sum>,
    ) -> Relation
        ensures { result ≡ spec.relations.more at line left operator right }
    {
        Relation::Compare(at, line, left, operator, right)
    }
}

pub(crate) struct Equalities;

impl Grade for Equalities {
    type Part = Relation;

    type Tree = Equality;

    type Operator = EqualityOperator;

    ghost grade = { spec.equalities };

    ghost parts = { spec.next_relation };

    fn part(alloc: Global, start: Start, row: &mut Row) -> Result<Relation, Stop> {
        chained::<Relations>(alloc, 2, start, row)
    }

    fn operator(mark: Mark) -> Option<EqualityOperator> {
        match mark {
            Mark::EqualEqual => Some(EqualityOperator::Equal),
            Mark::NotEqual => Some(EqualityOperator::Unequal),
            _ => None,
        }
    }

    fn one(at: At, part: Relation) -> Equality {
        Equality::OneRelation(at, part)
    }

    fn more(
        at: At,
        line: u32,
        left: Boxed<Equality>,
        operator: EqualityOperator,
        right: Boxed<Relation>,
    ) -> Equality
        ensures { result ≡ spec.equalities.more at line left operator right }
    {
        Equality::Equate(at, line, left, operator, right)
    }
}

pub(crate) struct Conjunctions;

impl Grade for Conjunctions {
    type Part = Equality;

    type Tree = Conjunction;

    type Operator = Sole;

    ghost grade = { spec.conjunctions };

    ghost parts = { spec.next_equality };

    fn part(alloc: Global, start: Start, row: &mut Row) -> Result<Equality, Stop> {
        chained::<Equalities>(alloc, 3, start, row)
    }

    fn operator(mark: Mark) -> Option<Sole> {
        match mark {
            Mark::AndAnd => Some(Sole::TheOperator),
            _ => None,
        }
    }

    fn one(at: At, part: Equality) -> Conjunction {
        Conjunction::OneEquality(at, part)
    }

    fn more(
        at: At,
        line: u32,
        left: Boxed<Conjunction>,
        _operator: Sole,
        right: Boxed<Equality>,
    ) -> Conjunction
        ensures { result ≡ spec.conjunctions.more at line left _operator right }
    {
        Conjunction::And(at, line, left, right)
    }
}

pub(crate) struct Disjunctions;

impl Grade for Disjunctions {
    type Part = Conjunction;

    type Tree = Expression;

    type Operator = Sole;

    ghost grade = { spec.expressions };

    ghost parts = { spec.next_conjunction };

    fn part(alloc: Global, start: Start, row: &mut Row) -> Result<Conjunction, Stop> {
        chained::<Conjunctions>(alloc, 4, start, row)
    }

    fn operator(mark: Mark) -> Option<Sole> {
        match mark {
            Mark::OrOr => Some(Sole::TheOperator),
            _ => None,
        }
    }

    fn one(at: At, part: Conjunction) -> Expression {
        Expression::OneConjunction(at, part)
    }

    fn more(
        at: At,
        line: u32,
        left: Boxed<Expression>,
        _operator: Sole,
        right: Boxed<Conjunction>,
    ) -> Expression
        ensures { result ≡ spec.expressions.more at line left _operator right }
    {
        Expression::Or(at, line, left, right)
    }
}
