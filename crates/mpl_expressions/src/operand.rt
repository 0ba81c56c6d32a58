//! Expressions: their operands in a row, which is then folded, and in the operands further expressions.

ghost use Rattle.std.specs.Prelude.{◌≡◌, suc};
ghost use Rattle.mpl_trees.specs.Expressions as spec;
ghost use Rattle.mpl_trees.specs.Rows as rows;
ghost use Rattle.mpl_trees.specs.Taking as taking;
ghost use Rattle.mpl_ast.specs.declared.token.Mark.TheVariants as mark;
ghost use Rattle.mpl_reader.specs.Reader.{Took, rest_of};
ghost use Rattle.mpl_expressions.specs.Internal.Operands.{pieces_behind, take_one_primary, take_parenthesized, take_read};
ghost use Rattle.mpl_folds.specs.Row.{TookRow};

use crate::lead::lead;
use crate::targets::{mark_of, number, target, word};
use mpl_ast::expression::{Expression, Place, Primary, Unary, UnaryOperator};
use mpl_ast::token::{Mark, TokenKind};
use mpl_folds::{Row, lone_operand, whole_row};
use mpl_reader::ahead::{second, sees_mark, sees_operator};
use mpl_reader::{Reader, Stop, short_list};
use mpl_trees::piece::{Piece, Sign};
use sqlite_items::{Boxed, Items};
use std::alloc::Global;

/// An expression, in which operands stand in operands at most so deep.
#[cycle(expression)]
pub fn expression(alloc: Global, reader: &mut Reader<'_>, depth: usize) -> Result<Expression, Stop>
    ensures { Took (spec.take_expression depth) (rest_of reader.old) result (rest_of reader.new) }
{
    let turns = reader.left.len();
    let start = reader.here();
    let first = piece(alloc, reader, depth, 6, None)?;
    if !sees_operator(reader.left) {
        return lone_operand(start, first);
    }
    let row = pieces(alloc, reader, depth, turns, first)?;
    whole_row(alloc, start, row)
}

/// The operands of an expression, in a row: the first, and those behind it, at most so many.
#[cycle(expression)]
fn pieces(
    alloc: Global,
    reader: &mut Reader<'_>,
    depth: usize,
    turns: usize,
    first: Piece,
) -> Result<Row, Stop>
    ensures { TookRow (pieces_behind (spec.take_unary depth) turns first) (rest_of reader.old) result (rest_of reader.new) }
{
    let mut row = Row::new(alloc);
    row.push(first)?;
    for _turn in 0..turns {
        let Some(joint) = reader.joint() else {
            return Ok(row);
        };
        let next = piece(alloc, reader, depth, joint.level, Some(joint.sign))?;
        row.push(next)?;
    }
    Ok(row)
}

/// An operand, at which nodes of so many levels begin.
#[cycle(expression)]
fn piece(
    alloc: Global,
    reader: &mut Reader<'_>,
    depth: usize,
    level: u32,
    sign: Option<Sign>,
) -> Result<Piece, Stop>
    ensures { Took (rows.take_piece (spec.take_unary depth) level sign) (rest_of reader.old) result (rest_of reader.new) }
{
    let start = reader.here();
    reader.advance(lead(level, reader.left))?;
    let unary = unary(alloc, reader, depth)?;
    Ok(Piece {
        sign,
        start,
        unary,
        to: reader.last,
    })
}

#[cycle(expression)]
fn unary(alloc: Global, reader: &mut Reader<'_>, depth: usize) -> Result<Unary, Stop>
    ensures { Took (spec.take_unary depth) (rest_of reader.old) result (rest_of reader.new) }
{
    let Some(inside) = depth.checked_sub(1) else {
        return Err(Stop::Stuck);
    };
    operand(alloc, reader, inside)
}

/// An operand, in which operands stand at most so deep.
#[cycle(expression)]
fn operand(alloc: Global, reader: &mut Reader<'_>, depth: usize) -> Result<Unary, Stop>
    ensures { Took (spec.take_unary (suc depth)) (rest_of reader.old) result (rest_of reader.new) }
{
    let [token, ..] = reader.left else {
        return one_primary(alloc, reader, depth);
    };
    match token.kind {
        TokenKind::Mark(Mark::Minus) => apply(alloc, reader, depth, UnaryOperator::Negative),
        TokenKind::Mark(Mark::Not) => apply(alloc, reader, depth, UnaryOperator::Not),
        _ => one_primary(alloc, reader, depth),
    }
}

/// An operator before an operand.
#[cycle(expression)]
fn apply(
    alloc: Global,
    reader: &mut Reader<'_>,
    depth: usize,
    operator: UnaryOperator,
) -> Result<Unary, Stop>
    ensures { Took (spec.take_apply operator (spec.take_unary depth)) (rest_of reader.old) result (rest_of reader.new) }
{
    let line = reader.line();
    let start = reader.start()?;
    reader.mark(mark_of(operator))?;
    let operand = unary(alloc, reader, depth)?;
    let operand = Boxed::new(alloc, operand)?;
    Ok(Unary::Apply(reader.finish(start), line, operator, operand))
}

#[cycle(expression)]
fn one_primary(alloc: Global, reader: &mut Reader<'_>, depth: usize) -> Result<Unary, Stop>
    ensures { Took (take_one_primary (spec.take_expression depth)) (rest_of reader.old) result (rest_of reader.new) }
{
    let start = reader.start()?;
    let primary = primary(alloc, reader, depth)?;
    Ok(Unary::OnePrimary(reader.finish(start), primary))
}

#[cycle(expression)]
fn primary(alloc: Global, reader: &mut Reader<'_>, depth: usize) -> Result<Primary, Stop>
    ensures { Took (spec.take_primary (spec.take_expression depth)) (rest_of reader.old) result (rest_of reader.new) }
{
    let [token, ..] = reader.left else {
        return Err(Stop::Stuck);
    };
    match token.kind {
        TokenKind::Name(_) => named(alloc, reader, depth),
        TokenKind::Number(_) => number(reader),
        TokenKind::Keyword(found) => word(reader, found),
        TokenKind::Mark(Mark::OpenParenthesis) => parenthesized(alloc, reader, depth),
        TokenKind::Mark(_) => Err(Stop::Stuck),
    }
}

/// What begins with a name: a call of a plain function, or a place.
#[cycle(expression)]
fn named(alloc: Global, reader: &mut Reader<'_>, depth: usize) -> Result<Primary, Stop>
    ensures { Took (spec.take_named (spec.take_expression depth)) (rest_of reader.old) result (rest_of reader.new) }
{
    if sees_mark(second(reader.left), Mark::OpenParenthesis) {
        plain_call(alloc, reader, depth)
    } else {
        read(alloc, reader, depth)
    }
}

/// The value of a place.
#[cycle(expression)]
fn read(alloc: Global, reader: &mut Reader<'_>, depth: usize) -> Result<Primary, Stop>
    ensures { Took (take_read (spec.take_expression depth)) (rest_of reader.old) result (rest_of reader.new) }
{
    let start = reader.start()?;
    let place = place(alloc, reader, depth)?;
    let place = Boxed::new(alloc, place)?;
    Ok(Primary::Read(reader.finish(start), place))
}

#[cycle(expression)]
fn plain_call(alloc: Global, reader: &mut Reader<'_>, depth: usize) -> Result<Primary, Stop>
    ensures { Took (spec.take_plain_call (spec.take_expression depth)) (rest_of reader.old) result (rest_of reader.new) }
{
    let start = reader.start()?;
    let function = reader.name(alloc)?;
    let arguments = arguments(alloc, reader, depth)?;
    Ok(Primary::CallPlain(reader.finish(start), function, arguments))
}

/// What a plain function is given, in its parentheses.
#[cycle(expression)]
fn arguments(
    alloc: Global,
    reader: &mut Reader<'_>,
    depth: usize,
) -> Result<Items<Expression>, Stop>
    ensures { Took (taking.parenthesized (taking.list_of (spec.take_expression depth))) (rest_of reader.old) result (rest_of reader.new) }
{
    reader.mark(Mark::OpenParenthesis)?;
    let arguments = if sees_mark(reader.left, Mark::CloseParenthesis) {
        Items::new(alloc)
    } else {
        expressions(alloc, reader, depth)?
    };
    reader.mark(Mark::CloseParenthesis)?;
    Ok(arguments)
}

/// One or more expressions, with commas between.
#[cycle(expression)]
pub fn expressions(
    alloc: Global,
    reader: &mut Reader<'_>,
    depth: usize,
) -> Result<Items<Expression>, Stop>
    ensures { Took (taking.some_of (spec.take_expression depth)) (rest_of reader.old) result (rest_of reader.new) }
{
    let turns = reader.left.len();
    let mut list = short_list(alloc)?;
    let first = expression(alloc, reader, depth)?;
    list.push(first)?;
    for _turn in 0..turns {
        if !sees_mark(reader.left, Mark::Comma) {
            return Ok(list);
        }
        reader.mark(Mark::Comma)?;
        let next = expression(alloc, reader, depth)?;
        list.push(next)?;
    }
    Ok(list)
}

#[cycle(expression)]
fn parenthesized(alloc: Global, reader: &mut Reader<'_>, depth: usize) -> Result<Primary, Stop>
    ensures { Took (take_parenthesized (spec.take_expression depth)) (rest_of reader.old) result (rest_of reader.new) }
{
    let start = reader.start()?;
    reader.mark(Mark::OpenParenthesis)?;
    let inside = expression(alloc, reader, depth)?;
    reader.mark(Mark::CloseParenthesis)?;
    let inside = Boxed::new(alloc, inside)?;
    Ok(Primary::Parenthesized(reader.finish(start), inside))
}

/// A target, or an element of it.
#[cycle(expression)]
pub fn place(alloc: Global, reader: &mut Reader<'_>, depth: usize) -> Result<Place, Stop>
    ensures { Took (spec.take_place (spec.take_expression depth)) (rest_of reader.old) result (rest_of reader.new) }
{
    let start = reader.start()?;
    let target = target(alloc, reader)?;
    if !sees_mark(reader.left, Mark::OpenBracket) {
        return Ok(Place::Whole(reader.finish(start), target));
    }
    let line = reader.line();
    let index = index(alloc, reader, depth)?;
    let index = Boxed::new(alloc, index)?;
    Ok(Place::Element(reader.finish(start), line, target, index))
}

/// An expression in brackets.
#[cycle(expression)]
fn index(alloc: Global, reader: &mut Reader<'_>, depth: usize) -> Result<Expression, Stop>
    ensures { Took (taking.between mark.OpenBracket (spec.take_expression depth) mark.CloseBracket) (rest_of reader.old) result (rest_of reader.new) }
{
    reader.mark(Mark::OpenBracket)?;
    let index = expression(alloc, reader, depth)?;
    reader.mark(Mark::CloseBracket)?;
    Ok(index)
}
