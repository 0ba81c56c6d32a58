//! What stands in the parentheses of a `for`.

ghost use Rattle.std.specs.Prelude.{◌≡◌};
ghost use Rattle.mpl_trees.specs.Statements as spec;
ghost use Rattle.mpl_trees.specs.Taking as taking;
ghost use Rattle.mpl_reader.specs.Reader.{Took, rest_of};
ghost use Rattle.mpl_parse.specs.Internal.Forms.{take_assigned_start, take_declared_start, take_named_start, take_start_if_any, take_step_if_any};

use crate::flow::assignment;
use crate::local::local;
use mpl_ast::flow::Assignment;
use mpl_ast::statement::{ForHead, ForStart};
use mpl_ast::token::{Mark, TokenKind};
use mpl_expressions::expression;
use mpl_reader::ahead::{second, sees_mark, sees_name};
use mpl_reader::{Reader, Stop};
use sqlite_items::Boxed;
use std::alloc::Global;

/// What is done first: a declaration or an assignment.
fn for_start(alloc: Global, reader: &mut Reader<'_>, depth: usize) -> Result<ForStart, Stop>
    ensures { Took (spec.take_for_start depth) (rest_of reader.old) result (rest_of reader.new) }
{
    let [token, ..] = reader.left else {
        return declared_start(alloc, reader, depth);
    };
    match token.kind {
        TokenKind::Name(_) => named_start(alloc, reader, depth),
        _ => declared_start(alloc, reader, depth),
    }
}

/// What begins with a name: two of them declare.
fn named_start(alloc: Global, reader: &mut Reader<'_>, depth: usize) -> Result<ForStart, Stop>
    ensures { Took (take_named_start depth) (rest_of reader.old) result (rest_of reader.new) }
{
    if sees_name(second(reader.left)) {
        declared_start(alloc, reader, depth)
    } else {
        assigned_start(alloc, reader, depth)
    }
}

fn declared_start(alloc: Global, reader: &mut Reader<'_>, depth: usize) -> Result<ForStart, Stop>
    ensures { Took (take_declared_start depth) (rest_of reader.old) result (rest_of reader.new) }
{
    let first = local(alloc, reader, depth)?;
    Ok(ForStart::Declare(first))
}

fn assigned_start(alloc: Global, reader: &mut Reader<'_>, depth: usize) -> Result<ForStart, Stop>
    ensures { Took (take_assigned_start depth) (rest_of reader.old) result (rest_of reader.new) }
{
    let first = assignment(alloc, reader, depth)?;
    Ok(ForStart::Assign(first))
}

fn start_if_any(
    alloc: Global,
    reader: &mut Reader<'_>,
    depth: usize,
) -> Result<Option<ForStart>, Stop>
    ensures { Took (take_start_if_any depth) (rest_of reader.old) result (rest_of reader.new) }
{
    if sees_mark(reader.left, Mark::Semicolon) {
        return Ok(None);
    }
    let start = for_start(alloc, reader, depth)?;
    Ok(Some(start))
}

fn step_if_any(
    alloc: Global,
    reader: &mut Reader<'_>,
    depth: usize,
) -> Result<Option<Assignment>, Stop>
    ensures { Took (take_step_if_any depth) (rest_of reader.old) result (rest_of reader.new) }
{
    if sees_mark(reader.left, Mark::CloseParenthesis) {
        return Ok(None);
    }
    let step = assignment(alloc, reader, depth)?;
    Ok(Some(step))
}

fn parts(alloc: Global, reader: &mut Reader<'_>, depth: usize) -> Result<ForHead, Stop>
    ensures { Took (spec.take_for_head depth) (rest_of reader.old) result (rest_of reader.new) }
{
    let start = start_if_any(alloc, reader, depth)?;
    reader.mark(Mark::Semicolon)?;
    let test = expression(alloc, reader, depth)?;
    reader.mark(Mark::Semicolon)?;
    let step = step_if_any(alloc, reader, depth)?;
    Ok(ForHead { start, test, step })
}

/// The head with its parentheses, in a box.
pub fn for_head(
    alloc: Global,
    reader: &mut Reader<'_>,
    depth: usize,
) -> Result<Boxed<ForHead>, Stop>
    ensures { Took (taking.parenthesized (spec.take_for_head depth)) (rest_of reader.old) result (rest_of reader.new) }
{
    reader.mark(Mark::OpenParenthesis)?;
    let head = parts(alloc, reader, depth)?;
    reader.mark(Mark::CloseParenthesis)?;
    Ok(Boxed::new(alloc, head)?)
}
