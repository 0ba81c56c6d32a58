//! Types, dimensions and local variables.

ghost use Rattle.std.specs.Prelude.{◌≡◌};
ghost use Rattle.mpl_trees.specs.Flows.{take_flow};
ghost use Rattle.mpl_trees.specs.Locals as spec;
ghost use Rattle.mpl_trees.specs.Taking as taking;
ghost use Rattle.mpl_reader.specs.Reader.{Took, rest_of};
ghost use Rattle.mpl_parse.specs.Internal.Forms.{take_bool, take_int, take_named_type};

use crate::flow::flow;
use mpl_ast::statement::{Declarator, Dimension, Local, TypeName};
use mpl_ast::token::{Keyword, Mark, TokenKind};
use mpl_reader::ahead::sees_mark;
use mpl_reader::{Reader, Stop, short_list};
use sqlite_items::Items;
use std::alloc::Global;

pub fn type_name(alloc: Global, reader: &mut Reader<'_>) -> Result<TypeName, Stop>
    ensures { Took spec.take_type (rest_of reader.old) result (rest_of reader.new) }
{
    let [token, ..] = reader.left else {
        return Err(Stop::Stuck);
    };
    match token.kind {
        TokenKind::Name(_) => named_type(alloc, reader),
        TokenKind::Keyword(Keyword::Int) => int_type(reader),
        TokenKind::Keyword(Keyword::Bool) => bool_type(reader),
        _ => Err(Stop::Stuck),
    }
}

fn named_type(alloc: Global, reader: &mut Reader<'_>) -> Result<TypeName, Stop>
    ensures { Took take_named_type (rest_of reader.old) result (rest_of reader.new) }
{
    let start = reader.start()?;
    let name = reader.name(alloc)?;
    Ok(TypeName::Named(reader.finish(start), name))
}

fn int_type(reader: &mut Reader<'_>) -> Result<TypeName, Stop>
    ensures { Took take_int (rest_of reader.old) result (rest_of reader.new) }
{
    let start = reader.start()?;
    reader.keyword(Keyword::Int)?;
    Ok(TypeName::Int(reader.finish(start)))
}

fn bool_type(reader: &mut Reader<'_>) -> Result<TypeName, Stop>
    ensures { Took take_bool (rest_of reader.old) result (rest_of reader.new) }
{
    let start = reader.start()?;
    reader.keyword(Keyword::Bool)?;
    Ok(TypeName::Bool(reader.finish(start)))
}

fn dimension(reader: &mut Reader<'_>) -> Result<Dimension, Stop>
    ensures { Took spec.take_dimension (rest_of reader.old) result (rest_of reader.new) }
{
    let mark_line = reader.line();
    let start = reader.start()?;
    reader.mark(Mark::OpenBracket)?;
    let number = reader.number()?;
    reader.mark(Mark::CloseBracket)?;
    Ok(Dimension {
        at: reader.finish(start),
        mark_line,
        number,
    })
}

pub fn dimension_if_any(reader: &mut Reader<'_>) -> Result<Option<Dimension>, Stop>
    ensures { Took spec.take_dimension_if_any (rest_of reader.old) result (rest_of reader.new) }
{
    if !sees_mark(reader.left, Mark::OpenBracket) {
        return Ok(None);
    }
    let dimension = dimension(reader)?;
    Ok(Some(dimension))
}

/// A variable, with its first value or its dimension where it has one.
fn declarator(alloc: Global, reader: &mut Reader<'_>, depth: usize) -> Result<Declarator, Stop>
    ensures { Took (spec.take_declarator (take_flow depth)) (rest_of reader.old) result (rest_of reader.new) }
{
    let start = reader.start()?;
    let variable = reader.name(alloc)?;
    if sees_mark(reader.left, Mark::Assign) {
        reader.mark(Mark::Assign)?;
        let value = flow(alloc, reader, depth)?;
        return Ok(Declarator::Initialized(reader.finish(start), variable, value));
    }
    let dimension = dimension_if_any(reader)?;
    Ok(Declarator::Plain(reader.finish(start), variable, dimension))
}

fn declarators(
    alloc: Global,
    reader: &mut Reader<'_>,
    depth: usize,
) -> Result<Items<Declarator>, Stop>
    ensures { Took (taking.some_of (spec.take_declarator (take_flow depth))) (rest_of reader.old) result (rest_of reader.new) }
{
    let turns = reader.left.len();
    let mut list = short_list(alloc)?;
    let first = declarator(alloc, reader, depth)?;
    list.push(first)?;
    for _turn in 0..turns {
        if !sees_mark(reader.left, Mark::Comma) {
            return Ok(list);
        }
        reader.mark(Mark::Comma)?;
        let next = declarator(alloc, reader, depth)?;
        list.push(next)?;
    }
    Ok(list)
}

/// A declaration of variables.
pub fn local(alloc: Global, reader: &mut Reader<'_>, depth: usize) -> Result<Local, Stop>
    ensures { Took (spec.take_local (take_flow depth)) (rest_of reader.old) result (rest_of reader.new) }
{
    let start = reader.start()?;
    let type_name = type_name(alloc, reader)?;
    let declarators = declarators(alloc, reader, depth)?;
    Ok(Local {
        at: reader.finish(start),
        type_name,
        declarators,
    })
}
