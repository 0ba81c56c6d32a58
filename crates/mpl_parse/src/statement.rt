//! Statements and blocks. A statement is put behind those that were read before it.

ghost use Rattle.std.specs.Prelude.{◌≡◌};
ghost use Rattle.mpl_trees.specs.Statements as spec;
ghost use Rattle.mpl_trees.specs.Taking as taking;
ghost use Rattle.mpl_reader.specs.Reader.{Took, rest_of};
ghost use Rattle.mpl_parse.specs.Internal.Forms.{statement_of, take_of_block, take_other};
ghost use Rattle.mpl_parse.specs.Internal.Onto.{TookOnto};

use crate::head::for_head;
use crate::onto::{only, plain_onto, put_block, put_for, put_if, put_while};
use crate::simple::test;
use mpl_ast::statement::{Block, Statement};
use mpl_ast::token::{Keyword, Mark, TokenKind};
use mpl_reader::ahead::{sees_keyword, sees_mark};
use mpl_reader::{Reader, Stop, short_list};
use sqlite_items::{Boxed, Items};
use std::alloc::Global;

/// A statement, in which statements stand in statements at most so deep.
#[cycle(statement)]
fn statement(
    alloc: Global,
    reader: &mut Reader<'_>,
    depth: usize,
    list: &mut Items<Statement>,
) -> Result<(), Stop>
    ensures { TookOnto (spec.take_statement depth) (rest_of reader.old) list.old result (rest_of reader.new) list.new }
{
    let Some(inside) = depth.checked_sub(1) else {
        return Err(Stop::Stuck);
    };
    statement_within(alloc, reader, depth, inside, list)
}

/// A statement: its parts so deep, and statements in it so deep.
#[cycle(statement)]
fn statement_within(
    alloc: Global,
    reader: &mut Reader<'_>,
    depth: usize,
    inside: usize,
    list: &mut Items<Statement>,
) -> Result<(), Stop>
    ensures { TookOnto (statement_of depth (spec.take_statement inside)) (rest_of reader.old) list.old result (rest_of reader.new) list.new }
{
    let [token, ..] = reader.left else {
        return Err(Stop::Stuck);
    };
    match token.kind {
        TokenKind::Keyword(Keyword::If) => choice(alloc, reader, depth, inside, list),
        TokenKind::Keyword(Keyword::While) => repeated(alloc, reader, depth, inside, list),
        TokenKind::Keyword(Keyword::For) => counted(alloc, reader, depth, inside, list),
        TokenKind::Mark(Mark::OpenBrace) => of_block(alloc, reader, inside, list),
        _ => plain_onto(alloc, reader, depth, list),
    }
}

/// A block as a statement.
#[cycle(statement)]
fn of_block(
    alloc: Global,
    reader: &mut Reader<'_>,
    depth: usize,
    list: &mut Items<Statement>,
) -> Result<(), Stop>
    ensures { TookOnto (take_of_block (spec.take_statement depth)) (rest_of reader.old) list.old result (rest_of reader.new) list.new }
{
    let start = reader.start()?;
    let block = block(alloc, reader, depth)?;
    put_block(list, reader.finish(start), block)
}

/// Statements in braces.
#[cycle(statement)]
pub fn block(alloc: Global, reader: &mut Reader<'_>, depth: usize) -> Result<Block, Stop>
    ensures { Took (spec.take_block (spec.take_statement depth)) (rest_of reader.old) result (rest_of reader.new) }
{
    let turns = reader.left.len();
    let start = reader.start()?;
    reader.mark(Mark::OpenBrace)?;
    let statements = statements(alloc, reader, depth, turns)?;
    let mark_line = reader.line();
    reader.mark(Mark::CloseBrace)?;
    Ok(Block {
        at: reader.finish(start),
        mark_line,
        statements,
    })
}

/// Statements up to a closing brace, at most so many.
#[cycle(statement)]
fn statements(
    alloc: Global,
    reader: &mut Reader<'_>,
    depth: usize,
    turns: usize,
) -> Result<Items<Statement>, Stop>
    ensures { Took (taking.all_of (spec.take_statement depth) turns) (rest_of reader.old) result (rest_of reader.new) }
{
    let mut list = short_list(alloc)?;
    for _turn in 0..turns {
        if sees_mark(reader.left, Mark::CloseBrace) {
            return Ok(list);
        }
        statement(alloc, reader, depth, &mut list)?;
    }
    Ok(list)
}

/// An `if`.
#[cycle(statement)]
fn choice(
    alloc: Global,
    reader: &mut Reader<'_>,
    depth: usize,
    inside: usize,
    list: &mut Items<Statement>,
) -> Result<(), Stop>
    ensures { TookOnto (spec.take_if depth (spec.take_statement inside)) (rest_of reader.old) list.old result (rest_of reader.new) list.new }
{
    let start = reader.start()?;
    reader.keyword(Keyword::If)?;
    let test = test(alloc, reader, depth)?;
    let first = boxed(alloc, reader, inside)?;
    let other = other(alloc, reader, inside)?;
    put_if(list, reader.finish(start), test, first, other)
}

/// What stands behind an `else`, if there is one.
#[cycle(statement)]
fn other(
    alloc: Global,
    reader: &mut Reader<'_>,
    depth: usize,
) -> Result<Option<Boxed<Statement>>, Stop>
    ensures { Took (take_other (spec.take_statement depth)) (rest_of reader.old) result (rest_of reader.new) }
{
    if !sees_keyword(reader.left, Keyword::Else) {
        return Ok(None);
    }
    reader.keyword(Keyword::Else)?;
    let statement = boxed(alloc, reader, depth)?;
    Ok(Some(statement))
}

/// A statement in a box.
#[cycle(statement)]
fn boxed(alloc: Global, reader: &mut Reader<'_>, depth: usize) -> Result<Boxed<Statement>, Stop>
    ensures { Took (spec.take_statement depth) (rest_of reader.old) result (rest_of reader.new) }
{
    let mut list = short_list(alloc)?;
    statement(alloc, reader, depth, &mut list)?;
    only(alloc, list)
}

/// A `while`.
#[cycle(statement)]
fn repeated(
    alloc: Global,
    reader: &mut Reader<'_>,
    depth: usize,
    inside: usize,
    list: &mut Items<Statement>,
) -> Result<(), Stop>
    ensures { TookOnto (spec.take_while depth (spec.take_statement inside)) (rest_of reader.old) list.old result (rest_of reader.new) list.new }
{
    let start = reader.start()?;
    reader.keyword(Keyword::While)?;
    let test = test(alloc, reader, depth)?;
    let body = boxed(alloc, reader, inside)?;
    put_while(list, reader.finish(start), test, body)
}

/// A `for`.
#[cycle(statement)]
fn counted(
    alloc: Global,
    reader: &mut Reader<'_>,
    depth: usize,
    inside: usize,
    list: &mut Items<Statement>,
) -> Result<(), Stop>
    ensures { TookOnto (spec.take_for depth (spec.take_statement inside)) (rest_of reader.old) list.old result (rest_of reader.new) list.new }
{
    let start = reader.start()?;
    reader.keyword(Keyword::For)?;
    let head = for_head(alloc, reader, depth)?;
    let body = boxed(alloc, reader, inside)?;
    put_for(list, reader.finish(start), head, body)
}
