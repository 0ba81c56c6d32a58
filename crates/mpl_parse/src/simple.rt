//! The statements in which no statement stands.

ghost use Rattle.std.specs.Prelude.{◌≡◌, true, Some};
ghost use Rattle.mpl_ast.specs.declared.statement.Statement.{Statement};
ghost use Rattle.mpl_ast.specs.declared.token.TokenKind.TheVariants as kind;
ghost use Rattle.mpl_trees.specs.Expressions.{take_expression};
ghost use Rattle.mpl_trees.specs.Flows.{take_flow};
ghost use Rattle.mpl_trees.specs.Statements as spec;
ghost use Rattle.mpl_trees.specs.Taking as taking;
ghost use Rattle.mpl_trees.specs.Taking.{Takes};
ghost use Rattle.mpl_reader.specs.Reader.{Skipped, Took, rest_of};
ghost use Rattle.mpl_parse.specs.Internal.Forms.{creation, take_assign, take_call_alone, take_create_statement, take_empty, take_value_if_any, statement_of};
ghost use Rattle.mpl_parse.specs.Internal.Onto.{is_plain};

use crate::flow::{assignment, begins_call, call, called, flow};
use crate::local::local;
use mpl_ast::expression::{Expression, Target};
use mpl_ast::flow::Flow;
use mpl_ast::statement::Statement;
use mpl_ast::token::{Keyword, Mark, Token, TokenKind};
use mpl_expressions::{expression, expressions};
use mpl_reader::ahead::{past_field, second, sees_keyword, sees_mark, sees_name};
use mpl_reader::{Reader, Stop};
use sqlite_items::Items;
use std::alloc::Global;

/// An expression in parentheses.
pub fn test(alloc: Global, reader: &mut Reader<'_>, depth: usize) -> Result<Expression, Stop>
    ensures { Took (spec.take_test depth) (rest_of reader.old) result (rest_of reader.new) }
{
    reader.mark(Mark::OpenParenthesis)?;
    let test = expression(alloc, reader, depth)?;
    reader.mark(Mark::CloseParenthesis)?;
    Ok(test)
}

/// A statement in which no statement stands.
pub fn plain(alloc: Global, reader: &mut Reader<'_>, depth: usize) -> Result<Statement, Stop>
    ensures { (statement : Takes Statement) → is_plain (taking.ahead reader.old.left.now) ≡ true → Took (statement_of depth statement) (rest_of reader.old) result (rest_of reader.new) }
{
    let [token, ..] = reader.left else {
        return Err(Stop::Stuck);
    };
    match token.kind {
        TokenKind::Name(_) => named(alloc, reader, depth),
        TokenKind::Number(_) => Err(Stop::Stuck),
        TokenKind::Keyword(word) => worded(alloc, reader, depth, word),
        TokenKind::Mark(Mark::Semicolon) => empty(reader),
        TokenKind::Mark(_) => Err(Stop::Stuck),
    }
}

/// What begins with a keyword.
fn worded(
    alloc: Global,
    reader: &mut Reader<'_>,
    depth: usize,
    word: Keyword,
) -> Result<Statement, Stop>
    ensures { (statement : Takes Statement) → is_plain (Some (kind.Keyword word)) ≡ true → Took (spec.statement_at depth statement (Some (kind.Keyword word))) (rest_of reader.old) result (rest_of reader.new) }
{
    match word {
        Keyword::Int | Keyword::Bool => declared(alloc, reader, depth),
        Keyword::Own => call_alone(alloc, reader, depth),
        Keyword::Print => print(alloc, reader, depth),
        Keyword::Rtf => rtf(alloc, reader, depth),
        Keyword::Return => returned(alloc, reader, depth),
        _ => Err(Stop::Stuck),
    }
}

/// `.create` stands behind a variable or a field.
fn begins_create(tokens: &[Token]) -> bool
    ensures { result ≡ spec.begins_create tokens.now }
{
    let behind = past_field(tokens);
    sees_mark(second(tokens), Mark::Dot)
        && (sees_keyword(second(second(tokens)), Keyword::Create)
            || (sees_mark(behind, Mark::Dot) && sees_keyword(second(behind), Keyword::Create)))
}

/// A statement that begins with a name.
fn named(alloc: Global, reader: &mut Reader<'_>, depth: usize) -> Result<Statement, Stop>
    ensures { Took (spec.named_statement depth) (rest_of reader.old) result (rest_of reader.new) }
{
    if sees_name(second(reader.left)) {
        declared(alloc, reader, depth)
    } else if begins_create(reader.left) {
        created(alloc, reader)
    } else if begins_call(reader.left) {
        call_alone(alloc, reader, depth)
    } else {
        assigned(alloc, reader, depth)
    }
}

fn declared(alloc: Global, reader: &mut Reader<'_>, depth: usize) -> Result<Statement, Stop>
    ensures { Took (spec.declared_statement depth) (rest_of reader.old) result (rest_of reader.new) }
{
    let start = reader.start()?;
    let variables = local(alloc, reader, depth)?;
    reader.mark(Mark::Semicolon)?;
    Ok(Statement::Declare(reader.finish(start), variables))
}

fn created(alloc: Global, reader: &mut Reader<'_>) -> Result<Statement, Stop>
    ensures { Took take_create_statement (rest_of reader.old) result (rest_of reader.new) }
{
    let start = reader.start()?;
    let target = create(alloc, reader)?;
    Ok(Statement::Create(reader.finish(start), target))
}

/// The target of a creation, and the rest of it.
fn create(alloc: Global, reader: &mut Reader<'_>) -> Result<Target, Stop>
    ensures { Took spec.take_create (rest_of reader.old) result (rest_of reader.new) }
{
    let target = called(alloc, reader)?;
    creation(reader)?;
    Ok(target)
}

/// What stands behind the target of a creation.
fn creation(reader: &mut Reader<'_>) -> Result<(), Stop>
    ensures { Skipped creation (rest_of reader.old) result (rest_of reader.new) }
{
    reader.mark(Mark::Dot)?;
    reader.keyword(Keyword::Create)?;
    reader.mark(Mark::OpenParenthesis)?;
    reader.mark(Mark::CloseParenthesis)?;
    reader.mark(Mark::Semicolon)
}

fn call_alone(alloc: Global, reader: &mut Reader<'_>, depth: usize) -> Result<Statement, Stop>
    ensures { Took (take_call_alone depth) (rest_of reader.old) result (rest_of reader.new) }
{
    let start = reader.start()?;
    let call = call(alloc, reader, depth)?;
    reader.mark(Mark::Semicolon)?;
    Ok(Statement::CallAlone(reader.finish(start), call))
}

fn assigned(alloc: Global, reader: &mut Reader<'_>, depth: usize) -> Result<Statement, Stop>
    ensures { Took (take_assign depth) (rest_of reader.old) result (rest_of reader.new) }
{
    let start = reader.start()?;
    let assignment = assignment(alloc, reader, depth)?;
    reader.mark(Mark::Semicolon)?;
    Ok(Statement::Assign(reader.finish(start), assignment))
}

fn empty(reader: &mut Reader<'_>) -> Result<Statement, Stop>
    ensures { Took take_empty (rest_of reader.old) result (rest_of reader.new) }
{
    let start = reader.start()?;
    reader.mark(Mark::Semicolon)?;
    Ok(Statement::Empty(reader.finish(start)))
}

fn print(alloc: Global, reader: &mut Reader<'_>, depth: usize) -> Result<Statement, Stop>
    ensures { Took (spec.take_print depth) (rest_of reader.old) result (rest_of reader.new) }
{
    let start = reader.start()?;
    reader.keyword(Keyword::Print)?;
    let values = printed(alloc, reader, depth)?;
    reader.mark(Mark::Semicolon)?;
    Ok(Statement::Print(reader.finish(start), values))
}

/// Expressions in parentheses.
fn printed(alloc: Global, reader: &mut Reader<'_>, depth: usize) -> Result<Items<Expression>, Stop>
    ensures { Took (taking.parenthesized (taking.some_of (take_expression depth))) (rest_of reader.old) result (rest_of reader.new) }
{
    reader.mark(Mark::OpenParenthesis)?;
    let values = expressions(alloc, reader, depth)?;
    reader.mark(Mark::CloseParenthesis)?;
    Ok(values)
}

fn rtf(alloc: Global, reader: &mut Reader<'_>, depth: usize) -> Result<Statement, Stop>
    ensures { Took (spec.take_rtf depth) (rest_of reader.old) result (rest_of reader.new) }
{
    let start = reader.start()?;
    reader.keyword(Keyword::Rtf)?;
    let value = passed(alloc, reader, depth)?;
    reader.mark(Mark::Semicolon)?;
    Ok(Statement::Rtf(reader.finish(start), value))
}

/// A flow in parentheses.
fn passed(alloc: Global, reader: &mut Reader<'_>, depth: usize) -> Result<Flow, Stop>
    ensures { Took (taking.parenthesized (take_flow depth)) (rest_of reader.old) result (rest_of reader.new) }
{
    reader.mark(Mark::OpenParenthesis)?;
    let value = flow(alloc, reader, depth)?;
    reader.mark(Mark::CloseParenthesis)?;
    Ok(value)
}

fn returned(alloc: Global, reader: &mut Reader<'_>, depth: usize) -> Result<Statement, Stop>
    ensures { Took (spec.take_return depth) (rest_of reader.old) result (rest_of reader.new) }
{
    let start = reader.start()?;
    reader.keyword(Keyword::Return)?;
    let value = value_if_any(alloc, reader, depth)?;
    reader.mark(Mark::Semicolon)?;
    Ok(Statement::Return(reader.finish(start), value))
}

fn value_if_any(
    alloc: Global,
    reader: &mut Reader<'_>,
    depth: usize,
) -> Result<Option<Expression>, Stop>
    ensures { Took (take_value_if_any depth) (rest_of reader.old) result (rest_of reader.new) }
{
    if sees_mark(reader.left, Mark::Semicolon) {
        return Ok(None);
    }
    let value = expression(alloc, reader, depth)?;
    Ok(Some(value))
}
