//! Calls, and what a call is given. What has the form of a call is one.

ghost use Rattle.std.specs.Prelude.{◌≡◌};
ghost use Rattle.mpl_trees.specs.Expressions as expressions;
ghost use Rattle.mpl_trees.specs.Flows as spec;
ghost use Rattle.mpl_trees.specs.Taking as taking;
ghost use Rattle.mpl_reader.specs.Reader.{Took, rest_of};
ghost use Rattle.mpl_parse.specs.Internal.Forms.{take_call_flow, take_expression_flow};

use mpl_ast::Name;
use mpl_ast::expression::Target;
use mpl_ast::flow::{Assignment, Call, Flow};
use mpl_ast::token::{Keyword, Mark, Token, TokenKind};
use mpl_expressions::{expression, field, place, variable};
use mpl_reader::ahead::{past_field, second, sees_mark};
use mpl_reader::{Reader, Stop, short_list};
use sqlite_items::{Boxed, Items};
use std::alloc::Global;

/// A call begins here, on `self` or a target, and no expression.
pub fn begins_call(tokens: &[Token]) -> bool
    ensures { result ≡ expressions.begins_call (taking.ahead tokens.now) tokens.now }
{
    let [token, ..] = tokens else {
        return false;
    };
    match token.kind {
        TokenKind::Name(_) => {
            let behind = past_field(tokens);
            sees_mark(second(tokens), Mark::Dot)
                && (sees_mark(behind, Mark::OpenParenthesis) || sees_mark(behind, Mark::Dot))
        }
        TokenKind::Keyword(Keyword::Own) => sees_mark(second(tokens), Mark::Dot),
        _ => false,
    }
}

/// The target of a call, behind which the member's name comes.
pub fn called(alloc: Global, reader: &mut Reader<'_>) -> Result<Target, Stop>
    ensures { Took spec.take_called (rest_of reader.old) result (rest_of reader.new) }
{
    if sees_mark(past_field(reader.left), Mark::OpenParenthesis) {
        variable(alloc, reader)
    } else {
        field(alloc, reader)
    }
}

/// A call, or an expression. Flows stand in flows at most so deep.
#[cycle(flow)]
pub fn flow(alloc: Global, reader: &mut Reader<'_>, depth: usize) -> Result<Flow, Stop>
    ensures { Took (spec.take_flow depth) (rest_of reader.old) result (rest_of reader.new) }
{
    let Some(inside) = depth.checked_sub(1) else {
        return Err(Stop::Stuck);
    };
    flow_within(alloc, reader, depth, inside)
}

/// A call or an expression, the latter so deep and the former with flows so deep.
#[cycle(flow)]
fn flow_within(
    alloc: Global,
    reader: &mut Reader<'_>,
    depth: usize,
    inside: usize,
) -> Result<Flow, Stop>
    ensures { Took (spec.flow_of (spec.take_flow inside) depth) (rest_of reader.old) result (rest_of reader.new) }
{
    if begins_call(reader.left) {
        call_flow(alloc, reader, inside)
    } else {
        expression_flow(alloc, reader, depth)
    }
}

/// A call as a flow.
#[cycle(flow)]
fn call_flow(alloc: Global, reader: &mut Reader<'_>, depth: usize) -> Result<Flow, Stop>
    ensures { Took (take_call_flow (spec.take_flow depth)) (rest_of reader.old) result (rest_of reader.new) }
{
    let start = reader.start()?;
    let call = call(alloc, reader, depth)?;
    let call = Boxed::new(alloc, call)?;
    Ok(Flow::OfCall(reader.finish(start), call))
}

/// An expression as a flow.
fn expression_flow(alloc: Global, reader: &mut Reader<'_>, depth: usize) -> Result<Flow, Stop>
    ensures { Took (take_expression_flow depth) (rest_of reader.old) result (rest_of reader.new) }
{
    let start = reader.start()?;
    let value = expression(alloc, reader, depth)?;
    Ok(Flow::OfExpression(reader.finish(start), value))
}

#[cycle(flow)]
pub fn call(alloc: Global, reader: &mut Reader<'_>, depth: usize) -> Result<Call, Stop>
    ensures { Took (spec.take_call (spec.take_flow depth)) (rest_of reader.old) result (rest_of reader.new) }
{
    let [token, ..] = reader.left else {
        return target_call(alloc, reader, depth);
    };
    match token.kind {
        TokenKind::Keyword(Keyword::Own) => own_call(alloc, reader, depth),
        _ => target_call(alloc, reader, depth),
    }
}

/// A call on `self`.
#[cycle(flow)]
pub fn own_call(alloc: Global, reader: &mut Reader<'_>, depth: usize) -> Result<Call, Stop>
    ensures { Took (spec.take_own_call (spec.take_flow depth)) (rest_of reader.old) result (rest_of reader.new) }
{
    let start = reader.start()?;
    reader.keyword(Keyword::Own)?;
    reader.mark(Mark::Dot)?;
    let (member, arguments) = member(alloc, reader, depth)?;
    Ok(Call::OnOwn(reader.finish(start), member, arguments))
}

/// A call on a target.
#[cycle(flow)]
fn target_call(alloc: Global, reader: &mut Reader<'_>, depth: usize) -> Result<Call, Stop>
    ensures { Took (spec.take_target_call (spec.take_flow depth)) (rest_of reader.old) result (rest_of reader.new) }
{
    let start = reader.start()?;
    let target = called(alloc, reader)?;
    reader.mark(Mark::Dot)?;
    let (member, arguments) = member(alloc, reader, depth)?;
    Ok(Call::OnTarget(reader.finish(start), target, member, arguments))
}

/// A member, and what it is given.
#[cycle(flow)]
fn member(alloc: Global, reader: &mut Reader<'_>, depth: usize) -> Result<(Name, Items<Flow>), Stop>
    ensures { Took (spec.take_member (spec.take_flow depth)) (rest_of reader.old) result (rest_of reader.new) }
{
    let member = reader.name(alloc)?;
    let arguments = arguments(alloc, reader, depth)?;
    Ok((member, arguments))
}

/// What a member is given, in its parentheses.
#[cycle(flow)]
fn arguments(alloc: Global, reader: &mut Reader<'_>, depth: usize) -> Result<Items<Flow>, Stop>
    ensures { Took (taking.parenthesized (taking.list_of (spec.take_flow depth))) (rest_of reader.old) result (rest_of reader.new) }
{
    reader.mark(Mark::OpenParenthesis)?;
    let arguments = flows_if_any(alloc, reader, depth)?;
    reader.mark(Mark::CloseParenthesis)?;
    Ok(arguments)
}

#[cycle(flow)]
fn flows_if_any(alloc: Global, reader: &mut Reader<'_>, depth: usize) -> Result<Items<Flow>, Stop>
    ensures { Took (taking.list_of (spec.take_flow depth)) (rest_of reader.old) result (rest_of reader.new) }
{
    if sees_mark(reader.left, Mark::CloseParenthesis) {
        Ok(Items::new(alloc))
    } else {
        flows(alloc, reader, depth)
    }
}

/// One or more flows, with commas between.
#[cycle(flow)]
fn flows(alloc: Global, reader: &mut Reader<'_>, depth: usize) -> Result<Items<Flow>, Stop>
    ensures { Took (taking.some_of (spec.take_flow depth)) (rest_of reader.old) result (rest_of reader.new) }
{
    let turns = reader.left.len();
    let mut list = short_list(alloc)?;
    let first = flow(alloc, reader, depth)?;
    list.push(first)?;
    for _turn in 0..turns {
        if !sees_mark(reader.left, Mark::Comma) {
            return Ok(list);
        }
        reader.mark(Mark::Comma)?;
        let next = flow(alloc, reader, depth)?;
        list.push(next)?;
    }
    Ok(list)
}

pub fn assignment(alloc: Global, reader: &mut Reader<'_>, depth: usize) -> Result<Assignment, Stop>
    ensures { Took (spec.take_assignment depth) (rest_of reader.old) result (rest_of reader.new) }
{
    let start = reader.start()?;
    let place = place(alloc, reader, depth)?;
    reader.mark(Mark::Assign)?;
    let value = flow(alloc, reader, depth)?;
    Ok(Assignment {
        at: reader.finish(start),
        place,
        value,
    })
}
