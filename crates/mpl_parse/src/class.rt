//! Fields, formals, and what stands in a class.

ghost use Rattle.std.specs.Prelude.{◌≡◌, Some};
ghost use Rattle.mpl_ast.specs.declared.token.TokenKind.TheVariants as kind;
ghost use Rattle.mpl_trees.specs.Programs as spec;
ghost use Rattle.mpl_trees.specs.Taking as taking;
ghost use Rattle.mpl_reader.specs.Reader.{Took, rest_of};
ghost use Rattle.mpl_parse.specs.Internal.Forms.{take_accepted, take_empty_item, take_entry_behind, take_field_item, take_formals_within, take_guard_if_any, take_private, take_public};

use crate::local::{dimension_if_any, type_name};
use crate::simple::test;
use crate::statement::block;
use mpl_ast::class::{Entry, Field, FieldName, Formal, Formals, Item, ResultType};
use mpl_ast::expression::Expression;
use mpl_ast::statement::Block;
use mpl_ast::token::{Keyword, Mark, TokenKind};
use mpl_ast::{Name, Number};
use mpl_reader::ahead::{second, sees_keyword, sees_mark};
use mpl_reader::{Reader, Stop, short_list};
use sqlite_items::Items;
use std::alloc::Global;

// ---- fields and formals

fn field_name(alloc: Global, reader: &mut Reader<'_>) -> Result<FieldName, Stop>
    ensures { Took spec.take_field_name (rest_of reader.old) result (rest_of reader.new) }
{
    let name = reader.name(alloc)?;
    let dimension = dimension_if_any(reader)?;
    Ok(FieldName { name, dimension })
}

fn field_names(alloc: Global, reader: &mut Reader<'_>) -> Result<Items<FieldName>, Stop>
    ensures { Took (taking.some_of spec.take_field_name) (rest_of reader.old) result (rest_of reader.new) }
{
    let turns = reader.left.len();
    let mut list = short_list(alloc)?;
    let first = field_name(alloc, reader)?;
    list.push(first)?;
    for _turn in 0..turns {
        if !sees_mark(reader.left, Mark::Comma) {
            return Ok(list);
        }
        reader.mark(Mark::Comma)?;
        let next = field_name(alloc, reader)?;
        list.push(next)?;
    }
    Ok(list)
}

pub fn field(alloc: Global, reader: &mut Reader<'_>) -> Result<Field, Stop>
    ensures { Took spec.take_field (rest_of reader.old) result (rest_of reader.new) }
{
    let start = reader.start()?;
    let type_name = type_name(alloc, reader)?;
    let names = field_names(alloc, reader)?;
    reader.mark(Mark::Semicolon)?;
    Ok(Field {
        at: reader.finish(start),
        type_name,
        names,
    })
}

fn formal(alloc: Global, reader: &mut Reader<'_>) -> Result<Formal, Stop>
    ensures { Took spec.take_formal (rest_of reader.old) result (rest_of reader.new) }
{
    let type_name = type_name(alloc, reader)?;
    let name = reader.name(alloc)?;
    Ok(Formal { type_name, name })
}

fn formal_list(alloc: Global, reader: &mut Reader<'_>) -> Result<Items<Formal>, Stop>
    ensures { Took (taking.some_of spec.take_formal) (rest_of reader.old) result (rest_of reader.new) }
{
    let turns = reader.left.len();
    let mut list = short_list(alloc)?;
    let first = formal(alloc, reader)?;
    list.push(first)?;
    for _turn in 0..turns {
        if !sees_mark(reader.left, Mark::Comma) {
            return Ok(list);
        }
        reader.mark(Mark::Comma)?;
        let next = formal(alloc, reader)?;
        list.push(next)?;
    }
    Ok(list)
}

fn formals(alloc: Global, reader: &mut Reader<'_>) -> Result<Formals, Stop>
    ensures { Took spec.take_formals (rest_of reader.old) result (rest_of reader.new) }
{
    let start = reader.start()?;
    let list = formal_list(alloc, reader)?;
    Ok(Formals {
        at: reader.finish(start),
        list,
    })
}

fn formals_within(alloc: Global, reader: &mut Reader<'_>) -> Result<Option<Formals>, Stop>
    ensures { Took take_formals_within (rest_of reader.old) result (rest_of reader.new) }
{
    if sees_mark(reader.left, Mark::CloseParenthesis) {
        return Ok(None);
    }
    let formals = formals(alloc, reader)?;
    Ok(Some(formals))
}

/// The formals with their parentheses.
fn formals_if_any(alloc: Global, reader: &mut Reader<'_>) -> Result<Option<Formals>, Stop>
    ensures { Took spec.take_formals_if_any (rest_of reader.old) result (rest_of reader.new) }
{
    reader.mark(Mark::OpenParenthesis)?;
    let formals = formals_within(alloc, reader)?;
    reader.mark(Mark::CloseParenthesis)?;
    Ok(formals)
}

fn body(alloc: Global, reader: &mut Reader<'_>) -> Result<Block, Stop>
    ensures { Took spec.take_body (rest_of reader.old) result (rest_of reader.new) }
{
    let depth = reader.left.len();
    block(alloc, reader, depth)
}

/// Formals and a body.
pub fn function(alloc: Global, reader: &mut Reader<'_>) -> Result<(Option<Formals>, Block), Stop>
    ensures { Took spec.take_function (rest_of reader.old) result (rest_of reader.new) }
{
    let formals = formals_if_any(alloc, reader)?;
    let body = body(alloc, reader)?;
    Ok((formals, body))
}

// ---- entries

fn guard(alloc: Global, reader: &mut Reader<'_>) -> Result<Expression, Stop>
    ensures { Took spec.take_guard (rest_of reader.old) result (rest_of reader.new) }
{
    let depth = reader.left.len();
    reader.keyword(Keyword::Guard)?;
    test(alloc, reader, depth)
}

fn guard_if_any(alloc: Global, reader: &mut Reader<'_>) -> Result<Option<Expression>, Stop>
    ensures { Took take_guard_if_any (rest_of reader.old) result (rest_of reader.new) }
{
    if !sees_keyword(reader.left, Keyword::Guard) {
        return Ok(None);
    }
    let guard = guard(alloc, reader)?;
    Ok(Some(guard))
}

/// The member that an entry accepts.
fn accepted(alloc: Global, reader: &mut Reader<'_>) -> Result<Name, Stop>
    ensures { Took take_accepted (rest_of reader.old) result (rest_of reader.new) }
{
    reader.keyword(Keyword::Accept)?;
    let member = reader.name(alloc)?;
    reader.mark(Mark::Semicolon)?;
    Ok(member)
}

/// An entry behind its first word.
fn entry_behind(
    alloc: Global,
    reader: &mut Reader<'_>,
) -> Result<(Number, (Option<Expression>, Name)), Stop>
    ensures { Took take_entry_behind (rest_of reader.old) result (rest_of reader.new) }
{
    let priority = reader.number()?;
    reader.mark(Mark::Colon)?;
    let guard = guard_if_any(alloc, reader)?;
    let member = accepted(alloc, reader)?;
    Ok((priority, (guard, member)))
}

fn entry(alloc: Global, reader: &mut Reader<'_>) -> Result<Entry, Stop>
    ensures { Took spec.take_entry (rest_of reader.old) result (rest_of reader.new) }
{
    let start = reader.start()?;
    reader.keyword(Keyword::Priority)?;
    let (priority, (guard, member)) = entry_behind(alloc, reader)?;
    Ok(Entry {
        at: reader.finish(start),
        priority,
        guard,
        member,
    })
}

fn entries(alloc: Global, reader: &mut Reader<'_>, turns: usize) -> Result<Items<Entry>, Stop>
    ensures { Took (taking.all_of spec.take_entry turns) (rest_of reader.old) result (rest_of reader.new) }
{
    let mut list = short_list(alloc)?;
    for _turn in 0..turns {
        if sees_mark(reader.left, Mark::CloseBrace) {
            return Ok(list);
        }
        let next = entry(alloc, reader)?;
        list.push(next)?;
    }
    Ok(list)
}

// ---- items

fn void(reader: &mut Reader<'_>) -> Result<ResultType, Stop>
    ensures { Took spec.take_void (rest_of reader.old) result (rest_of reader.new) }
{
    let start = reader.start()?;
    reader.keyword(Keyword::Void)?;
    Ok(ResultType::Void(reader.finish(start)))
}

fn typed(alloc: Global, reader: &mut Reader<'_>) -> Result<ResultType, Stop>
    ensures { Took spec.take_typed (rest_of reader.old) result (rest_of reader.new) }
{
    let start = reader.start()?;
    let type_name = type_name(alloc, reader)?;
    Ok(ResultType::Typed(reader.finish(start), type_name))
}

fn void_member(alloc: Global, reader: &mut Reader<'_>) -> Result<Item, Stop>
    ensures { Took (spec.take_member spec.take_void) (rest_of reader.old) result (rest_of reader.new) }
{
    let start = reader.start()?;
    let result_type = void(reader)?;
    let name = reader.name(alloc)?;
    let (formals, body) = function(alloc, reader)?;
    Ok(Item::Member(reader.finish(start), result_type, name, formals, body))
}

fn typed_member(alloc: Global, reader: &mut Reader<'_>) -> Result<Item, Stop>
    ensures { Took (spec.take_member spec.take_typed) (rest_of reader.old) result (rest_of reader.new) }
{
    let start = reader.start()?;
    let result_type = typed(alloc, reader)?;
    let name = reader.name(alloc)?;
    let (formals, body) = function(alloc, reader)?;
    Ok(Item::Member(reader.finish(start), result_type, name, formals, body))
}

fn field_item(alloc: Global, reader: &mut Reader<'_>) -> Result<Item, Stop>
    ensures { Took take_field_item (rest_of reader.old) result (rest_of reader.new) }
{
    let start = reader.start()?;
    let field = field(alloc, reader)?;
    Ok(Item::OfField(reader.finish(start), field))
}

/// What begins with a type: a member or a field.
fn typed_item(alloc: Global, reader: &mut Reader<'_>) -> Result<Item, Stop>
    ensures { Took spec.take_typed_item (rest_of reader.old) result (rest_of reader.new) }
{
    if sees_mark(second(second(reader.left)), Mark::OpenParenthesis) {
        typed_member(alloc, reader)
    } else {
        field_item(alloc, reader)
    }
}

fn select(alloc: Global, reader: &mut Reader<'_>) -> Result<Item, Stop>
    ensures { Took spec.take_select (rest_of reader.old) result (rest_of reader.new) }
{
    let start = reader.start()?;
    reader.keyword(Keyword::Select)?;
    let (entries, mark_line) = braced_entries(alloc, reader)?;
    Ok(Item::Select(reader.finish(start), mark_line, entries))
}

/// Entries in braces, and the line of the last.
fn braced_entries(alloc: Global, reader: &mut Reader<'_>) -> Result<(Items<Entry>, u32), Stop>
    ensures { Took (spec.take_braced spec.take_entry) (rest_of reader.old) result (rest_of reader.new) }
{
    let turns = reader.left.len();
    reader.mark(Mark::OpenBrace)?;
    let entries = entries(alloc, reader, turns)?;
    let line = reader.line();
    reader.mark(Mark::CloseBrace)?;
    Ok((entries, line))
}

fn public(reader: &mut Reader<'_>) -> Result<Item, Stop>
    ensures { Took take_public (rest_of reader.old) result (rest_of reader.new) }
{
    let start = reader.start()?;
    reader.keyword(Keyword::Public)?;
    reader.mark(Mark::Colon)?;
    Ok(Item::Public(reader.finish(start)))
}

fn private(reader: &mut Reader<'_>) -> Result<Item, Stop>
    ensures { Took take_private (rest_of reader.old) result (rest_of reader.new) }
{
    let start = reader.start()?;
    reader.keyword(Keyword::Private)?;
    reader.mark(Mark::Colon)?;
    Ok(Item::Private(reader.finish(start)))
}

fn empty(reader: &mut Reader<'_>) -> Result<Item, Stop>
    ensures { Took take_empty_item (rest_of reader.old) result (rest_of reader.new) }
{
    let start = reader.start()?;
    reader.mark(Mark::Semicolon)?;
    Ok(Item::Empty(reader.finish(start)))
}

pub fn item(alloc: Global, reader: &mut Reader<'_>) -> Result<Item, Stop>
    ensures { Took spec.take_item (rest_of reader.old) result (rest_of reader.new) }
{
    let [token, ..] = reader.left else {
        return Err(Stop::Stuck);
    };
    match token.kind {
        TokenKind::Name(_) => typed_item(alloc, reader),
        TokenKind::Number(_) => Err(Stop::Stuck),
        TokenKind::Keyword(word) => worded_item(alloc, reader, word),
        TokenKind::Mark(Mark::Semicolon) => empty(reader),
        TokenKind::Mark(_) => Err(Stop::Stuck),
    }
}

/// What begins with a keyword.
fn worded_item(alloc: Global, reader: &mut Reader<'_>, word: Keyword) -> Result<Item, Stop>
    ensures { Took (spec.item_at (Some (kind.Keyword word))) (rest_of reader.old) result (rest_of reader.new) }
{
    match word {
        Keyword::Int | Keyword::Bool => typed_item(alloc, reader),
        Keyword::Void => void_member(alloc, reader),
        Keyword::Select => select(alloc, reader),
        Keyword::Public => public(reader),
        Keyword::Private => private(reader),
        _ => Err(Stop::Stuck),
    }
}
