//! Declarations, and all of a program.

ghost use Rattle.std.specs.Prelude.{◌≡◌, [], Some};
ghost use Rattle.mpl_trees.specs.Programs as spec;
ghost use Rattle.mpl_trees.specs.Taking as taking;
ghost use Rattle.mpl_reader.specs.Reader.{Took, most_number, rest_of};
ghost use Rattle.mpl_parse.specs.Internal.Forms.{TookProgram, take_class_behind};

use crate::class::{field, function, item};
use crate::local::type_name;
use mpl_ast::class::{Field, Item, Kind};
use mpl_ast::program::{Declaration, Program};
use mpl_ast::token::{Keyword, Mark, Token, TokenKind};
use mpl_ast::{At, Name, Span};
use mpl_reader::ahead::sees_mark;
use mpl_reader::{Reader, Stop, short_list};
use sqlite_items::Items;
use std::alloc::Global;

fn fields(alloc: Global, reader: &mut Reader<'_>, turns: usize) -> Result<Items<Field>, Stop>
    ensures { Took (taking.all_of spec.take_field turns) (rest_of reader.old) result (rest_of reader.new) }
{
    let mut list = short_list(alloc)?;
    for _turn in 0..turns {
        if sees_mark(reader.left, Mark::CloseBrace) {
            return Ok(list);
        }
        let next = field(alloc, reader)?;
        list.push(next)?;
    }
    Ok(list)
}

/// Fields in braces, and the line of the last.
fn braced_fields(alloc: Global, reader: &mut Reader<'_>) -> Result<(Items<Field>, u32), Stop>
    ensures { Took (spec.take_braced spec.take_field) (rest_of reader.old) result (rest_of reader.new) }
{
    let turns = reader.left.len();
    reader.mark(Mark::OpenBrace)?;
    let fields = fields(alloc, reader, turns)?;
    let line = reader.line();
    reader.mark(Mark::CloseBrace)?;
    Ok((fields, line))
}

fn structure(alloc: Global, reader: &mut Reader<'_>) -> Result<Declaration, Stop>
    ensures { Took spec.take_struct (rest_of reader.old) result (rest_of reader.new) }
{
    let start = reader.start()?;
    reader.keyword(Keyword::Struct)?;
    let name = reader.name(alloc)?;
    let (fields, mark_line) = braced_fields(alloc, reader)?;
    reader.mark(Mark::Semicolon)?;
    Ok(Declaration::Struct(reader.finish(start), mark_line, name, fields))
}

fn items(alloc: Global, reader: &mut Reader<'_>, turns: usize) -> Result<Items<Item>, Stop>
    ensures { Took (taking.all_of spec.take_item turns) (rest_of reader.old) result (rest_of reader.new) }
{
    let mut list = short_list(alloc)?;
    for _turn in 0..turns {
        if sees_mark(reader.left, Mark::CloseBrace) {
            return Ok(list);
        }
        let next = item(alloc, reader)?;
        list.push(next)?;
    }
    Ok(list)
}

/// Items in braces, and the line of the last.
fn braced_items(alloc: Global, reader: &mut Reader<'_>) -> Result<(Items<Item>, u32), Stop>
    ensures { Took (spec.take_braced spec.take_item) (rest_of reader.old) result (rest_of reader.new) }
{
    let turns = reader.left.len();
    reader.mark(Mark::OpenBrace)?;
    let items = items(alloc, reader, turns)?;
    let line = reader.line();
    reader.mark(Mark::CloseBrace)?;
    Ok((items, line))
}

fn regular(reader: &mut Reader<'_>) -> Result<Kind, Stop>
    ensures { Took spec.take_regular (rest_of reader.old) result (rest_of reader.new) }
{
    let start = reader.start()?;
    reader.keyword(Keyword::Regular)?;
    Ok(Kind::Regular(reader.finish(start)))
}

fn persistent(reader: &mut Reader<'_>) -> Result<Kind, Stop>
    ensures { Took spec.take_persistent (rest_of reader.old) result (rest_of reader.new) }
{
    let start = reader.start()?;
    reader.keyword(Keyword::Persistent)?;
    Ok(Kind::Persistent(reader.finish(start)))
}

/// A class behind its kind: its name and its items, with the line of the last brace.
fn class(alloc: Global, reader: &mut Reader<'_>) -> Result<(Name, (Items<Item>, u32)), Stop>
    ensures { Took take_class_behind (rest_of reader.old) result (rest_of reader.new) }
{
    reader.keyword(Keyword::Mentat)?;
    reader.keyword(Keyword::Class)?;
    let name = reader.name(alloc)?;
    let items = braced_items(alloc, reader)?;
    reader.mark(Mark::Semicolon)?;
    Ok((name, items))
}

fn regular_class(alloc: Global, reader: &mut Reader<'_>) -> Result<Declaration, Stop>
    ensures { Took (spec.take_class spec.take_regular) (rest_of reader.old) result (rest_of reader.new) }
{
    let start = reader.start()?;
    let kind = regular(reader)?;
    let (name, (items, mark_line)) = class(alloc, reader)?;
    Ok(Declaration::Class(reader.finish(start), mark_line, kind, name, items))
}

fn persistent_class(alloc: Global, reader: &mut Reader<'_>) -> Result<Declaration, Stop>
    ensures { Took (spec.take_class spec.take_persistent) (rest_of reader.old) result (rest_of reader.new) }
{
    let start = reader.start()?;
    let kind = persistent(reader)?;
    let (name, (items, mark_line)) = class(alloc, reader)?;
    Ok(Declaration::Class(reader.finish(start), mark_line, kind, name, items))
}

fn function_declaration(alloc: Global, reader: &mut Reader<'_>) -> Result<Declaration, Stop>
    ensures { Took spec.take_function_declaration (rest_of reader.old) result (rest_of reader.new) }
{
    let start = reader.start()?;
    let result_type = type_name(alloc, reader)?;
    let name = reader.name(alloc)?;
    let (formals, body) = function(alloc, reader)?;
    Ok(Declaration::Function(reader.finish(start), result_type, name, formals, body))
}

fn declaration(alloc: Global, reader: &mut Reader<'_>) -> Result<Declaration, Stop>
    ensures { Took spec.take_declaration (rest_of reader.old) result (rest_of reader.new) }
{
    let [token, ..] = reader.left else {
        return function_declaration(alloc, reader);
    };
    match token.kind {
        TokenKind::Keyword(Keyword::Struct) => structure(alloc, reader),
        TokenKind::Keyword(Keyword::Regular) => regular_class(alloc, reader),
        TokenKind::Keyword(Keyword::Persistent) => persistent_class(alloc, reader),
        _ => function_declaration(alloc, reader),
    }
}

/// All to the last token, at most so many.
fn declarations(
    alloc: Global,
    reader: &mut Reader<'_>,
    turns: usize,
) -> Result<Items<Declaration>, Stop>
    ensures { Took (spec.take_declarations turns) (rest_of reader.old) result (rest_of reader.new) }
{
    let mut list = short_list(alloc)?;
    for _turn in 0..turns {
        if reader.left.is_empty() {
            return Ok(list);
        }
        let next = declaration(alloc, reader)?;
        list.push(next)?;
    }
    Ok(list)
}

/// The tree of all tokens. A program of no token stands at byte 0 of line 1.
pub fn program(alloc: Global, tokens: &[Token]) -> Result<Program, Stop>
    ensures { TookProgram (spec.take_program most_number tokens.now) result }
{
    let [_, ..] = tokens else {
        return Ok(empty(alloc));
    };
    let mut reader = Reader {
        left: tokens,
        last: 0,
        next: 0,
    };
    let start = reader.start()?;
    let declarations = declarations(alloc, &mut reader, tokens.len())?;
    Ok(Program {
        at: reader.finish(start),
        declarations,
    })
}

fn empty(alloc: Global) -> Program
    ensures { spec.take_program most_number [] ≡ Some result }
{
    Program {
        at: At {
            span: Span { from: 0, to: 0 },
            line: 1,
            id: 0,
        },
        declarations: Items::new(alloc),
    }
}
