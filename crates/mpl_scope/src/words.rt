//! How many words variables have, as far as a limit can tell.

ghost use Rattle.std.specs.Prelude.{◌≡◌, ◌+◌, ◌≤◌, map, option_map};
ghost use Rattle.mpl_mean.specs.Meaning.Layout as layout;
ghost use Rattle.mpl_mean.specs.Plain.Stmt.{if_any, in_turn, locals, new_local, starts, stmt_of};
ghost use Rattle.mpl_mean.specs.TypeRules.StatementNodes.{declared_local};
ghost use Rattle.mpl_mean.specs.TypeRules.Types as types;
ghost use Rattle.mpl_scope.specs.SeenDeclared.{seen_declared};
ghost use Rattle.mpl_scope.specs.SeenOutline.{seen_meant};
ghost use Rattle.mpl_scope.specs.Locals.{stmt_locals, stmts_locals};
ghost use Rattle.mpl_scope.specs.Words.{told, words_of_state_list};

use crate::names::Declared;
use crate::outline::{Meant, Outline};
use crate::sizes::{sum, words_of_word};
use mpl_ast::statement::{Declarator, Dimension, ForStart, Local, Statement, TypeName};

// ---- variables

/// A formal or local. An array of structs counts one word for each element.
fn words_of_meant(meant: Meant, dimension: Option<Dimension>) -> u64
    ensures words { result ≡ told (types.words_of_meant (seen_meant meant.entry) (layout.dimension_of dimension)) }
    ensures few { result ≤ 1025 }
{
    match dimension {
        Some(_) => words_of_word(dimension),
        None => match meant {
            Meant::Struct(found) => found.words(),
            Meant::Class(class) => { if class.is_regular() { 0 } else { 1 } }
            Meant::Int | Meant::Bool | Meant::Nothing => 1,
        },
    }
}

fn words_of_state_member(meant: Meant, dimension: Option<Dimension>) -> u64
    ensures words { result ≡ told (types.words_of_state_member (seen_meant meant.entry) (layout.dimension_of dimension)) }
    ensures few { result ≤ 1025 }
{
    match dimension {
        Some(_) => words_of_word(dimension),
        None => match meant {
            Meant::Struct(found) => found.words(),
            Meant::Int | Meant::Bool | Meant::Class(_) | Meant::Nothing => 1,
        },
    }
}

pub fn words_of_formals<'a>(outline: &'a Outline<'a>, formals: &[Declared<'a>]) -> u64
    ensures words { result ≡ told (types.words_of_variables outline.now (map seen_declared formals.now)) }
    ensures few { result ≤ 1025 }
{
    let mut words = 0;
    for formal in formals {
        let meant = outline.meant(formal.type_name);
        words = sum(words, words_of_meant(meant, formal.dimension));
    }
    words
}

pub fn words_of_state<'a>(outline: &'a Outline<'a>, members: &[Declared<'a>]) -> u64
    ensures words { result ≡ told (words_of_state_list outline.now (map seen_declared members.now)) }
    ensures few { result ≤ 1025 }
{
    let mut words = 0;
    for member in members {
        let meant = outline.meant(member.type_name);
        words = sum(words, words_of_state_member(meant, member.dimension));
    }
    words
}

// ---- the locals of statements

fn dimension_of(declarator: &Declarator) -> Option<Dimension>
    ensures { result ≡ (new_local declarator.now).dimension }
{
    match declarator {
        Declarator::Plain(_, _, dimension) => *dimension,
        Declarator::Initialized(..) => None,
    }
}

fn words_of_declarators<'a>(
    outline: &'a Outline<'a>,
    type_name: &'a TypeName,
    declarators: &'a [Declarator],
) -> u64
    ensures words { result ≡ told (types.words_of_variables outline.now (map (λ d. declared_local type_name.now (new_local d)) declarators.now)) }
    ensures few { result ≤ 1025 }
{
    let meant = outline.meant(type_name);
    let mut words = 0;
    for declarator in declarators {
        words = sum(words, words_of_meant(meant, dimension_of(declarator)));
    }
    words
}

fn words_of_local<'a>(outline: &'a Outline<'a>, local: &'a Local) -> u64
    ensures words { result ≡ told (types.words_of_variables outline.now (stmt_locals (locals local.now))) }
    ensures few { result ≤ 1025 }
{
    words_of_declarators(outline, &local.type_name, local.declarators.as_slice())
}

fn words_of_start<'a>(outline: &'a Outline<'a>, start: &'a Option<ForStart>) -> u64
    ensures words { result ≡ told (types.words_of_variables outline.now (stmt_locals (if_any (option_map starts start.now)))) }
    ensures few { result ≤ 1025 }
{
    match start {
        Some(ForStart::Declare(local)) => words_of_local(outline, local),
        Some(ForStart::Assign(_)) | None => 0,
    }
}

#[cycle(words)]
fn words_of_statement<'a>(outline: &'a Outline<'a>, node: &'a Statement) -> u64
    ensures words { result ≡ told (types.words_of_variables outline.now (stmt_locals (stmt_of node.now))) }
    ensures few { result ≤ 1025 }
{
    match node {
        Statement::OfBlock(_, block) => {
            words_of_statements(outline, block.statements.as_slice())
        }
        Statement::Declare(_, local) => words_of_local(outline, local),
        Statement::If(_, _, then_part, else_part) => {
            let of_then = words_of_statement(outline, then_part.get());
            let of_else = match else_part {
                Some(statement) => words_of_statement(outline, statement.get()),
                None => 0,
            };
            sum(of_then, of_else)
        }
        Statement::While(_, _, body) => words_of_statement(outline, body.get()),
        Statement::For(_, head, body) => {
            let of_start = words_of_start(outline, &head.get().start);
            let of_body = words_of_statement(outline, body.get());
            sum(of_start, of_body)
        }
        Statement::Assign(..)
        | Statement::CallAlone(..)
        | Statement::Create(..)
        | Statement::Print(..)
        | Statement::Rtf(..)
        | Statement::Return(..)
        | Statement::Empty(..) => 0,
    }
}

#[cycle(words)]
pub fn words_of_statements<'a>(outline: &'a Outline<'a>, statements: &'a [Statement]) -> u64
    ensures words { result ≡ told (types.words_of_variables outline.now (stmts_locals (in_turn (map stmt_of statements.now)))) }
    ensures few { result ≤ 1025 }
{
    let mut words = 0;
    for statement in statements {
        words = sum(words, words_of_statement(outline, statement));
    }
    words
}
