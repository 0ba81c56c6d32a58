//! What is inside the bodies of functions and members, and inside guards.

ghost use Rattle.std.specs.Prelude.{◌≡◌, [], flat_map, IfOk};
ghost use Rattle.mpl_ast.specs.declared.class.Entry.{Entry};
ghost use Rattle.mpl_mean.specs.Plain.Expr.{expr_of};
ghost use Rattle.mpl_mean.specs.TypeRules.ProgramNodes as nodes;
ghost use Rattle.mpl_mean.specs.TypeRules.Scopes as scopes;
ghost use Rattle.mpl_mean.specs.TypeRules.Types as types;
ghost use Rattle.mpl_mean.specs.TypeRules.Typing.{member_of};
ghost use Rattle.mpl_mean.specs.Plain.Stmt.{stmts_of};
ghost use Rattle.mpl_types.specs.Internal.Programs.{guard_least, insides_least, routine_least};
ghost use Rattle.mpl_types.specs.Internal.Seen.{failure_of};
ghost use Rattle.mpl_scope.specs.SeenScope.{seen_body, seen_if_any, seen_scope};

use crate::expressions::check_expression;
use crate::failure::{Failure, earlier, noted};
use crate::statements::check_statements;
use mpl_ast::class::{Entry, Formal, Item};
use mpl_ast::expression::Expression;
use mpl_ast::program::Declaration;
use mpl_ast::statement::{Block, TypeName};
use mpl_scope::kinds::Class;
use mpl_scope::members::formals_of;
use mpl_scope::names::Names;
use mpl_scope::outline::{Outline, is_regular};
use mpl_scope::scope::{Body, Scope, is_main};
use mpl_scope::sizes::sum;
use mpl_scope::types::{ValueType, agree};
use mpl_scope::words::{words_of_formals, words_of_statements};
use mpl_value::NoMemory;
use std::alloc::Global;

/// The most words of all formals and locals of one body together.
const MOST_WORDS: u64 = 1024;

/// The beginning of a body.
fn scope_of<'a>(
    alloc: Global,
    outline: &'a Outline<'a>,
    class: Option<&'a Class<'a>>,
    body: Body<'a>,
    formals: &'a [Formal],
) -> Result<Scope<'a>, NoMemory>
    ensures { IfOk result (λ scope. seen_scope scope ≡ scopes.in_body (seen_body body.entry) (types.declared_formals formals.now)
        (record { declarations = outline.now; class = seen_if_any class.entry; body = scopes.NoBody; formals = []; blocks = [] })) }
{
    let formals = Names::of_formals(alloc, formals)?;
    let mut blocks = Vec::new(alloc);
    blocks.push(Names::new(alloc))?;
    Ok(Scope {
        outline,
        class,
        body,
        formals,
        blocks,
    })
}

/// The body of a function or member, which begins at this byte.
fn check_routine<'a>(
    alloc: Global,
    at: u32,
    outline: &'a Outline<'a>,
    class: Option<&'a Class<'a>>,
    body: Body<'a>,
    formals: &'a [Formal],
    block: &'a Block,
) -> Result<Option<Failure>, NoMemory>
    ensures { IfOk result (λ failure. failure_of failure ≡ routine_least at
        (scopes.in_body (seen_body body.entry) (types.declared_formals formals.now)
        (record { declarations = outline.now; class = seen_if_any class.entry; body = scopes.NoBody; formals = []; blocks = [] }))
        formals.now (stmts_of block.now)) }
{
    let mut scope = scope_of(alloc, outline, class, body, formals)?;
    let statements = block.statements.as_slice();
    let words = sum(
        words_of_formals(outline, scope.formals.list()),
        words_of_statements(outline, statements),
    );
    let of_statements = check_statements(alloc, &mut scope, statements)?;
    Ok(noted(at, 7, words <= MOST_WORDS, of_statements))
}

fn check_guard<'a>(scope: &Scope<'a>, test: &'a Expression) -> Option<Failure>
    ensures { failure_of result ≡ guard_least (seen_scope scope.now) (expr_of test.now) }
{
    let test = check_expression(scope, test);
    let is_guard = agree(Some(ValueType::Bool), test.value) && test.fits_guard;
    noted(test.at, 11, is_guard, test.failure)
}

/// The formals of the member that is accepted, where there is one.
fn accepted_formals<'a>(class: &'a Class<'a>, name: &'a [u8]) -> &'a [Formal]
    ensures { result.now ≡ nodes.accepted_formals (member_of name.now class.now.items) }
{
    match class.member(name) {
        Some(member) => member.formals,
        None => &[],
    }
}

fn check_entry<'a>(
    alloc: Global,
    outline: &'a Outline<'a>,
    class: &'a Class<'a>,
    entry: &'a Entry,
) -> Result<Option<Failure>, NoMemory>
    ensures { IfOk result (λ failure. failure_of failure ≡ insides_least (nodes.guards_of_entry (scopes.in_class class.now (scopes.at_top outline.now)) class.now.items entry.now.member entry.now.guard)) }
{
    match &entry.guard {
        Some(test) => {
            let formals = accepted_formals(class, entry.member.text.as_slice());
            let scope = scope_of(alloc, outline, Some(class), Body::Guard, formals)?;
            Ok(earlier(check_guard(&scope, test), None))
        }
        None => Ok(None),
    }
}

#[tactic(auto, using(std::proofs::lemmas::Grind::common_steps, crate::proofs::LeastLemmas::earlier_assoc, crate::proofs::LeastLemmas::earlier_none, crate::proofs::LoopLemmas::insides_append))]
fn check_entries<'a>(
    alloc: Global,
    outline: &'a Outline<'a>,
    class: &'a Class<'a>,
    entries: &'a [Entry],
) -> Result<Option<Failure>, NoMemory>
    ensures { IfOk result (λ failure. failure_of failure ≡ insides_least (flat_map (λ (entry : Entry). nodes.guards_of_entry (scopes.in_class class.now (scopes.at_top outline.now)) class.now.items entry.member entry.guard) entries.now)) }
{
    let mut found = None;
    for entry in entries {
        found = earlier(found, check_entry(alloc, outline, class, entry)?);
    }
    Ok(found)
}

fn check_inside_item<'a>(
    alloc: Global,
    outline: &'a Outline<'a>,
    class: &'a Class<'a>,
    item: &'a Item,
) -> Result<Option<Failure>, NoMemory>
    ensures { IfOk result (λ failure. failure_of failure ≡ insides_least (nodes.inside_item (scopes.in_class class.now (scopes.at_top outline.now)) class.now.items item.now)) }
{
    match item {
        Item::Member(at, declared, _, formals, block) => {
            let formals = formals_of(formals);
            let body = Body::Member(declared);
            let class = Some(class);
            let found = check_routine(alloc, at.span.from, outline, class, body, formals, block)?;
            Ok(earlier(found, None))
        }
        Item::Select(_, _, entries) => check_entries(alloc, outline, class, entries.as_slice()),
        Item::OfField(..) | Item::Public(_) | Item::Private(_) | Item::Empty(_) => Ok(None),
    }
}

#[tactic(auto, using(std::proofs::lemmas::Grind::common_steps, crate::proofs::LeastLemmas::earlier_assoc, crate::proofs::LeastLemmas::earlier_none, crate::proofs::LoopLemmas::insides_append))]
fn check_inside_class<'a>(
    alloc: Global,
    outline: &'a Outline<'a>,
    class: &'a Class<'a>,
    items: &'a [Item],
) -> Result<Option<Failure>, NoMemory>
    ensures { IfOk result (λ failure. failure_of failure ≡ insides_least (flat_map (nodes.inside_item (scopes.in_class class.now (scopes.at_top outline.now)) class.now.items) items.now)) }
{
    let mut found = None;
    for item in items {
        found = earlier(found, check_inside_item(alloc, outline, class, item)?);
    }
    Ok(found)
}

fn function_body<'a>(name: &[u8], declared: &'a TypeName) -> Body<'a>
    ensures { seen_body result ≡ nodes.function_body name.now declared.now }
{
    if is_main(name) {
        Body::Main
    } else {
        Body::Function(declared)
    }
}

/// The bodies and guards of a declaration.
pub fn check_inside<'a>(
    alloc: Global,
    outline: &'a Outline<'a>,
    declaration: &'a Declaration,
) -> Result<Option<Failure>, NoMemory>
    ensures { IfOk result (λ failure. failure_of failure ≡ insides_least (nodes.inside_declaration (scopes.at_top outline.now) declaration.now)) }
{
    match declaration {
        Declaration::Struct(..) => Ok(None),
        Declaration::Class(_, _, kind, name, items) => {
            let items = items.as_slice();
            let class = Class::of(alloc, name.text.as_slice(), is_regular(kind), items)?;
            let found = check_inside_class(alloc, outline, &class, items)?;
            Ok(found)
        }
        Declaration::Function(at, declared, name, formals, block) => {
            let formals = formals_of(formals);
            let body = function_body(name.text.as_slice(), declared);
            let found = check_routine(alloc, at.span.from, outline, None, body, formals, block)?;
            Ok(earlier(found, None))
        }
    }
}
