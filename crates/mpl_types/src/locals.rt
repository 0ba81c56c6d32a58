//! Locals: the least failure in each, and what is in scope behind it.

ghost use Rattle.std.specs.Prelude.{◌≡◌, Some, map, not, OnOk, IfOk};
ghost use Rattle.std.specs.List.{list_all, list_any};
ghost use Rattle.std.specs.Str.{bytes_eq};
ghost use Rattle.mpl_mean.specs.Plain.Expr.{expr_of_flow};
ghost use Rattle.mpl_mean.specs.TypeRules.Scopes as scopes;
ghost use Rattle.mpl_mean.specs.TypeRules.StatementNodes as nodes;
ghost use Rattle.mpl_mean.specs.Plain.Stmt.{locals, new_local};
ghost use Rattle.mpl_mean.specs.TypeRules.Types.{AsLocal};
ghost use Rattle.mpl_scope.specs.SeenDeclared.{seen_declared};
ghost use Rattle.mpl_scope.specs.SeenScope.{seen_scope};
ghost use Rattle.mpl_types.specs.Internal.Least.{noted};
ghost use Rattle.mpl_types.specs.Internal.Seen.{failure_of};
ghost use Rattle.mpl_types.specs.Internal.Statements.{after, initialiser_least, local_least, locals_least, stmt_least};

use crate::calls::check_flow;
use crate::declarations::{check_dimension, check_type};
use crate::failure::{Failure, earlier, noted};
use mpl_ast::flow::Flow;
use mpl_ast::statement::{Declarator, Dimension, Local, TypeName};
use mpl_scope::blocks::{declare, is_new};
use mpl_scope::names::{Declared, Role};
use mpl_scope::scope::Scope;
use mpl_scope::shapes::{initialiser_agrees, shape_of};
use mpl_value::NoMemory;
use std::alloc::Global;

fn is_bare(declarator: &Declarator) -> bool
    ensures { result ≡ nodes.is_bare (new_local declarator.now) }
{
    match declarator {
        Declarator::Plain(_, _, dimension) => dimension.is_none(),
        Declarator::Initialized(..) => false,
    }
}

fn are_bare(declarators: &[Declarator]) -> bool
    ensures { result ≡ list_all (λ d. nodes.is_bare (new_local d)) declarators.now }
{
    declarators.iter().all(is_bare)
}

fn local_of<'a>(
    type_name: &'a TypeName,
    name: &'a [u8],
    dimension: Option<Dimension>,
) -> Declared<'a>
    ensures { seen_declared result ≡ record { role = AsLocal; name = name.now; type = type_name.now; dimension = dimension } }
{
    Declared {
        role: Role::Local,
        name,
        type_name,
        dimension,
    }
}

fn check_initialiser<'a>(
    scope: &Scope<'a>,
    at: u32,
    declared: Declared<'a>,
    value: &'a Flow,
) -> Option<Failure>
    ensures { failure_of result ≡ initialiser_least at (seen_scope scope.now) (seen_declared declared.entry) (Some (expr_of_flow value.now)) }
{
    let value = check_flow(scope, value);
    let shape = shape_of(scope.outline, Some(declared));
    let agrees = initialiser_agrees(shape, value.value);
    noted(at, 17, agrees, value.failure)
}

/// A local, which differs from those beside it, and is in scope from here on.
fn add_local<'a>(
    alloc: Global,
    scope: &mut Scope<'a>,
    at: u32,
    declared: Declared<'a>,
    of_parts: Option<Failure>,
) -> Result<Option<Failure>, NoMemory>
    ensures failure { IfOk result (λ failure. failure_of failure ≡ noted at 2 (not (list_any (bytes_eq (seen_declared declared.entry).name) (scopes.names_beside (seen_scope scope.old)))) (failure_of of_parts)) }
    ensures scope { OnOk result (seen_scope scope.new ≡ scopes.behind (seen_declared declared.entry) (seen_scope scope.old)) }
{
    let failure = noted(at, 2, is_new(scope, declared.name), of_parts);
    declare(alloc, scope, declared)?;
    Ok(failure)
}

/// A local is in scope behind its declarator, and not in its own initialiser.
fn check_declarator<'a>(
    alloc: Global,
    scope: &mut Scope<'a>,
    type_name: &'a TypeName,
    declarator: &'a Declarator,
) -> Result<Option<Failure>, NoMemory>
    ensures failure { IfOk result (λ failure. failure_of failure ≡ local_least type_name.now (new_local declarator.now) (seen_scope scope.old)) }
    ensures scope { OnOk result (seen_scope scope.new ≡ scopes.behind (nodes.declared_local type_name.now (new_local declarator.now)) (seen_scope scope.old)) }
{
    match declarator {
        Declarator::Plain(_, name, dimension) => {
            let declared = local_of(type_name, name.text.as_slice(), *dimension);
            let of_dimension = earlier(check_dimension(type_name, *dimension), None);
            add_local(alloc, scope, name.from, declared, of_dimension)
        }
        Declarator::Initialized(_, name, value) => {
            let declared = local_of(type_name, name.text.as_slice(), None);
            let of_value = check_initialiser(scope, name.from, declared, value);
            add_local(alloc, scope, name.from, declared, of_value)
        }
    }
}

#[tactic(auto, using(std::proofs::lemmas::Grind::common_steps, crate::proofs::LeastLemmas::earlier_assoc, crate::proofs::LeastLemmas::earlier_none))]
fn check_declarators<'a>(
    alloc: Global,
    scope: &mut Scope<'a>,
    type_name: &'a TypeName,
    declarators: &'a [Declarator],
) -> Result<Option<Failure>, NoMemory>
    ensures failure { IfOk result (λ failure. failure_of failure ≡ locals_least type_name.now (map new_local declarators.now) (seen_scope scope.old)) }
    ensures scope { OnOk result (seen_scope scope.new ≡ (nodes.locals_walk type_name.now (map new_local declarators.now) (seen_scope scope.old)).after) }
{
    let mut found = None;
    for declarator in declarators {
        found = earlier(
            found,
            check_declarator(alloc, scope, type_name, declarator)?,
        );
    }
    Ok(found)
}

pub fn check_local<'a>(
    alloc: Global,
    scope: &mut Scope<'a>,
    local: &'a Local,
) -> Result<Option<Failure>, NoMemory>
    ensures failure { IfOk result (λ failure. failure_of failure ≡ stmt_least (locals local.now) (seen_scope scope.old)) }
    ensures scope { OnOk result (seen_scope scope.new ≡ after (locals local.now) (seen_scope scope.old)) }
{
    let declarators = local.declarators.as_slice();
    let is_bare = are_bare(declarators);
    let of_type = check_type(scope.outline, Role::Local, is_bare, &local.type_name);
    let of_locals = check_declarators(alloc, scope, &local.type_name, declarators)?;
    Ok(earlier(of_type, of_locals))
}
