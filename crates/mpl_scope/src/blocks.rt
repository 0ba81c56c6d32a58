//! Blocks, and the locals in them.

ghost use Rattle.std.specs.Prelude.{◌≡◌, not, OnOk};
ghost use Rattle.std.specs.List.{list_any};
ghost use Rattle.std.specs.Str.{bytes_eq};
ghost use Rattle.mpl_mean.specs.TypeRules.Scopes as scopes;
ghost use Rattle.mpl_scope.specs.SeenDeclared.{seen_declared};
ghost use Rattle.mpl_scope.specs.SeenScope.{seen_scope};
ghost use Rattle.mpl_scope.specs.Locals.{outer};

use crate::names::{Declared, Names};
use crate::scope::Scope;
use mpl_value::NoMemory;
use std::alloc::Global;

pub fn enter(alloc: Global, scope: &mut Scope) -> Result<(), NoMemory>
    ensures { OnOk result (seen_scope scope.new ≡ scopes.in_block (seen_scope scope.old)) }
{
    scope.blocks.push(Names::new(alloc))?;
    Ok(())
}

pub fn leave(scope: &mut Scope)
    ensures { seen_scope scope.new ≡ outer (seen_scope scope.old) }
{
    scope.blocks.pop();
}

/// A local of the innermost block.
pub fn declare<'a>(
    alloc: Global,
    scope: &mut Scope<'a>,
    declared: Declared<'a>,
) -> Result<(), NoMemory>
    ensures { OnOk result (seen_scope scope.new ≡ scopes.behind (seen_declared declared.entry) (seen_scope scope.old)) }
{
    let mut block = match scope.blocks.pop() {
        Some(block) => block,
        None => Names::new(alloc),
    };
    block.add(declared)?;
    scope.blocks.push(block)?;
    Ok(())
}

/// It differs from the locals of its block, and in the outermost block from the formals.
pub fn is_new<'a>(scope: &Scope<'a>, name: &'a [u8]) -> bool
    ensures { result ≡ not (list_any (bytes_eq name.now) (scopes.names_beside (seen_scope scope.now))) }
{
    let count = scope.blocks.len();
    if count == 0 {
        return !scope.formals.has(name);
    }
    let is_local = scope.blocks[count - 1].has(name);
    if count == 1 {
        return !(is_local || scope.formals.has(name));
    }
    !is_local
}
