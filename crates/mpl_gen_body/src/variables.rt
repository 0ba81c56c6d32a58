//! The variables of a body, as its statements declare them.

ghost use Rattle.std.specs.Prelude.{◌≡◌, OnOk};
ghost use Rattle.mpl_gen_body.specs.Internal.Writing.{left};
ghost use Rattle.mpl_gen_code.specs.Scopes.{with_hidden, with_variable};
ghost use Rattle.mpl_gen_scope.specs.SeenLocals.{shape_seen};
ghost use Rattle.mpl_gen_scope.specs.SeenScope.{env_seen};

use mpl_gen_scope::locals::{Shape, Slot};
use mpl_gen_scope::scope::Scope;
use mpl_layout::words::words_of;
use mpl_value::NoMemory;

/// One more variable, with the next number.
pub fn declare<'o, 'a>(scope: &mut Scope<'o, 'a>, shape: Shape<'a>) -> Result<(), NoMemory>
    ensures { OnOk result (env_seen scope.new ≡ with_variable (shape_seen shape.entry) (env_seen scope.old)) }
{
    let words = words_of(scope.outline.layout(), shape.type_name, shape.dimension);
    let number = scope.sizes.len();
    scope.locals.declare(Slot { number, shape })?;
    scope.sizes.push(words)
}

/// One more variable that has no name.
pub fn hide<'o, 'a>(scope: &mut Scope<'o, 'a>, words: usize) -> Result<(), NoMemory>
    ensures { OnOk result (env_seen scope.new ≡ with_hidden words (env_seen scope.old)) }
{
    scope.sizes.push(words)
}

/// Only so many of the oldest variables keep their names.
pub fn leave<'o, 'a>(scope: &mut Scope<'o, 'a>, count: usize) -> Result<(), NoMemory>
    ensures { OnOk result (env_seen scope.new ≡ left count (env_seen scope.old)) }
{
    scope.locals.leave(count)
}
