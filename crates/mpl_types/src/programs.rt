//! The type rules of a whole program.

ghost use Rattle.std.specs.Prelude.{◌≡◌, [], flat_map, IfOk};
ghost use Rattle.std.specs.List.{list_any};
ghost use Rattle.mpl_mean.specs.TypeRules.NameRules.{is_named_main};
ghost use Rattle.mpl_mean.specs.TypeRules.ProgramNodes.{inside_declaration};
ghost use Rattle.mpl_mean.specs.TypeRules.Scopes.{at_top};
ghost use Rattle.mpl_mean.specs.TypeRules.Rules as rules;
ghost use Rattle.mpl_types.specs.Checkable.{IsCheckable};
ghost use Rattle.mpl_types.specs.Checked.{Checked};
ghost use Rattle.mpl_types.specs.Internal.Least.{earlier, noted};
ghost use Rattle.mpl_types.specs.Internal.Outlines.{declarations_least};
ghost use Rattle.mpl_types.specs.Internal.Programs.{insides_least, program_least};
ghost use Rattle.mpl_types.specs.Internal.Seen.{failure_of};

use crate::bodies::check_inside;
use crate::failure::{Failure, earlier, noted};
use crate::fault::TypeFault;
use crate::outlines::{check_declaration, has_main, name_of};
use mpl_ast::program::{Declaration, Program};
use mpl_mean::Typed;
use mpl_scope::earlier::Earlier;
use mpl_scope::outline::Outline;
use mpl_value::NoMemory;
use std::alloc::Global;

/// The program, if it keeps all type rules; else the least failure, by its byte and then by its rule.
#[tactic(auto, using(crate::proofs::ProgramLemmas::none_fails, crate::proofs::ProgramLemmas::program_is))]
pub fn check(alloc: Global, program: Program) -> Result<Typed, TypeFault>
    requires { IsCheckable program }
    ensures { Checked program result }
{
    match find_failure(alloc, &program) {
        Ok(None) => Ok(Typed::of(program)),
        Ok(Some(failure)) => Err(TypeFault::Rule {
            rule: failure.rule,
            at: failure.at,
        }),
        Err(NoMemory) => Err(TypeFault::NoMemory),
    }
}

/// No type rule fails.
#[tactic(auto, using(crate::proofs::ProgramLemmas::typed_by))]
pub fn is_typed(alloc: Global, program: &Program) -> Result<bool, NoMemory>
    ensures { IfOk result (λ typed. typed ≡ rules.is_typed program.now) }
{
    let failure = find_failure(alloc, program)?;
    Ok(failure.is_none())
}

fn find_failure<'a>(alloc: Global, program: &'a Program) -> Result<Option<Failure>, NoMemory>
    ensures { IfOk result (λ failure. failure_of failure ≡ program_least program.now) }
{
    let declarations = program.declarations.as_slice();
    let outline = Outline::of(alloc, declarations)?;
    let failure = find_least(alloc, &outline, declarations)?;
    Ok(failure)
}

/// The least failure in the outline of the declarations, and the least inside their bodies and guards.
#[tactic(auto, using(std::proofs::lemmas::Grind::common_steps, crate::proofs::LeastLemmas::earlier_assoc, crate::proofs::LeastLemmas::earlier_none, crate::proofs::LoopLemmas::insides_append))]
fn check_declarations<'a>(
    alloc: Global,
    outline: &'a Outline<'a>,
    declarations: &'a [Declaration],
) -> Result<(Option<Failure>, Option<Failure>), NoMemory>
    ensures outline { IfOk result (λ found. failure_of found.0 ≡ declarations_least outline.now 0 [] declarations.now) }
    ensures insides { IfOk result (λ found. failure_of found.1 ≡ insides_least (flat_map (inside_declaration (at_top outline.now)) declarations.now)) }
{
    let mut names = Earlier::new(alloc);
    let mut found = None;
    let mut inside = None;
    for i in 0..declarations.len() {
        let declaration = &declarations[i];
        let failure = check_declaration(alloc, outline, i, &names, declaration)?;
        found = earlier(found, failure);
        inside = earlier(inside, check_inside(alloc, outline, declaration)?);
        names.add(name_of(declaration).text.as_slice())?;
    }
    Ok((found, inside))
}

fn find_least<'o, 'a>(
    alloc: Global,
    outline: &'o Outline<'a>,
    declarations: &'a [Declaration],
) -> Result<Option<Failure>, NoMemory>
    ensures { IfOk result (λ failure. failure_of failure ≡ earlier
        (noted 0 3 (list_any is_named_main declarations.now) (declarations_least outline.now 0 [] declarations.now))
        (insides_least (flat_map (inside_declaration (at_top outline.now)) declarations.now))) }
{
    let (of_declarations, of_insides) = check_declarations(alloc, outline, declarations)?;
    let of_outline = noted(0, 3, has_main(declarations), of_declarations);
    Ok(earlier(of_outline, of_insides))
}
