//! Formals, results and fields where they are declared.

ghost use Rattle.std.specs.Prelude.{◌≡◌, ◌∷◌, ◌++◌, [], OnOk, IfOk};
ghost use Rattle.mpl_mean.specs.TypeRules.ProgramNodes.{field_names};
ghost use Rattle.mpl_mean.specs.TypeRules.SizeRules.{is_not_first_too_many};
ghost use Rattle.mpl_mean.specs.Limits.{most_formals};
ghost use Rattle.mpl_types.specs.Internal.Outlines.{field_least, field_names_least, fields_least, formals_least, names_of, result_least};
ghost use Rattle.mpl_types.specs.Internal.Seen.{failure_of};
ghost use Rattle.mpl_scope.specs.SeenDeclared.{seen_role};

use crate::declarations::{check_dimension, check_type, type_at};
use crate::failure::{Failure, earlier, noted};
use mpl_ast::class::{Field, FieldName, Formal, ResultType};
use mpl_ast::statement::TypeName;
use mpl_scope::earlier::Earlier;
use mpl_scope::names::Role;
use mpl_scope::outline::Outline;
use mpl_value::NoMemory;
use std::alloc::Global;

/// The most formals of a function or member.
const MOST_FORMALS: usize = 16;

#[tactic(auto, using(std::proofs::lemmas::Grind::common_steps, crate::proofs::LeastLemmas::earlier_assoc, crate::proofs::LeastLemmas::earlier_none, crate::proofs::LoopLemmas::formal_and_others))]
pub fn check_formals<'a>(
    alloc: Global,
    outline: &'a Outline<'a>,
    formals: &'a [Formal],
) -> Result<Option<Failure>, NoMemory>
    ensures { IfOk result (λ failure. failure_of failure ≡ formals_least outline.now 0 [] formals.now) }
{
    let mut names = Earlier::new(alloc);
    let mut found = None;
    for i in 0..formals.len() {
        let formal = &formals[i];
        let name = formal.name.text.as_slice();
        let of_type = check_type(outline, Role::Formal, true, &formal.type_name);
        let of_name = noted(formal.name.from, 2, names.is_new(name), of_type);
        let of_count = noted(type_at(&formal.type_name), 8, i != MOST_FORMALS, of_name);
        found = earlier(found, of_count);
        names.add(name)?;
    }
    Ok(found)
}

pub fn check_result<'a>(outline: &'a Outline<'a>, declared: &'a ResultType) -> Option<Failure>
    ensures { failure_of result ≡ result_least outline.now declared.now }
{
    match declared {
        ResultType::Void(_) => None,
        ResultType::Typed(_, type_name) => check_type(outline, Role::Result, true, type_name),
    }
}

fn check_field_name<'a>(
    names: &Earlier<'a>,
    type_name: &TypeName,
    field: &'a FieldName,
) -> Option<Failure>
    ensures { failure_of result ≡ field_names_least type_name.now names.now (field.now ∷ []) }
{
    let of_dimension = earlier(check_dimension(type_name, field.dimension), None);
    let is_new = names.is_new(field.name.text.as_slice());
    noted(field.name.from, 2, is_new, of_dimension)
}

#[tactic(auto, using(std::proofs::lemmas::Grind::common_steps, crate::proofs::LeastLemmas::earlier_assoc, crate::proofs::LeastLemmas::earlier_none, crate::proofs::LoopLemmas::field_and_others))]
fn check_field_names<'a>(
    names: &mut Earlier<'a>,
    type_name: &TypeName,
    fields: &'a [FieldName],
) -> Result<Option<Failure>, NoMemory>
    ensures failure { IfOk result (λ failure. failure_of failure ≡ field_names_least type_name.now names.old fields.now) }
    ensures names { OnOk result (names.new ≡ names.old ++ names_of fields.now) }
{
    let mut found = None;
    for field in fields {
        found = earlier(found, check_field_name(names, type_name, field));
        names.add(field.name.text.as_slice())?;
    }
    Ok(found)
}

/// A field of a struct, or state member of a class.
pub fn check_field<'a>(
    outline: &'a Outline<'a>,
    role: Role,
    names: &mut Earlier<'a>,
    field: &'a Field,
) -> Result<Option<Failure>, NoMemory>
    ensures failure { IfOk result (λ failure. failure_of failure ≡ field_least outline.now (seen_role role) names.old field.now) }
    ensures names { OnOk result (names.new ≡ names.old ++ field_names field.now) }
{
    let of_type = check_type(outline, role, true, &field.type_name);
    let of_names = check_field_names(names, &field.type_name, field.names.as_slice())?;
    Ok(earlier(of_type, of_names))
}

/// The fields of a struct.
#[tactic(auto, using(std::proofs::lemmas::Grind::common_steps, crate::proofs::LeastLemmas::earlier_assoc, crate::proofs::LeastLemmas::earlier_none))]
pub fn check_fields<'a>(
    alloc: Global,
    outline: &'a Outline<'a>,
    fields: &'a [Field],
) -> Result<Option<Failure>, NoMemory>
    ensures { IfOk result (λ failure. failure_of failure ≡ fields_least outline.now [] fields.now) }
{
    let mut names = Earlier::new(alloc);
    let mut found = None;
    for field in fields {
        found = earlier(found, check_field(outline, Role::Field, &mut names, field)?);
    }
    Ok(found)
}
