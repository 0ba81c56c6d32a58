ghost use Rattle.std.specs.Prelude.{◌≡◌, [], ◌∷◌, ◌++◌, length, map, option_map, Some, OnOk};
ghost use Rattle.mpl_body_code.specs.Codes.{create_code, create_in, element_code, expression_codes, flow_code, into_code, new_code, place_code, return_code, statement_code};
ghost use Rattle.mpl_mean.specs.Plain.Scopes.{found_at};
ghost use Rattle.mpl_body_code.specs.declared.instruction.Instruction.TheVariants as instruction;
ghost use Rattle.mpl_mean.specs.Plain.Expr.{expr_of, expr_of_flow, expr_of_place};
ghost use Rattle.mpl_mean.specs.Plain.Stmt.{assigns};
ghost use Rattle.mpl_layout.specs.SeenClasses.{class_seen};
ghost use Rattle.mpl_body_image.specs.Internal.SeenScope.{env_seen, found_seen};

use crate::expressions::expression;
use crate::flows::flow;
use crate::found::Found;
use crate::scope::{Scope, class_found, found_at, spot_of};
use mpl_ast::expression::{Expression, Place, Target};
use mpl_ast::flow::{Assignment, Flow};
use mpl_body_code::{Code, Instruction};
use mpl_layout::class::Class;
use mpl_value::NoMemory;

pub fn assign<'o, 'a>(
    scope: &Scope<'o, 'a>,
    code: &mut Code,
    node: &'a Assignment,
) -> Result<(), NoMemory>
    ensures { OnOk result (code.new ≡ code.old ++ statement_code (env_seen scope.now) (assigns node.now)) }
{
    assign_place(scope, code, &node.place, &node.value)
}

fn assign_place<'o, 'a>(
    scope: &Scope<'o, 'a>,
    code: &mut Code,
    place: &'a Place,
    value: &'a Flow,
) -> Result<(), NoMemory>
    ensures { OnOk result (code.new ≡ code.old ++ (flow_code (env_seen scope.now) (expr_of_flow value.now) ++ place_code (env_seen scope.now) (expr_of_place place.now))) }
{
    match place {
        Place::Whole(_, target) => {
            flow(scope, code, value)?;
            into(code, found_at(scope, target)?)
        }
        Place::Element(_, line, target, index) => {
            flow(scope, code, value)?;
            code.push(Instruction::Force)?;
            expression(scope, code, index.get())?;
            element(code, *line, found_at(scope, target)?)
        }
    }
}

/// What is on top goes into a place.
fn into(code: &mut Code, found: Option<Found>) -> Result<(), NoMemory>
    ensures { OnOk result (code.new ≡ code.old ++ into_code (option_map found_seen found.entry)) }
{
    match found {
        Some(found) => into_found(code, found),
        None => code.push(Instruction::Wait),
    }
}

fn into_found(code: &mut Code, found: Found) -> Result<(), NoMemory>
    ensures { OnOk result (code.new ≡ code.old ++ into_code (Some (found_seen found.entry))) }
{
    match found.slot {
        Some(slot) => {
            if found.is_whole {
                code.push(Instruction::Hold(slot.number))
            } else {
                code.push(Instruction::Force)?;
                code.push(Instruction::Put(spot_of(found)))
            }
        }
        None => {
            code.push(Instruction::Force)?;
            code.push(Instruction::Put(spot_of(found)))
        }
    }
}

fn element(code: &mut Code, line: u32, found: Option<Found>) -> Result<(), NoMemory>
    ensures { OnOk result (code.new ≡ code.old ++ element_code line (option_map found_seen found.entry)) }
{
    match found {
        Some(found) => code.push(Instruction::PutElement(line, spot_of(found))),
        None => code.push(Instruction::Wait),
    }
}

pub fn create<'o, 'a>(
    scope: &Scope<'o, 'a>,
    code: &mut Code,
    target: &'a Target,
) -> Result<(), NoMemory>
    ensures { OnOk result (code.new ≡ code.old ++ create_code (env_seen scope.now) (found_at (env_seen scope.now) target.now)) }
{
    match found_at(scope, target)? {
        Some(found) => create_found(code, found, class_found(scope, found)),
        None => code.push(Instruction::Wait),
    }
}

fn create_found(code: &mut Code, found: Found, class: Option<Class>) -> Result<(), NoMemory>
    ensures { OnOk result (code.new ≡ code.old ++ create_in (found_seen found.entry) (found_seen found.entry).slot found.entry.is_whole (new_code (option_map class_seen class.entry))) }
{
    match found.slot {
        Some(slot) => {
            if found.is_whole {
                new(code, class)?;
                code.push(Instruction::Hold(slot.number))
            } else {
                code.push(Instruction::ForceSpot(spot_of(found)))?;
                new(code, class)?;
                code.push(Instruction::Put(spot_of(found)))
            }
        }
        None => {
            new(code, class)?;
            code.push(Instruction::Put(spot_of(found)))
        }
    }
}

fn new(code: &mut Code, class: Option<Class>) -> Result<(), NoMemory>
    ensures { OnOk result (code.new ≡ code.old ++ new_code (option_map class_seen class.entry)) }
{
    match class {
        Some(class) => code.push(Instruction::New(class.number as i64)),
        None => code.push(Instruction::Wait),
    }
}

pub fn print<'o, 'a>(
    scope: &Scope<'o, 'a>,
    code: &mut Code,
    list: &'a [Expression],
) -> Result<(), NoMemory>
    ensures { OnOk result (code.new ≡ code.old ++ (expression_codes (env_seen scope.now) (map expr_of list.now) ++ instruction.Print (length (map expr_of list.now)) ∷ [])) }
{
    for argument in list {
        expression(scope, code, argument)?;
    }
    code.push(Instruction::Print(list.len()))
}

pub fn give_back<'o, 'a>(
    scope: &Scope<'o, 'a>,
    code: &mut Code,
    value: Option<&'a Expression>,
) -> Result<(), NoMemory>
    ensures { OnOk result (code.new ≡ code.old ++ return_code (env_seen scope.now) (option_map (λ e. expr_of e.now) value.entry)) }
{
    match value {
        Some(value) => {
            expression(scope, code, value)?;
            code.push(Instruction::Return)
        }
        None => code.push(Instruction::ReturnNothing),
    }
}
