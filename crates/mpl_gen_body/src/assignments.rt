//! The code of assignments and of new objects.

ghost use Rattle.std.specs.Prelude.{◌≡◌, ◌+◌, length, option_map, Some, OnOk};
ghost use Rattle.mpl_mean.specs.Plain.Expr.{expr_of, expr_of_flow, expr_of_place};
ghost use Rattle.mpl_mean.specs.Plain.Stmt.{assigns};
ghost use Rattle.mpl_gen_code.specs.ExpressionCode.{codes_of, need_of_slot, value_code};
ghost use Rattle.mpl_gen_code.specs.Pieces.{where_marked};
ghost use Rattle.mpl_gen_code.specs.Scopes.{found_at, with_hidden};
ghost use Rattle.mpl_gen_code.specs.StatementCode.{assign_code, behind, behind_assignment, behind_element, behind_found, create_code, create_in, create_of, element_code, into_code, into_slot, stmt_code, store_element, tested_store, tests_index};
ghost use Rattle.mpl_gen_body.specs.Internal.Writing.{Wrote};
ghost use Rattle.mpl_gen_expr.specs.Texts.{written};
ghost use Rattle.mpl_layout.specs.SeenClasses.{class_seen};
ghost use Rattle.mpl_gen_scope.specs.SeenLocals.{slot_seen};
ghost use Rattle.mpl_gen_scope.specs.SeenScope.{env_seen, found_seen};

use crate::variables::hide;
use mdf_code::Instr;
use mpl_ast::expression::{Expression, Place, Target};
use mpl_ast::flow::{Assignment, Flow};
use mpl_gen_expr::codes::Codes;
use mpl_gen_expr::draft::Draft;
use mpl_gen_expr::expressions::expression;
use mpl_gen_expr::flows::{flow, flow_value};
use mpl_gen_scope::found::Found;
use mpl_gen_scope::locals::Slot;
use mpl_gen_scope::scope::{Scope, class_found, found_at};
use mpl_layout::class::Class;
use mpl_value::NoMemory;

pub fn assign<'o, 'a>(
    scope: &mut Scope<'o, 'a>,
    codes: &mut Codes,
    assignment: &'a Assignment,
) -> Result<(), NoMemory>
    ensures { OnOk result (Wrote (stmt_code (env_seen scope.old) (assigns assignment.now)) (behind (assigns assignment.now) (env_seen scope.old)) codes.old codes.new (env_seen scope.new)) }
{
    assign_to(scope, codes, &assignment.place, &assignment.value)
}

fn assign_to<'o, 'a>(
    scope: &mut Scope<'o, 'a>,
    codes: &mut Codes,
    place: &'a Place,
    value: &'a Flow,
) -> Result<(), NoMemory>
    ensures { OnOk result (Wrote (assign_code (env_seen scope.old) (expr_of_place place.now) (expr_of_flow value.now)) (behind_assignment (expr_of_place place.now) (env_seen scope.old)) codes.old codes.new (env_seen scope.new)) }
{
    match place {
        Place::Whole(at, target) => {
            let found = found_at(&*scope, target)?;
            let marked = scope.marks.has(at.id);
            into(&*scope, codes, marked, found, value)
        }
        Place::Element(at, line, target, index) => {
            let found = found_at(&*scope, target)?;
            let marked = scope.marks.has(at.id);
            into_element(scope, codes, marked, *line, found, index.get(), value)
        }
    }
}

/// The value of a flow goes into an element.
#[tactic(auto, using(mpl_gen_expr::proofs::Texts::none_written))]
fn into_element<'o, 'a>(
    scope: &mut Scope<'o, 'a>,
    codes: &mut Codes,
    marked: bool,
    line: u32,
    found: Option<Found<'a>>,
    index: &'a Expression,
    value: &'a Flow,
) -> Result<(), NoMemory>
    ensures { OnOk result (Wrote (element_code marked line (length (env_seen scope.old).sizes) (value_code (env_seen scope.old) (expr_of_flow value.now)) (value_code (env_seen scope.old) (expr_of index.now)) (option_map found_seen found.entry)) (behind_found (option_map found_seen found.entry) (env_seen scope.old)) codes.old codes.new (env_seen scope.new)) }
{
    match found {
        Some(found) => into_array(scope, codes, marked, line, found, index, value),
        None => Ok(()),
    }
}

#[tactic(auto, using(mpl_gen_expr::proofs::Texts::joined_written))]
fn into_array<'o, 'a>(
    scope: &mut Scope<'o, 'a>,
    codes: &mut Codes,
    marked: bool,
    line: u32,
    found: Found<'a>,
    index: &'a Expression,
    value: &'a Flow,
) -> Result<(), NoMemory>
    ensures { OnOk result (Wrote (element_code marked line (length (env_seen scope.old).sizes) (value_code (env_seen scope.old) (expr_of_flow value.now)) (value_code (env_seen scope.old) (expr_of index.now)) (Some (found_seen found.entry))) (behind_found (Some (found_seen found.entry)) (env_seen scope.old)) codes.old codes.new (env_seen scope.new)) }
{
    flow_value(&*scope, codes, value)?;
    expression(&*scope, codes, index)?;
    store_element(scope, codes, marked, line, found)
}

/// The value of a flow goes into a place.
#[tactic(auto, using(mpl_gen_expr::proofs::Texts::none_written))]
fn into<'o, 'a>(
    scope: &Scope<'o, 'a>,
    codes: &mut Codes,
    marked: bool,
    found: Option<Found<'a>>,
    value: &'a Flow,
) -> Result<(), NoMemory>
    ensures { OnOk result (codes.new ≡ written (into_code marked (codes_of (env_seen scope.now) (expr_of_flow value.now)) (option_map found_seen found.entry)) codes.old) }
{
    match found {
        Some(found) => into_found(scope, codes, marked, found, value),
        None => Ok(()),
    }
}

#[tactic(auto, using(mpl_gen_expr::proofs::Texts::joined_written, mpl_gen_expr::proofs::Texts::followed_written))]
fn into_found<'o, 'a>(
    scope: &Scope<'o, 'a>,
    codes: &mut Codes,
    marked: bool,
    found: Found<'a>,
    value: &'a Flow,
) -> Result<(), NoMemory>
    ensures { OnOk result (codes.new ≡ written (into_slot marked (codes_of (env_seen scope.now) (expr_of_flow value.now)) (found_seen found.entry) (found_seen found.entry).slot found.entry.is_whole) codes.old) }
{
    match found.slot {
        Some(slot) => {
            if found.is_whole {
                flow(scope, codes, value)?;
                codes.push(Draft::SetVariable(slot.number))
            } else {
                flow_value(scope, codes, value)?;
                need_slot(codes, marked, slot)?;
                codes.push(Draft::Store(slot.number, found.offset, found.words))
            }
        }
        None => {
            flow_value(scope, codes, value)?;
            codes.push(Draft::Keep(found.offset, found.words))
        }
    }
}

#[tactic(auto, using(mpl_gen_expr::proofs::Texts::none_written))]
fn need_slot<'a>(codes: &mut Codes, marked: bool, slot: Slot<'a>) -> Result<(), NoMemory>
    ensures { OnOk result (codes.new ≡ written (where_marked marked (need_of_slot (Some (slot_seen slot.entry)))) codes.old) }
{
    if marked {
        codes.push(Draft::Need(slot.number))
    } else {
        Ok(())
    }
}

fn store_element<'o, 'a>(
    scope: &mut Scope<'o, 'a>,
    codes: &mut Codes,
    marked: bool,
    line: u32,
    found: Found<'a>,
) -> Result<(), NoMemory>
    ensures { OnOk result (Wrote (store_element marked line (length (env_seen scope.old).sizes) (found_seen found.entry) (found_seen found.entry).slot) (behind_element (found_seen found.entry) (found_seen found.entry).slot (env_seen scope.old)) codes.old codes.new (env_seen scope.new)) }
{
    match found.slot {
        Some(slot) => {
            let hidden = scope.sizes.len();
            hide(scope, 1)?;
            let zeros = scope.sizes.len();
            hide(scope, found.words)?;
            tested_store(codes, marked, line, hidden, zeros, found, slot)
        }
        None => codes.push(Draft::KeepIndexed(found.offset, found.words, line)),
    }
}

/// The index is tested before the variable is needed.
fn tested_store<'a>(
    codes: &mut Codes,
    marked: bool,
    line: u32,
    hidden: usize,
    zeros: usize,
    found: Found<'a>,
    slot: Slot<'a>,
) -> Result<(), NoMemory>
    requires { zeros ≡ hidden + 1 }
    ensures { OnOk result (codes.new ≡ written (tested_store marked line hidden (found_seen found.entry) (slot_seen slot.entry)) codes.old) }
{
    test_index(codes, line, hidden, zeros, found.words)?;
    need_slot(codes, marked, slot)?;
    codes.push(Draft::Load(hidden, 0, 1))?;
    codes.push(Draft::StoreIndexed(slot.number, found.offset, found.words, line))
}

/// An array of zeros that is as long is read at the index.
fn test_index(
    codes: &mut Codes,
    line: u32,
    hidden: usize,
    zeros: usize,
    words: usize,
) -> Result<(), NoMemory>
    requires { zeros ≡ hidden + 1 }
    ensures { OnOk result (codes.new ≡ written (tests_index line hidden words) codes.old) }
{
    codes.push(Draft::ArgWords(1))?;
    codes.push(Draft::SetVariable(hidden))?;
    codes.push(Draft::Zero(zeros))?;
    codes.push(Draft::Load(hidden, 0, 1))?;
    codes.push(Draft::LoadIndexed(zeros, 0, words, line))?;
    codes.push(Draft::Small(Instr::Drop(1)))
}

// ---- objects

#[tactic(auto, using(mpl_gen_expr::proofs::Texts::none_written))]
pub fn create<'o, 'a>(
    scope: &Scope<'o, 'a>,
    codes: &mut Codes,
    marked: bool,
    target: &'a Target,
) -> Result<(), NoMemory>
    ensures { OnOk result (codes.new ≡ written (create_code (env_seen scope.now) marked (found_at (env_seen scope.now) target.now)) codes.old) }
{
    match found_at(scope, target)? {
        Some(found) => create_of(codes, marked, found, class_found(scope, found)),
        None => Ok(()),
    }
}

#[tactic(auto, using(mpl_gen_expr::proofs::Texts::none_written))]
fn create_of(
    codes: &mut Codes,
    marked: bool,
    found: Found,
    class: Option<Class>,
) -> Result<(), NoMemory>
    ensures { OnOk result (codes.new ≡ written (create_of marked (found_seen found.entry) (option_map class_seen class.entry)) codes.old) }
{
    match class {
        Some(class) => create_in(codes, marked, class.number, found),
        None => Ok(()),
    }
}

fn create_in(codes: &mut Codes, marked: bool, class: u32, found: Found) -> Result<(), NoMemory>
    ensures { OnOk result (codes.new ≡ written (create_in marked class (found_seen found.entry) (found_seen found.entry).slot found.entry.is_whole) codes.old) }
{
    match found.slot {
        Some(slot) => {
            if found.is_whole {
                codes.push(Draft::Small(Instr::Create(class)))?;
                codes.push(Draft::ArgWords(1))?;
                codes.push(Draft::SetVariable(slot.number))
            } else {
                need_slot(codes, marked, slot)?;
                codes.push(Draft::Small(Instr::Create(class)))?;
                codes.push(Draft::Store(slot.number, found.offset, found.words))
            }
        }
        None => {
            codes.push(Draft::Small(Instr::Create(class)))?;
            codes.push(Draft::Keep(found.offset, found.words))
        }
    }
}
