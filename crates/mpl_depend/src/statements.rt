ghost use Rattle.std.specs.Prelude.{◌≡◌, length, map, option_map, Some, IfOk, OnOk};
ghost use Rattle.mpl_mean.specs.Pending.BodyWays.{assigned_ways, each_value, local_ways, locals_ways, place_ways, return_ways, stmt_ways, stmts_ways};
ghost use Rattle.mpl_mean.specs.Pending.Paths.{Then, Either};
ghost use Rattle.mpl_mean.specs.Plain.Expr.{expr_of, expr_of_flow, expr_of_place};
ghost use Rattle.mpl_mean.specs.Plain.Scopes.{declares, declares_all, found_at, slot_of_target, behind};
ghost use Rattle.mpl_mean.specs.Plain.Stmt.{Loops, assigns, if_any, locals, new_local, starts, stmt_of, stmts_from};
ghost use Rattle.mpl_locals.specs.SeenLocals.{slot_seen};
ghost use Rattle.mpl_depend.specs.Internal.SeenScope.{env_seen};
ghost use Rattle.mpl_depend.specs.Internal.SeenWays.{ways_seen};
ghost use Rattle.mpl_locals.specs.Behind.{behind_all, left};

use crate::expressions::expression;
use crate::flows::{becomes, call, flow, forced};
use crate::making::{all, either, only, repeated, then};
use crate::scope::Scope;
use crate::uses::{creates, uses_target};
use crate::ways::{Event, Ways};
use crate::wholes::whole_target;
use mpl_ast::expression::{Expression, Place, Target};
use mpl_ast::flow::{Assignment, Flow};
use mpl_ast::statement::{Block, Declarator, ForHead, ForStart, Local, Statement, TypeName};
use mpl_locals::locals::Shape;
use mpl_value::NoMemory;
use std::alloc::Global;

/// The statements of a body or a block, whose variables stay in scope behind them.
#[cycle(statement)]
pub fn statements<'a>(scope: &mut Scope<'a>, list: &'a [Statement]) -> Result<Ways, NoMemory>
    ensures ways { IfOk result (λ ways. ways_seen ways ≡ stmts_ways (env_seen scope.old) (stmts_from list.now)) }
    ensures scope { IfOk result (λ ways. env_seen scope.new ≡ behind_all (stmts_from list.now) (env_seen scope.old)) }
{
    let mut ways = Vec::new(scope.alloc);
    for node in list {
        ways.push(statement(scope, node)?)?;
    }
    Ok(all(ways))
}

#[cycle(statement)]
fn statement<'a>(scope: &mut Scope<'a>, node: &'a Statement) -> Result<Ways, NoMemory>
    ensures ways { IfOk result (λ ways. ways_seen ways ≡ stmt_ways (env_seen scope.old) (stmt_of node.now)) }
    ensures scope { IfOk result (λ ways. env_seen scope.new ≡ behind (stmt_of node.now) (env_seen scope.old)) }
{
    match node {
        Statement::OfBlock(_, block) => within(scope, block),
        Statement::Declare(_, local) => declare(scope, local),
        Statement::Assign(_, assignment) => assign(&*scope, assignment),
        Statement::CallAlone(_, alone) => call(&*scope, alone),
        Statement::Create(at, target) => Ok(creates(&*scope, at.id, target)),
        Statement::If(_, test, then_part, else_part) => {
            let first = expression(&*scope, test)?;
            let one = inside(scope, then_part.get())?;
            match else_part {
                Some(else_part) => {
                    let other = inside(scope, else_part.get())?;
                    branch(scope.alloc, first, one, other)
                }
                None => branch(scope.alloc, first, one, Ways::Nothing),
            }
        }
        Statement::While(_, test, body) => {
            let first = expression(&*scope, test)?;
            let second = inside(scope, body.get())?;
            repeated(scope.alloc, first, second)
        }
        Statement::For(_, head, body) => for_loop(scope, head.get(), body.get()),
        Statement::Print(_, list) => each_value(&*scope, list.as_slice()),
        Statement::Rtf(_, value) => flow(&*scope, value),
        Statement::Return(_, value) => give_back(&*scope, value.as_ref()),
        Statement::Empty(_) => Ok(Ways::Nothing),
    }
}

/// A statement whose variables go out of scope with it.
#[cycle(statement)]
fn inside<'a>(scope: &mut Scope<'a>, node: &'a Statement) -> Result<Ways, NoMemory>
    ensures ways { IfOk result (λ ways. ways_seen ways ≡ stmt_ways (env_seen scope.old) (stmt_of node.now)) }
    ensures scope { IfOk result (λ ways. env_seen scope.new ≡ env_seen scope.old) }
{
    let count = scope.locals.len();
    let ways = statement(scope, node)?;
    leave(scope, count)?;
    Ok(ways)
}

#[cycle(statement)]
fn within<'a>(scope: &mut Scope<'a>, block: &'a Block) -> Result<Ways, NoMemory>
    ensures ways { IfOk result (λ ways. ways_seen ways ≡ stmts_ways (env_seen scope.old) (stmts_from block.now.statements)) }
    ensures scope { IfOk result (λ ways. env_seen scope.new ≡ env_seen scope.old) }
{
    let count = scope.locals.len();
    let ways = statements(scope, block.statements.as_slice())?;
    leave(scope, count)?;
    Ok(ways)
}

/// Only so many of the oldest variables stay.
fn leave(scope: &mut Scope, count: usize) -> Result<(), NoMemory>
    ensures { OnOk result (env_seen scope.new ≡ left count (env_seen scope.old)) }
{
    scope.locals.leave(count)
}

fn branch(alloc: Global, first: Ways, one: Ways, other: Ways) -> Result<Ways, NoMemory>
    ensures { IfOk result (λ ways. ways_seen ways ≡ Then (ways_seen first) (Either (ways_seen one) (ways_seen other))) }
{
    let second = either(alloc, one, other)?;
    then(alloc, first, second)
}

/// A `for`: its start, and the loop whose body ends with the step.
#[cycle(statement)]
fn for_loop<'a>(
    scope: &mut Scope<'a>,
    head: &'a ForHead,
    body: &'a Statement,
) -> Result<Ways, NoMemory>
    ensures ways { IfOk result (λ ways. ways_seen ways ≡ stmt_ways (env_seen scope.old) (Loops (if_any (option_map starts head.now.start)) (expr_of head.now.test) (if_any (option_map assigns head.now.step)) (stmt_of body.now))) }
    ensures scope { IfOk result (λ ways. env_seen scope.new ≡ env_seen scope.old) }
{
    let count = scope.locals.len();
    let first = start(scope, head)?;
    let test = expression(&*scope, &head.test)?;
    let inner = inside(scope, body)?;
    let last = step(&*scope, head)?;
    leave(scope, count)?;
    let round = then(scope.alloc, inner, last)?;
    let second = repeated(scope.alloc, test, round)?;
    let ways = then(scope.alloc, first, second)?;
    Ok(ways)
}

fn start<'a>(scope: &mut Scope<'a>, head: &'a ForHead) -> Result<Ways, NoMemory>
    ensures ways { IfOk result (λ ways. ways_seen ways ≡ stmt_ways (env_seen scope.old) (if_any (option_map starts head.now.start))) }
    ensures scope { IfOk result (λ ways. env_seen scope.new ≡ behind (if_any (option_map starts head.now.start)) (env_seen scope.old)) }
{
    match &head.start {
        Some(ForStart::Declare(local)) => declare(scope, local),
        Some(ForStart::Assign(assignment)) => assign(&*scope, assignment),
        None => Ok(Ways::Nothing),
    }
}

fn step<'a>(scope: &Scope<'a>, head: &'a ForHead) -> Result<Ways, NoMemory>
    ensures { IfOk result (λ ways. ways_seen ways ≡ stmt_ways (env_seen scope.now) (if_any (option_map assigns head.now.step))) }
{
    match &head.step {
        Some(assignment) => assign(scope, assignment),
        None => Ok(Ways::Nothing),
    }
}

// ---- locals

fn declare<'a>(scope: &mut Scope<'a>, local: &'a Local) -> Result<Ways, NoMemory>
    ensures ways { IfOk result (λ ways. ways_seen ways ≡ stmt_ways (env_seen scope.old) (locals local.now)) }
    ensures scope { IfOk result (λ ways. env_seen scope.new ≡ behind (locals local.now) (env_seen scope.old)) }
{
    let mut ways = Vec::new(scope.alloc);
    for declarator in local.declarators.as_slice() {
        ways.push(declare_one(scope, &local.type_name, declarator)?)?;
    }
    Ok(all(ways))
}

fn declare_one<'a>(
    scope: &mut Scope<'a>,
    type_name: &'a TypeName,
    declarator: &'a Declarator,
) -> Result<Ways, NoMemory>
    ensures ways { IfOk result (λ ways. ways_seen ways ≡ local_ways (env_seen scope.old) (new_local declarator.now).initialiser) }
    ensures scope { IfOk result (λ ways. env_seen scope.new ≡ declares type_name.now (new_local declarator.now) (env_seen scope.old)) }
{
    let number = scope.locals.len();
    match declarator {
        Declarator::Plain(_, name, dimension) => {
            let name = name.text.as_slice();
            scope.locals.declare(Shape {
                name,
                type_name,
                dimension: *dimension,
            })?;
            Ok(only(Event::Settles(number)))
        }
        Declarator::Initialized(_, name, value) => {
            let ways = becomes(&*scope, number, value)?;
            let name = name.text.as_slice();
            scope.locals.declare(Shape {
                name,
                type_name,
                dimension: None,
            })?;
            Ok(ways)
        }
    }
}

// ---- assignments

fn assign<'a>(scope: &Scope<'a>, node: &'a Assignment) -> Result<Ways, NoMemory>
    ensures { IfOk result (λ ways. ways_seen ways ≡ stmt_ways (env_seen scope.now) (assigns node.now)) }
{
    assign_place(scope, &node.place, &node.value)
}

fn assign_place<'a>(scope: &Scope<'a>, place: &'a Place, value: &'a Flow) -> Result<Ways, NoMemory>
    ensures { IfOk result (λ ways. ways_seen ways ≡ place_ways (env_seen scope.now) (expr_of_place place.now) (expr_of_flow value.now)) }
{
    match place {
        Place::Whole(at, target) => assign_target(scope, at.id, target, value),
        Place::Element(at, _, target, index) => {
            let first = forced(scope, value)?;
            let index = expression(scope, index.get())?;
            let last = uses_target(scope, at.id, target);
            let second = then(scope.alloc, index, last)?;
            then(scope.alloc, first, second)
        }
    }
}

/// A whole variable becomes the value. What goes into a part or into the state is forced.
fn assign_target<'a>(
    scope: &Scope<'a>,
    node: u32,
    target: &'a Target,
    value: &'a Flow,
) -> Result<Ways, NoMemory>
    ensures { IfOk result (λ ways. ways_seen ways ≡ assigned_ways (env_seen scope.now) node (slot_of_target (env_seen scope.now) target.now) (expr_of_flow value.now) (found_at (env_seen scope.now) target.now)) }
{
    match whole_target(scope, target) {
        Some(slot) => becomes(scope, slot.number, value),
        None => {
            let first = forced(scope, value)?;
            let second = uses_target(scope, node, target);
            then(scope.alloc, first, second)
        }
    }
}

// ---- values

fn each_value<'a>(scope: &Scope<'a>, list: &'a [Expression]) -> Result<Ways, NoMemory>
    ensures { IfOk result (λ ways. ways_seen ways ≡ each_value (env_seen scope.now) (map expr_of list.now)) }
{
    let mut ways = Vec::new(scope.alloc);
    for node in list {
        ways.push(expression(scope, node)?)?;
    }
    Ok(all(ways))
}

fn give_back<'a>(scope: &Scope<'a>, value: Option<&'a Expression>) -> Result<Ways, NoMemory>
    ensures { IfOk result (λ ways. ways_seen ways ≡ return_ways (env_seen scope.now) (option_map (λ expression. expr_of expression.now) value.entry)) }
{
    match value {
        Some(node) => {
            let first = expression(scope, node)?;
            then(scope.alloc, first, Ways::Stop)
        }
        None => Ok(Ways::Stop),
    }
}
