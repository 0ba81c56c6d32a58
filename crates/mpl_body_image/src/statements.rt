ghost use Rattle.std.specs.Prelude.{◌≡◌, suc, [], ◌∷◌, ◌++◌, length, option_map, OnOk};
ghost use Rattle.mpl_mean.specs.Plain.Scopes.{declares};
ghost use Rattle.mpl_body_code.specs.Codes.{body_code, expression_code, flow_code, local_code, loop_code, statement_code};
ghost use Rattle.mpl_body_code.specs.declared.instruction.Instruction.TheVariants as instruction;
ghost use Rattle.mpl_mean.specs.Plain.Expr.{expr_of, expr_of_call, expr_of_flow};
ghost use Rattle.mpl_mean.specs.Plain.Stmt.{Calls, Within, assigns, if_any, locals, new_local, starts, stmt_of, stmts_from};
ghost use Rattle.mpl_body_image.specs.Internal.SeenScope.{env_seen};
ghost use Rattle.mpl_locals.specs.Behind.{left};
ghost use Rattle.mpl_body_image.specs.Internal.Writing.{Wrote, WroteAll, WroteCode};

use crate::assignments::{assign, create, give_back, print};
use crate::expressions::expression;
use crate::flows::{call, flow};
use crate::scope::Scope;
use mpl_ast::expression::Expression;
use mpl_ast::flow::{Call, Flow};
use mpl_ast::statement::{Block, Declarator, ForHead, ForStart, Local, Statement, TypeName};
use mpl_body_code::{Code, Instruction};
use mpl_layout::words::words_of;
use mpl_locals::locals::Shape;
use mpl_value::NoMemory;

/// The statements of a body, and its end.
pub fn body<'o, 'a>(
    scope: &mut Scope<'o, 'a>,
    code: &mut Code,
    list: &'a [Statement],
) -> Result<(), NoMemory>
    ensures { OnOk result (code.new ≡ code.old ++ body_code (env_seen scope.old) (stmts_from list.now)) }
{
    statements(scope, code, list)?;
    code.push(Instruction::End)
}

#[cycle(statement)]
fn statements<'o, 'a>(
    scope: &mut Scope<'o, 'a>,
    code: &mut Code,
    list: &'a [Statement],
) -> Result<(), NoMemory>
    ensures { OnOk result (WroteAll (env_seen scope.old) (stmts_from list.now) code.old code.new (env_seen scope.new)) }
{
    for node in list {
        statement(scope, code, node)?;
    }
    Ok(())
}

#[cycle(statement)]
fn statement<'o, 'a>(
    scope: &mut Scope<'o, 'a>,
    code: &mut Code,
    node: &'a Statement,
) -> Result<(), NoMemory>
    ensures { OnOk result (Wrote (env_seen scope.old) (stmt_of node.now) code.old code.new (env_seen scope.new)) }
{
    let count = scope.locals.len();
    match node {
        Statement::OfBlock(_, block) => within(scope, code, block),
        Statement::Declare(_, local) => declare(scope, code, local),
        Statement::Assign(_, assignment) => assign(&*scope, code, assignment),
        Statement::CallAlone(_, alone) => call_alone(&*scope, code, alone),
        Statement::Create(_, target) => create(&*scope, code, target),
        Statement::If(_, test, then_part, else_part) => {
            let mut inner = Code::new(scope.alloc);
            statement(scope, &mut inner, then_part.get())?;
            leave(scope, &mut inner, count)?;
            match else_part {
                Some(else_part) => {
                    let mut other = Code::new(scope.alloc);
                    statement(scope, &mut other, else_part.get())?;
                    leave(scope, &mut other, count)?;
                    either(&*scope, code, test, &mut inner, &other)
                }
                None => when(&*scope, code, test, &inner),
            }
        }
        Statement::While(_, test, body) => {
            let mut inner = Code::new(scope.alloc);
            statement(scope, &mut inner, body.get())?;
            leave(scope, &mut inner, count)?;
            loop_with(&*scope, code, test, &mut inner)
        }
        Statement::For(_, head, body) => {
            let head = head.get();
            start(scope, code, head)?;
            let within = scope.locals.len();
            let mut inner = Code::new(scope.alloc);
            statement(scope, &mut inner, body.get())?;
            leave(scope, &mut inner, within)?;
            step(&*scope, &mut inner, head)?;
            loop_with(&*scope, code, &head.test, &mut inner)?;
            leave(scope, code, count)
        }
        Statement::Print(_, list) => print(&*scope, code, list.as_slice()),
        Statement::Rtf(at, value) => give(&*scope, code, at.line, value),
        Statement::Return(_, value) => give_back(&*scope, code, value.as_ref()),
        Statement::Empty(_) => Ok(()),
    }
}

/// A block, whose variables go out of scope with it.
#[cycle(statement)]
fn within<'o, 'a>(
    scope: &mut Scope<'o, 'a>,
    code: &mut Code,
    block: &'a Block,
) -> Result<(), NoMemory>
    ensures { OnOk result (WroteCode (env_seen scope.old) (statement_code (env_seen scope.old) (Within (stmts_from block.now.statements))) code.old code.new (env_seen scope.new)) }
{
    let count = scope.locals.len();
    statements(scope, code, block.statements.as_slice())?;
    leave(scope, code, count)
}

/// Only so many of the oldest variables stay.
fn leave(scope: &mut Scope, code: &mut Code, count: usize) -> Result<(), NoMemory>
    ensures { OnOk result (WroteCode (left count (env_seen scope.old)) (instruction.Leave count ∷ []) code.old code.new (env_seen scope.new)) }
{
    scope.locals.leave(count)?;
    code.push(Instruction::Leave(count))
}

fn call_alone<'o, 'a>(
    scope: &Scope<'o, 'a>,
    code: &mut Code,
    node: &'a Call,
) -> Result<(), NoMemory>
    ensures { OnOk result (code.new ≡ code.old ++ statement_code (env_seen scope.now) (Calls (expr_of_call node.now))) }
{
    call(scope, code, node)?;
    code.push(Instruction::Drop)
}

fn give<'o, 'a>(
    scope: &Scope<'o, 'a>,
    code: &mut Code,
    line: u32,
    value: &'a Flow,
) -> Result<(), NoMemory>
    ensures { OnOk result (code.new ≡ code.old ++ (flow_code (env_seen scope.now) (expr_of_flow value.now) ++ instruction.Give line ∷ [])) }
{
    flow(scope, code, value)?;
    code.push(Instruction::Give(line))
}

fn when<'o, 'a>(
    scope: &Scope<'o, 'a>,
    code: &mut Code,
    test: &'a Expression,
    inner: &Code,
) -> Result<(), NoMemory>
    ensures { OnOk result (code.new ≡ code.old ++ (expression_code (env_seen scope.now) (expr_of test.now) ++ instruction.Unless (length inner.now) ∷ inner.now)) }
{
    expression(scope, code, test)?;
    code.push(Instruction::Unless(inner.len()))?;
    code.append(inner)
}

fn either<'o, 'a>(
    scope: &Scope<'o, 'a>,
    code: &mut Code,
    test: &'a Expression,
    inner: &mut Code,
    other: &Code,
) -> Result<(), NoMemory>
    ensures { OnOk result (code.new ≡ code.old ++ (expression_code (env_seen scope.now) (expr_of test.now) ++ instruction.Unless (suc (length inner.old)) ∷ (inner.old ++ instruction.Skip (length other.now) ∷ other.now))) }
{
    inner.push(Instruction::Skip(other.len()))?;
    expression(scope, code, test)?;
    code.push(Instruction::Unless(inner.len()))?;
    code.append(inner)?;
    code.append(other)
}

fn loop_with<'o, 'a>(
    scope: &Scope<'o, 'a>,
    code: &mut Code,
    test: &'a Expression,
    inner: &mut Code,
) -> Result<(), NoMemory>
    ensures { OnOk result (code.new ≡ code.old ++ loop_code (expression_code (env_seen scope.now) (expr_of test.now)) inner.old) }
{
    let mut first = Code::new(scope.alloc);
    expression(scope, &mut first, test)?;
    write_loop(code, &first, inner)
}

/// What a `for` does first.
fn start<'o, 'a>(
    scope: &mut Scope<'o, 'a>,
    code: &mut Code,
    head: &'a ForHead,
) -> Result<(), NoMemory>
    ensures { OnOk result (Wrote (env_seen scope.old) (if_any (option_map starts head.now.start)) code.old code.new (env_seen scope.new)) }
{
    match &head.start {
        Some(ForStart::Declare(local)) => declare(scope, code, local),
        Some(ForStart::Assign(assignment)) => assign(&*scope, code, assignment),
        None => Ok(()),
    }
}

/// What a `for` does after each turn.
fn step<'o, 'a>(scope: &Scope<'o, 'a>, code: &mut Code, head: &'a ForHead) -> Result<(), NoMemory>
    ensures { OnOk result (code.new ≡ code.old ++ statement_code (env_seen scope.now) (if_any (option_map assigns head.now.step))) }
{
    match &head.step {
        Some(assignment) => assign(scope, code, assignment),
        None => Ok(()),
    }
}

fn write_loop(code: &mut Code, test: &Code, inner: &mut Code) -> Result<(), NoMemory>
    ensures { OnOk result (code.new ≡ code.old ++ loop_code test.now inner.old) }
{
    inner.push(Instruction::Again(test.len() + (inner.len() + 1)))?;
    code.push(Instruction::Turn)?;
    code.append(test)?;
    code.push(Instruction::Unless(inner.len()))?;
    code.append(inner)
}

fn declare<'o, 'a>(
    scope: &mut Scope<'o, 'a>,
    code: &mut Code,
    local: &'a Local,
) -> Result<(), NoMemory>
    ensures { OnOk result (Wrote (env_seen scope.old) (locals local.now) code.old code.new (env_seen scope.new)) }
{
    for declarator in local.declarators.as_slice() {
        declare_one(scope, code, &local.type_name, declarator)?;
    }
    Ok(())
}

fn declare_one<'o, 'a>(
    scope: &mut Scope<'o, 'a>,
    code: &mut Code,
    type_name: &'a TypeName,
    declarator: &'a Declarator,
) -> Result<(), NoMemory>
    ensures { OnOk result (WroteCode (declares type_name.now (new_local declarator.now) (env_seen scope.old)) (local_code (env_seen scope.old) type_name.now (new_local declarator.now)) code.old code.new (env_seen scope.new)) }
{
    match declarator {
        Declarator::Plain(_, name, dimension) => {
            let words = words_of(scope.outline.layout(), type_name, *dimension);
            code.push(Instruction::Declare(words))?;
            let name = name.text.as_slice();
            scope.locals.declare(Shape {
                name,
                type_name,
                dimension: *dimension,
            })
        }
        Declarator::Initialized(_, name, value) => {
            flow(&*scope, code, value)?;
            code.push(Instruction::Bind)?;
            let name = name.text.as_slice();
            scope.locals.declare(Shape {
                name,
                type_name,
                dimension: None,
            })
        }
    }
}
