//! The code of statements.

ghost use Rattle.std.specs.Prelude.{◌≡◌, ◌∷◌, map, option_map, Some, IfOk, OnOk};
ghost use Rattle.mdf_code.specs.declared.instr.Instr.TheVariants as instr;
ghost use Rattle.mpl_mean.specs.Plain.Expr.{expr_of, expr_of_call, expr_of_flow};
ghost use Rattle.mpl_mean.specs.Plain.Stmt.{Loops, Repeats, Within, assigns, if_any, locals, new_local, starts, stmt_of, stmts_from};
ghost use Rattle.mpl_gen_code.specs.ExpressionCode.{flow_code, value_code};
ghost use Rattle.mpl_gen_code.specs.Pieces.{all_joined, followed_by, joined, loop, one};
ghost use Rattle.mpl_gen_code.specs.StatementCode.{behind, behind_all, behind_block, body_code, declares, end_instr, initial_code, letter, letters_of, return_code, return_instr, stmt_code, stmts_code};
ghost use Rattle.mpl_gen_body.specs.Internal.Writing.{Wrote};
ghost use Rattle.mpl_gen_expr.specs.Drafts.{drafted};
ghost use Rattle.mpl_gen_expr.specs.Texts.{place, written};
ghost use Rattle.mpl_gen_scope.specs.SeenScope.{env_seen, finish_seen};

use crate::assignments::{assign, create};
use crate::variables::{declare, leave};
use mdf_code::Instr;
use mpl_ast::expression::Expression;
use mpl_ast::flow::{Call, Flow};
use mpl_ast::statement::{Block, Declarator, ForHead, ForStart, Local, Statement, TypeName};
use mpl_gen_expr::codes::Codes;
use mpl_gen_expr::draft::Draft;
use mpl_gen_expr::expressions::expression;
use mpl_gen_expr::flows::{call, flow};
use mpl_gen_expr::kinds::kind_of_expression;
use mpl_gen_scope::locals::Shape;
use mpl_gen_scope::scope::{Finish, Scope};
use mpl_value::{Bytes, NoMemory};

/// The statements of a body, and its end.
#[tactic(auto, using(mpl_gen_expr::proofs::Texts::followed_written))]
pub fn body<'o, 'a>(
    scope: &mut Scope<'o, 'a>,
    codes: &mut Codes,
    list: &'a [Statement],
) -> Result<(), NoMemory>
    ensures { OnOk result (Wrote (body_code (env_seen scope.old) (stmts_from list.now)) (behind_all (stmts_from list.now) (env_seen scope.old)) codes.old codes.new (env_seen scope.new)) }
{
    let end = end_instr(scope.finish);
    statements(scope, codes, list)?;
    codes.push(end)
}

#[cycle(statement)]
fn statements<'o, 'a>(
    scope: &mut Scope<'o, 'a>,
    codes: &mut Codes,
    list: &'a [Statement],
) -> Result<(), NoMemory>
    ensures { OnOk result (Wrote (stmts_code (env_seen scope.old) (stmts_from list.now)) (behind_all (stmts_from list.now) (env_seen scope.old)) codes.old codes.new (env_seen scope.new)) }
{
    for node in list {
        statement(scope, codes, node)?;
    }
    Ok(())
}

#[cycle(statement)]
#[tactic(auto, using(mpl_gen_expr::proofs::Texts::none_written))]
fn statement<'o, 'a>(
    scope: &mut Scope<'o, 'a>,
    codes: &mut Codes,
    node: &'a Statement,
) -> Result<(), NoMemory>
    ensures { OnOk result (Wrote (stmt_code (env_seen scope.old) (stmt_of node.now)) (behind (stmt_of node.now) (env_seen scope.old)) codes.old codes.new (env_seen scope.new)) }
{
    match node {
        Statement::OfBlock(_, block) => within(scope, codes, block),
        Statement::Declare(_, local) => declare_all(scope, codes, local),
        Statement::Assign(_, assignment) => assign(scope, codes, assignment),
        Statement::CallAlone(_, alone) => call_alone(&*scope, codes, alone),
        Statement::Create(at, target) => {
            let marked = scope.marks.has(at.id);
            create(&*scope, codes, marked, target)
        }
        Statement::If(_, test, then_part, else_part) => {
            let at = branch_on(&*scope, codes, test)?;
            part(scope, codes, then_part.get())?;
            match else_part {
                Some(else_part) => {
                    let end = codes.otherwise(at)?;
                    part(scope, codes, else_part.get())?;
                    codes.land(end);
                    Ok(())
                }
                None => {
                    codes.land_zero(at);
                    Ok(())
                }
            }
        }
        Statement::While(_, test, body) => repeat(scope, codes, body.get(), test),
        Statement::For(_, head, body) => go_through(scope, codes, body.get(), head.get()),
        Statement::Print(_, list) => print(&*scope, codes, list.as_slice()),
        Statement::Rtf(at, value) => give(&*scope, codes, at.line, value),
        Statement::Return(_, value) => give_back(&*scope, codes, value.as_ref()),
        Statement::Empty(_) => Ok(()),
    }
}

/// A block, whose variables go out of scope with it.
#[cycle(statement)]
#[tactic(auto, using(crate::proofs::Blocks::left_all))]
fn within<'o, 'a>(
    scope: &mut Scope<'o, 'a>,
    codes: &mut Codes,
    block: &'a Block,
) -> Result<(), NoMemory>
    ensures { OnOk result (Wrote (stmts_code (env_seen scope.old) (stmts_from block.now.statements)) (behind (Within (stmts_from block.now.statements)) (env_seen scope.old)) codes.old codes.new (env_seen scope.new)) }
{
    let count = scope.locals.len();
    statements(scope, codes, block.statements.as_slice())?;
    leave(scope, count)
}

/// A branch or the body of a loop, whose variables go out of scope with it.
#[cycle(statement)]
#[tactic(auto, using(crate::proofs::Blocks::left_behind))]
fn part<'o, 'a>(
    scope: &mut Scope<'o, 'a>,
    codes: &mut Codes,
    node: &'a Statement,
) -> Result<(), NoMemory>
    ensures { OnOk result (Wrote (stmt_code (env_seen scope.old) (stmt_of node.now)) (behind_block (stmt_of node.now) (env_seen scope.old)) codes.old codes.new (env_seen scope.new)) }
{
    let count = scope.locals.len();
    statement(scope, codes, node)?;
    leave(scope, count)
}

// ---- loops

#[cycle(statement)]
fn repeat<'o, 'a>(
    scope: &mut Scope<'o, 'a>,
    codes: &mut Codes,
    body: &'a Statement,
    test: &'a Expression,
) -> Result<(), NoMemory>
    ensures { OnOk result (Wrote (stmt_code (env_seen scope.old) (Repeats (expr_of test.now) (stmt_of body.now))) (behind (Repeats (expr_of test.now) (stmt_of body.now)) (env_seen scope.old)) codes.old codes.new (env_seen scope.new)) }
{
    let start = codes.place();
    let at = begin_loop(&*scope, codes, test)?;
    part(scope, codes, body)?;
    codes.push(Draft::Jump(start))?;
    codes.land_zero(at);
    Ok(())
}

#[cycle(statement)]
fn go_through<'o, 'a>(
    scope: &mut Scope<'o, 'a>,
    codes: &mut Codes,
    body: &'a Statement,
    head: &'a ForHead,
) -> Result<(), NoMemory>
    ensures { OnOk result (Wrote (stmt_code (env_seen scope.old) (Loops (if_any (option_map starts head.now.start)) (expr_of head.now.test) (if_any (option_map assigns head.now.step)) (stmt_of body.now))) (behind (Loops (if_any (option_map starts head.now.start)) (expr_of head.now.test) (if_any (option_map assigns head.now.step)) (stmt_of body.now)) (env_seen scope.old)) codes.old codes.new (env_seen scope.new)) }
{
    let count = scope.locals.len();
    begin(scope, codes, head)?;
    turns(scope, codes, body, head)?;
    leave(scope, count)
}

/// The loop of a `for`, without what it does first.
#[cycle(statement)]
fn turns<'o, 'a>(
    scope: &mut Scope<'o, 'a>,
    codes: &mut Codes,
    body: &'a Statement,
    head: &'a ForHead,
) -> Result<(), NoMemory>
    ensures { OnOk result (Wrote (loop (value_code (env_seen scope.old) (expr_of head.now.test)) (joined (stmt_code (env_seen scope.old) (stmt_of body.now)) (stmt_code (behind_block (stmt_of body.now) (env_seen scope.old)) (if_any (option_map assigns head.now.step)))))
        (behind (if_any (option_map assigns head.now.step)) (behind_block (stmt_of body.now) (env_seen scope.old))) codes.old codes.new (env_seen scope.new)) }
{
    let start = codes.place();
    let at = begin_loop(&*scope, codes, &head.test)?;
    part(scope, codes, body)?;
    step(scope, codes, head)?;
    codes.push(Draft::Jump(start))?;
    codes.land_zero(at);
    Ok(())
}

/// A test, and a jump past what comes behind it, which is still to be led there. Answers the place of that.
fn branch_on<'o, 'a>(
    scope: &Scope<'o, 'a>,
    codes: &mut Codes,
    test: &'a Expression,
) -> Result<usize, NoMemory>
    ensures place { IfOk result (λ at. at ≡ place (written (value_code (env_seen scope.now) (expr_of test.now)) codes.old)) }
    ensures code { OnOk result (codes.new ≡ written (one (instr.JumpZero 0)) (written (value_code (env_seen scope.now) (expr_of test.now)) codes.old)) }
{
    expression(scope, codes, test)?;
    codes.branch()
}

/// The turn and the test of a loop, and a jump past it, which is still to be led there. Answers the place of that.
#[tactic(auto, using(mpl_gen_expr::proofs::Texts::joined_written))]
fn begin_loop<'o, 'a>(
    scope: &Scope<'o, 'a>,
    codes: &mut Codes,
    test: &'a Expression,
) -> Result<usize, NoMemory>
    ensures place { IfOk result (λ at. at ≡ place (written (joined (one instr.Test) (value_code (env_seen scope.now) (expr_of test.now))) codes.old)) }
    ensures code { OnOk result (codes.new ≡ written (one (instr.JumpZero 0)) (written (joined (one instr.Test) (value_code (env_seen scope.now) (expr_of test.now))) codes.old)) }
{
    codes.push(Draft::Small(Instr::Test))?;
    expression(scope, codes, test)?;
    codes.branch()
}

#[tactic(auto, using(mpl_gen_expr::proofs::Texts::followed_written))]
fn call_alone<'o, 'a>(
    scope: &Scope<'o, 'a>,
    codes: &mut Codes,
    node: &'a Call,
) -> Result<(), NoMemory>
    ensures { OnOk result (codes.new ≡ written (followed_by (flow_code (env_seen scope.now) (expr_of_call node.now)) instr.DropFlow) codes.old) }
{
    call(scope, codes, node)?;
    codes.push(Draft::Small(Instr::DropFlow))
}

#[tactic(auto, using(mpl_gen_expr::proofs::Texts::followed_written))]
fn give<'o, 'a>(
    scope: &Scope<'o, 'a>,
    codes: &mut Codes,
    line: u32,
    value: &'a Flow,
) -> Result<(), NoMemory>
    ensures { OnOk result (codes.new ≡ written (followed_by (flow_code (env_seen scope.now) (expr_of_flow value.now)) (instr.Reply line)) codes.old) }
{
    flow(scope, codes, value)?;
    codes.push(Draft::Small(Instr::Reply(line)))
}

#[tactic(auto, using(mpl_gen_expr::proofs::Texts::followed_written))]
fn give_back<'o, 'a>(
    scope: &Scope<'o, 'a>,
    codes: &mut Codes,
    value: Option<&'a Expression>,
) -> Result<(), NoMemory>
    ensures { OnOk result (codes.new ≡ written (return_code (env_seen scope.now) (env_seen scope.now).finish (option_map (λ e. expr_of e.now) value.entry)) codes.old) }
{
    match value {
        Some(value) => {
            expression(scope, codes, value)?;
            codes.push(return_instr(scope.finish))
        }
        None => codes.push(return_instr(scope.finish)),
    }
}

fn return_instr(finish: Finish) -> Draft
    ensures { drafted result ≡ return_instr (finish_seen finish) }
{
    match finish {
        Finish::OfBody(line) => Draft::Small(Instr::End(line)),
        Finish::OfFunction(words, _) => Draft::Return(words),
    }
}

fn end_instr(finish: Finish) -> Draft
    ensures { drafted result ≡ end_instr (finish_seen finish) }
{
    match finish {
        Finish::OfBody(line) => Draft::Small(Instr::End(line)),
        Finish::OfFunction(_, line) => Draft::Small(Instr::Fail(line)),
    }
}

// ---- printing

#[tactic(auto, using(mpl_gen_expr::proofs::Texts::followed_written))]
fn print<'o, 'a>(
    scope: &Scope<'o, 'a>,
    codes: &mut Codes,
    list: &'a [Expression],
) -> Result<(), NoMemory>
    ensures { OnOk result (codes.new ≡ written (followed_by (all_joined (map (value_code (env_seen scope.now)) (map expr_of list.now))) (instr.Print (letters_of (env_seen scope.now) (map expr_of list.now)))) codes.old) }
{
    let letters = letters_of(scope, list)?;
    values(scope, codes, list)?;
    codes.push(Draft::Small(Instr::Print(letters)))
}

#[tactic(auto, using(mpl_gen_expr::proofs::Texts::joined_written, mpl_gen_expr::proofs::Texts::none_written))]
fn values<'o, 'a>(
    scope: &Scope<'o, 'a>,
    codes: &mut Codes,
    list: &'a [Expression],
) -> Result<(), NoMemory>
    ensures { OnOk result (codes.new ≡ written (all_joined (map (value_code (env_seen scope.now)) (map expr_of list.now))) codes.old) }
{
    for argument in list {
        expression(scope, codes, argument)?;
    }
    Ok(())
}

/// How each value is printed.
fn letters_of<'o, 'a>(scope: &Scope<'o, 'a>, list: &'a [Expression]) -> Result<Bytes, NoMemory>
    ensures { IfOk result (λ letters. letters ≡ letters_of (env_seen scope.now) (map expr_of list.now)) }
{
    let mut letters = Bytes::new(scope.alloc);
    for argument in list {
        let kind = kind_of_expression(scope, argument)?;
        letters.push(letter(kind.is_bool))?;
    }
    Ok(letters)
}

fn letter(is_bool: bool) -> u8
    ensures { result ≡ letter is_bool }
{
    if is_bool { 98 } else { 105 }
}

// ---- declarations

fn declare_all<'o, 'a>(
    scope: &mut Scope<'o, 'a>,
    codes: &mut Codes,
    local: &'a Local,
) -> Result<(), NoMemory>
    ensures { OnOk result (Wrote (stmt_code (env_seen scope.old) (locals local.now)) (behind (locals local.now) (env_seen scope.old)) codes.old codes.new (env_seen scope.new)) }
{
    for declarator in local.declarators.as_slice() {
        declare_one(scope, codes, &local.type_name, declarator)?;
    }
    Ok(())
}

fn declare_one<'o, 'a>(
    scope: &mut Scope<'o, 'a>,
    codes: &mut Codes,
    type_name: &'a TypeName,
    declarator: &'a Declarator,
) -> Result<(), NoMemory>
    ensures { OnOk result (Wrote (initial_code (env_seen scope.old) (new_local declarator.now).initialiser) (declares type_name.now (new_local declarator.now) (env_seen scope.old)) codes.old codes.new (env_seen scope.new)) }
{
    match declarator {
        Declarator::Plain(_, name, dimension) => {
            codes.push(Draft::Zero(scope.sizes.len()))?;
            let name = name.text.as_slice();
            declare(
                scope,
                Shape {
                    name,
                    type_name,
                    dimension: *dimension,
                },
            )
        }
        Declarator::Initialized(_, name, value) => {
            initialise(&*scope, codes, value)?;
            let name = name.text.as_slice();
            declare(
                scope,
                Shape {
                    name,
                    type_name,
                    dimension: None,
                },
            )
        }
    }
}

/// The next variable holds what the flow gives.
#[tactic(auto, using(mpl_gen_expr::proofs::Texts::followed_written))]
fn initialise<'o, 'a>(
    scope: &Scope<'o, 'a>,
    codes: &mut Codes,
    value: &'a Flow,
) -> Result<(), NoMemory>
    ensures { OnOk result (codes.new ≡ written (initial_code (env_seen scope.now) (Some (expr_of_flow value.now))) codes.old) }
{
    flow(scope, codes, value)?;
    codes.push(Draft::SetVariable(scope.sizes.len()))
}

/// What a `for` does first.
#[tactic(auto, using(mpl_gen_expr::proofs::Texts::none_written))]
fn begin<'o, 'a>(
    scope: &mut Scope<'o, 'a>,
    codes: &mut Codes,
    head: &'a ForHead,
) -> Result<(), NoMemory>
    ensures { OnOk result (Wrote (stmt_code (env_seen scope.old) (if_any (option_map starts head.now.start))) (behind (if_any (option_map starts head.now.start)) (env_seen scope.old)) codes.old codes.new (env_seen scope.new)) }
{
    match &head.start {
        Some(ForStart::Declare(local)) => declare_all(scope, codes, local),
        Some(ForStart::Assign(assignment)) => assign(scope, codes, assignment),
        None => Ok(()),
    }
}

/// What a `for` does after each turn.
#[tactic(auto, using(mpl_gen_expr::proofs::Texts::none_written))]
fn step<'o, 'a>(
    scope: &mut Scope<'o, 'a>,
    codes: &mut Codes,
    head: &'a ForHead,
) -> Result<(), NoMemory>
    ensures { OnOk result (Wrote (stmt_code (env_seen scope.old) (if_any (option_map assigns head.now.step))) (behind (if_any (option_map assigns head.now.step)) (env_seen scope.old)) codes.old codes.new (env_seen scope.new)) }
{
    match &head.step {
        Some(assignment) => assign(scope, codes, assignment),
        None => Ok(()),
    }
}
