ghost use Rattle.std.specs.Prelude.{◌≡◌, ◌++◌, map, option_map, OnOk};
ghost use Rattle.mpl_plain.specs.Arity.{count_of};
ghost use Rattle.mpl_body_code.specs.Codes.{expression_code, plain_code, read_code};
ghost use Rattle.mpl_mean.specs.Plain.Scopes.{found_at};
ghost use Rattle.mpl_mean.specs.FirstForms.ExpressionLevels.{expr_of_conjunction, expr_of_equality, expr_of_primary, expr_of_relation, expr_of_sum, expr_of_term, expr_of_unary};
ghost use Rattle.mpl_mean.specs.Plain.Expr.{expr_of, expr_of_place, listed};
ghost use Rattle.mpl_body_image.specs.Internal.RowCodes.{all_code};
ghost use Rattle.mpl_body_image.specs.Internal.SeenScope.{env_seen, found_seen};

use crate::found::Found;
use crate::scope::{Scope, found_at, spot_of};
use mpl_ast::expression::{
    Conjunction, Equality, Expression, Place, Primary, Relation, Sum, Target, Term, Unary,
};
use mpl_body_code::{Code, Instruction, Operator};
use mpl_value::NoMemory;

#[cycle(expression)]
pub fn expression<'o, 'a>(
    scope: &Scope<'o, 'a>,
    code: &mut Code,
    node: &'a Expression,
) -> Result<(), NoMemory>
    ensures { OnOk result (code.new ≡ code.old ++ expression_code (env_seen scope.now) (expr_of node.now)) }
{
    match node {
        Expression::OneConjunction(_, inner) => conjunction(scope, code, inner),
        Expression::Or(_, _, left, right) => {
            expression(scope, code, left.get())?;
            let mut other = Code::new(scope.alloc);
            conjunction(scope, &mut other, right.get())?;
            code.push(Instruction::Or(other.len()))?;
            code.append(&other)
        }
    }
}

#[cycle(expression)]
fn conjunction<'o, 'a>(
    scope: &Scope<'o, 'a>,
    code: &mut Code,
    node: &'a Conjunction,
) -> Result<(), NoMemory>
    ensures { OnOk result (code.new ≡ code.old ++ expression_code (env_seen scope.now) (expr_of_conjunction node.now)) }
{
    match node {
        Conjunction::OneEquality(_, inner) => equality(scope, code, inner),
        Conjunction::And(_, _, left, right) => {
            conjunction(scope, code, left.get())?;
            let mut other = Code::new(scope.alloc);
            equality(scope, &mut other, right.get())?;
            code.push(Instruction::And(other.len()))?;
            code.append(&other)
        }
    }
}

#[cycle(expression)]
fn equality<'o, 'a>(
    scope: &Scope<'o, 'a>,
    code: &mut Code,
    node: &'a Equality,
) -> Result<(), NoMemory>
    ensures { OnOk result (code.new ≡ code.old ++ expression_code (env_seen scope.now) (expr_of_equality node.now)) }
{
    match node {
        Equality::OneRelation(_, inner) => relation(scope, code, inner),
        Equality::Equate(_, line, left, operator, right) => {
            equality(scope, code, left.get())?;
            relation(scope, code, right.get())?;
            code.push(Instruction::Binary(*line, Operator::Equate(*operator)))
        }
    }
}

#[cycle(expression)]
fn relation<'o, 'a>(
    scope: &Scope<'o, 'a>,
    code: &mut Code,
    node: &'a Relation,
) -> Result<(), NoMemory>
    ensures { OnOk result (code.new ≡ code.old ++ expression_code (env_seen scope.now) (expr_of_relation node.now)) }
{
    match node {
        Relation::OneSum(_, inner) => sum(scope, code, inner),
        Relation::Compare(_, line, left, operator, right) => {
            relation(scope, code, left.get())?;
            sum(scope, code, right.get())?;
            code.push(Instruction::Binary(*line, Operator::Compare(*operator)))
        }
    }
}

#[cycle(expression)]
fn sum<'o, 'a>(scope: &Scope<'o, 'a>, code: &mut Code, node: &'a Sum) -> Result<(), NoMemory>
    ensures { OnOk result (code.new ≡ code.old ++ expression_code (env_seen scope.now) (expr_of_sum node.now)) }
{
    match node {
        Sum::OneTerm(_, inner) => term(scope, code, inner),
        Sum::Add(_, line, left, operator, right) => {
            sum(scope, code, left.get())?;
            term(scope, code, right.get())?;
            code.push(Instruction::Binary(*line, Operator::Add(*operator)))
        }
    }
}

#[cycle(expression)]
fn term<'o, 'a>(scope: &Scope<'o, 'a>, code: &mut Code, node: &'a Term) -> Result<(), NoMemory>
    ensures { OnOk result (code.new ≡ code.old ++ expression_code (env_seen scope.now) (expr_of_term node.now)) }
{
    match node {
        Term::OneUnary(_, inner) => unary(scope, code, inner),
        Term::Multiply(_, line, left, operator, right) => {
            term(scope, code, left.get())?;
            unary(scope, code, right.get())?;
            code.push(Instruction::Binary(*line, Operator::Multiply(*operator)))
        }
    }
}

#[cycle(expression)]
fn unary<'o, 'a>(scope: &Scope<'o, 'a>, code: &mut Code, node: &'a Unary) -> Result<(), NoMemory>
    ensures { OnOk result (code.new ≡ code.old ++ expression_code (env_seen scope.now) (expr_of_unary node.now)) }
{
    match node {
        Unary::OnePrimary(_, inner) => primary(scope, code, inner),
        Unary::Apply(_, line, operator, operand) => {
            unary(scope, code, operand.get())?;
            code.push(Instruction::Unary(*line, *operator))
        }
    }
}

#[cycle(expression)]
fn primary<'o, 'a>(
    scope: &Scope<'o, 'a>,
    code: &mut Code,
    node: &'a Primary,
) -> Result<(), NoMemory>
    ensures { OnOk result (code.new ≡ code.old ++ expression_code (env_seen scope.now) (expr_of_primary node.now)) }
{
    match node {
        Primary::Number(_, number) => code.push(Instruction::Number(*number)),
        Primary::True(_) => code.push(Instruction::Truth(true)),
        Primary::False(_) => code.push(Instruction::Truth(false)),
        Primary::Own(_) => code.push(Instruction::Own),
        Primary::Read(_, inner) => place(scope, code, inner.get()),
        Primary::Input(at) => code.push(Instruction::Input(at.line)),
        Primary::CallPlain(_, function, list) => {
            let number = scope.outline.function_numbered(function.text.as_slice());
            call_with(scope, code, number, list.as_slice())
        }
        Primary::Parenthesized(_, inner) => expression(scope, code, inner.get()),
    }
}

#[cycle(expression)]
fn place<'o, 'a>(scope: &Scope<'o, 'a>, code: &mut Code, node: &'a Place) -> Result<(), NoMemory>
    ensures { OnOk result (code.new ≡ code.old ++ expression_code (env_seen scope.now) (expr_of_place node.now)) }
{
    match node {
        Place::Whole(_, target) => read_target(scope, code, target),
        Place::Element(_, line, target, index) => {
            read_target(scope, code, target)?;
            expression(scope, code, index.get())?;
            code.push(Instruction::Index(*line))
        }
    }
}

#[cycle(expression)]
fn arguments<'o, 'a>(
    scope: &Scope<'o, 'a>,
    code: &mut Code,
    list: &'a [Expression],
) -> Result<(), NoMemory>
    ensures { OnOk result (code.new ≡ code.old ++ all_code (env_seen scope.now) list.now) }
{
    for argument in list {
        expression(scope, code, argument)?;
    }
    Ok(())
}

#[cycle(expression)]
fn call_with<'o, 'a>(
    scope: &Scope<'o, 'a>,
    code: &mut Code,
    number: Option<usize>,
    list: &'a [Expression],
) -> Result<(), NoMemory>
    ensures { OnOk result (code.new ≡ code.old ++ (all_code (env_seen scope.now) list.now ++ plain_code number (count_of (listed (map expr_of list.now))))) }
{
    arguments(scope, code, list)?;
    call_plain(code, number, count(list))
}

/// How many arguments there are.
#[tactic(auto, using(crate::proofs::ByNumbers::as_many))]
fn count(list: &[Expression]) -> usize
    ensures { result ≡ count_of (listed (map expr_of list.now)) }
{
    list.len()
}

fn call_plain(code: &mut Code, number: Option<usize>, count: usize) -> Result<(), NoMemory>
    ensures { OnOk result (code.new ≡ code.old ++ plain_code number count) }
{
    match number {
        Some(number) => code.push(Instruction::CallPlain(number, count)),
        None => code.push(Instruction::Wait),
    }
}

fn read_target<'o, 'a>(
    scope: &Scope<'o, 'a>,
    code: &mut Code,
    target: &'a Target,
) -> Result<(), NoMemory>
    ensures { OnOk result (code.new ≡ code.old ++ read_code (found_at (env_seen scope.now) target.now)) }
{
    read(code, found_at(scope, target)?)
}

pub fn read(code: &mut Code, found: Option<Found>) -> Result<(), NoMemory>
    ensures { OnOk result (code.new ≡ code.old ++ read_code (option_map found_seen found.entry)) }
{
    match found {
        Some(found) => code.push(Instruction::Read(spot_of(found))),
        None => code.push(Instruction::Nothing),
    }
}
