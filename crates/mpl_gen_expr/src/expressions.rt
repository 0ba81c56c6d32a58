//! The code of expressions, which leaves the words of their values.

ghost use Rattle.std.specs.Prelude.{◌≡◌, true, false, OnOk};
ghost use Rattle.mdf_code.specs.declared.instr.Instr.TheVariants as instr;
ghost use Rattle.mpl_value.specs.Words.{bool_word};
ghost use Rattle.mpl_mean.specs.FirstForms.ExpressionLevels.{expr_of_conjunction, expr_of_equality, expr_of_primary, expr_of_relation, expr_of_sum, expr_of_term, expr_of_unary};
ghost use Rattle.mpl_mean.specs.Plain.Expr.{expr_of, expr_of_place};
ghost use Rattle.mpl_gen_code.specs.ExpressionCode.{equality_instr, plain_code, relation_instr, sum_instr, term_instr, unary_instr, value_code};
ghost use Rattle.mpl_gen_code.specs.Pieces.{either, one};
ghost use Rattle.mpl_gen_expr.specs.RowCodes.{all_values};
ghost use Rattle.mpl_gen_expr.specs.Texts.{written};
ghost use Rattle.mpl_gen_scope.specs.SeenScope.{env_seen};

use crate::codes::Codes;
use crate::draft::Draft;
use crate::places::{element, need, read};
use mdf_code::Instr;
use mpl_ast::expression::{
    Conjunction, Equality, EqualityOperator, Expression, Place, Primary, Relation,
    RelationOperator, Sum, SumOperator, Term, TermOperator, Unary, UnaryOperator,
};
use mpl_gen_scope::scope::{Scope, found_at};
use mpl_value::NoMemory;

#[cycle(expression)]
pub fn expression<'o, 'a>(
    scope: &Scope<'o, 'a>,
    codes: &mut Codes,
    node: &'a Expression,
) -> Result<(), NoMemory>
    ensures { OnOk result (codes.new ≡ written (value_code (env_seen scope.now) (expr_of node.now)) codes.old) }
{
    match node {
        Expression::OneConjunction(_, inner) => conjunction(scope, codes, inner),
        Expression::Or(_, _, left, right) => {
            expression(scope, codes, left.get())?;
            or_else(scope, codes, right.get())
        }
    }
}

#[cycle(expression)]
fn conjunction<'o, 'a>(
    scope: &Scope<'o, 'a>,
    codes: &mut Codes,
    node: &'a Conjunction,
) -> Result<(), NoMemory>
    ensures { OnOk result (codes.new ≡ written (value_code (env_seen scope.now) (expr_of_conjunction node.now)) codes.old) }
{
    match node {
        Conjunction::OneEquality(_, inner) => equality(scope, codes, inner),
        Conjunction::And(_, _, left, right) => {
            conjunction(scope, codes, left.get())?;
            and_then(scope, codes, right.get())
        }
    }
}

/// The word is true, or else the right operand decides.
#[cycle(expression)]
fn or_else<'o, 'a>(
    scope: &Scope<'o, 'a>,
    codes: &mut Codes,
    right: &'a Conjunction,
) -> Result<(), NoMemory>
    ensures { OnOk result (codes.new ≡ written (either (one (instr.Push (bool_word true))) (value_code (env_seen scope.now) (expr_of_conjunction right.now))) codes.old) }
{
    let test = codes.branch()?;
    codes.push(Draft::Small(Instr::Push(1)))?;
    let end = codes.otherwise(test)?;
    conjunction(scope, codes, right)?;
    codes.land(end);
    Ok(())
}

/// The right operand decides, or else the word is false.
#[cycle(expression)]
fn and_then<'o, 'a>(
    scope: &Scope<'o, 'a>,
    codes: &mut Codes,
    right: &'a Equality,
) -> Result<(), NoMemory>
    ensures { OnOk result (codes.new ≡ written (either (value_code (env_seen scope.now) (expr_of_equality right.now)) (one (instr.Push (bool_word false)))) codes.old) }
{
    let test = codes.branch()?;
    equality(scope, codes, right)?;
    let end = codes.otherwise(test)?;
    codes.push(Draft::Small(Instr::Push(0)))?;
    codes.land(end);
    Ok(())
}

#[cycle(expression)]
fn equality<'o, 'a>(
    scope: &Scope<'o, 'a>,
    codes: &mut Codes,
    node: &'a Equality,
) -> Result<(), NoMemory>
    ensures { OnOk result (codes.new ≡ written (value_code (env_seen scope.now) (expr_of_equality node.now)) codes.old) }
{
    match node {
        Equality::OneRelation(_, inner) => relation(scope, codes, inner),
        Equality::Equate(_, _, left, operator, right) => {
            equality(scope, codes, left.get())?;
            relation(scope, codes, right.get())?;
            codes.push(Draft::Small(equality_instr(*operator)))
        }
    }
}

#[cycle(expression)]
fn relation<'o, 'a>(
    scope: &Scope<'o, 'a>,
    codes: &mut Codes,
    node: &'a Relation,
) -> Result<(), NoMemory>
    ensures { OnOk result (codes.new ≡ written (value_code (env_seen scope.now) (expr_of_relation node.now)) codes.old) }
{
    match node {
        Relation::OneSum(_, inner) => sum(scope, codes, inner),
        Relation::Compare(_, _, left, operator, right) => {
            relation(scope, codes, left.get())?;
            sum(scope, codes, right.get())?;
            codes.push(Draft::Small(relation_instr(*operator)))
        }
    }
}

#[cycle(expression)]
fn sum<'o, 'a>(scope: &Scope<'o, 'a>, codes: &mut Codes, node: &'a Sum) -> Result<(), NoMemory>
    ensures { OnOk result (codes.new ≡ written (value_code (env_seen scope.now) (expr_of_sum node.now)) codes.old) }
{
    match node {
        Sum::OneTerm(_, inner) => term(scope, codes, inner),
        Sum::Add(_, line, left, operator, right) => {
            sum(scope, codes, left.get())?;
            term(scope, codes, right.get())?;
            codes.push(Draft::Small(sum_instr(*line, *operator)))
        }
    }
}

#[cycle(expression)]
fn term<'o, 'a>(scope: &Scope<'o, 'a>, codes: &mut Codes, node: &'a Term) -> Result<(), NoMemory>
    ensures { OnOk result (codes.new ≡ written (value_code (env_seen scope.now) (expr_of_term node.now)) codes.old) }
{
    match node {
        Term::OneUnary(_, inner) => unary(scope, codes, inner),
        Term::Multiply(_, line, left, operator, right) => {
            term(scope, codes, left.get())?;
            unary(scope, codes, right.get())?;
            codes.push(Draft::Small(term_instr(*line, *operator)))
        }
    }
}

#[cycle(expression)]
fn unary<'o, 'a>(scope: &Scope<'o, 'a>, codes: &mut Codes, node: &'a Unary) -> Result<(), NoMemory>
    ensures { OnOk result (codes.new ≡ written (value_code (env_seen scope.now) (expr_of_unary node.now)) codes.old) }
{
    match node {
        Unary::OnePrimary(_, inner) => primary(scope, codes, inner),
        Unary::Apply(_, line, operator, operand) => {
            unary(scope, codes, operand.get())?;
            codes.push(Draft::Small(unary_instr(*line, *operator)))
        }
    }
}

#[cycle(expression)]
pub fn primary<'o, 'a>(
    scope: &Scope<'o, 'a>,
    codes: &mut Codes,
    node: &'a Primary,
) -> Result<(), NoMemory>
    ensures { OnOk result (codes.new ≡ written (value_code (env_seen scope.now) (expr_of_primary node.now)) codes.old) }
{
    match node {
        Primary::Number(_, number) => codes.push(Draft::Small(Instr::Push(*number))),
        Primary::True(_) => codes.push(Draft::Small(Instr::Push(1))),
        Primary::False(_) => codes.push(Draft::Small(Instr::Push(0))),
        Primary::Own(_) => codes.push(Draft::Small(Instr::Own)),
        Primary::Read(_, inner) => place(scope, codes, inner.get()),
        Primary::Input(at) => codes.push(Draft::Small(Instr::Input(at.line))),
        Primary::CallPlain(_, function, list) => {
            let number = scope.outline.function_number(function.text.as_slice());
            call_with(scope, codes, number, list.as_slice())
        }
        Primary::Parenthesized(_, inner) => expression(scope, codes, inner.get()),
    }
}

#[cycle(expression)]
pub fn place<'o, 'a>(
    scope: &Scope<'o, 'a>,
    codes: &mut Codes,
    node: &'a Place,
) -> Result<(), NoMemory>
    ensures { OnOk result (codes.new ≡ written (value_code (env_seen scope.now) (expr_of_place node.now)) codes.old) }
{
    match node {
        Place::Whole(at, target) => {
            let found = found_at(scope, target)?;
            read(codes, scope.marks.has(at.id), found)
        }
        Place::Element(at, line, target, index) => {
            let found = found_at(scope, target)?;
            need(codes, scope.marks.has(at.id), found)?;
            expression(scope, codes, index.get())?;
            element(codes, *line, found)
        }
    }
}

#[cycle(expression)]
#[tactic(auto, using(crate::proofs::Texts::followed_written, crate::proofs::Texts::none_written))]
fn call_with<'o, 'a>(
    scope: &Scope<'o, 'a>,
    codes: &mut Codes,
    number: Option<u32>,
    list: &'a [Expression],
) -> Result<(), NoMemory>
    ensures { OnOk result (codes.new ≡ written (plain_code number (all_values (env_seen scope.now) list.now)) codes.old) }
{
    match number {
        Some(number) => {
            arguments(scope, codes, list)?;
            codes.push(Draft::Small(Instr::Call(number)))
        }
        None => Ok(()),
    }
}

#[cycle(expression)]
fn arguments<'o, 'a>(
    scope: &Scope<'o, 'a>,
    codes: &mut Codes,
    list: &'a [Expression],
) -> Result<(), NoMemory>
    ensures { OnOk result (codes.new ≡ written (all_values (env_seen scope.now) list.now) codes.old) }
{
    for argument in list {
        expression(scope, codes, argument)?;
    }
    Ok(())
}

// ---- operators

fn unary_instr(line: u32, operator: UnaryOperator) -> Instr
    ensures { result ≡ unary_instr line operator }
{
    match operator {
        UnaryOperator::Negative => Instr::Neg(line),
        UnaryOperator::Not => Instr::Not,
    }
}

fn equality_instr(operator: EqualityOperator) -> Instr
    ensures { result ≡ equality_instr operator }
{
    match operator {
        EqualityOperator::Equal => Instr::Equal,
        EqualityOperator::Unequal => Instr::NotEqual,
    }
}

fn relation_instr(operator: RelationOperator) -> Instr
    ensures { result ≡ relation_instr operator }
{
    match operator {
        RelationOperator::Less => Instr::Less,
        RelationOperator::LessEqual => Instr::LessEqual,
        RelationOperator::Greater => Instr::Greater,
        RelationOperator::GreaterEqual => Instr::GreaterEqual,
    }
}

fn sum_instr(line: u32, operator: SumOperator) -> Instr
    ensures { result ≡ sum_instr line operator }
{
    match operator {
        SumOperator::Plus => Instr::Add(line),
        SumOperator::Minus => Instr::Sub(line),
    }
}

fn term_instr(line: u32, operator: TermOperator) -> Instr
    ensures { result ≡ term_instr line operator }
{
    match operator {
        TermOperator::Times => Instr::Mul(line),
        TermOperator::Over => Instr::Div(line),
        TermOperator::Modulo => Instr::Rem(line),
    }
}
