//! Where the marked uses of a program begin, in the order of the source.
use mpl_ast::At;
use mpl_ast::class::Item;
use mpl_ast::expression::{
    Conjunction, Equality, Expression, Place, Primary, Relation, Sum, Term, Unary,
};
use mpl_ast::flow::{Assignment, Call, Flow};
use mpl_ast::program::{Declaration, Program};
use mpl_ast::statement::{Declarator, ForHead, ForStart, Local, Statement};
use mpl_depend::PendMap;
use mpl_value::NoMemory;
use std::alloc::Global;

/// A use, if it is marked.
fn see(map: &PendMap, found: &mut Vec<usize>, at: At) -> Result<(), NoMemory> {
    if map.has(at.id) {
        found.push(at.span.from as usize)?;
    }
    Ok(())
}

#[cycle(expression)]
fn expression(map: &PendMap, found: &mut Vec<usize>, node: &Expression) -> Result<(), NoMemory> {
    match node {
        Expression::OneConjunction(_, inner) => conjunction(map, found, inner),
        Expression::Or(_, _, left, right) => {
            expression(map, found, left.get())?;
            conjunction(map, found, right.get())
        }
    }
}

#[cycle(expression)]
fn conjunction(map: &PendMap, found: &mut Vec<usize>, node: &Conjunction) -> Result<(), NoMemory> {
    match node {
        Conjunction::OneEquality(_, inner) => equality(map, found, inner),
        Conjunction::And(_, _, left, right) => {
            conjunction(map, found, left.get())?;
            equality(map, found, right.get())
        }
    }
}

#[cycle(expression)]
fn equality(map: &PendMap, found: &mut Vec<usize>, node: &Equality) -> Result<(), NoMemory> {
    match node {
        Equality::OneRelation(_, inner) => relation(map, found, inner),
        Equality::Equate(_, _, left, _, right) => {
            equality(map, found, left.get())?;
            relation(map, found, right.get())
        }
    }
}

#[cycle(expression)]
fn relation(map: &PendMap, found: &mut Vec<usize>, node: &Relation) -> Result<(), NoMemory> {
    match node {
        Relation::OneSum(_, inner) => sum(map, found, inner),
        Relation::Compare(_, _, left, _, right) => {
            relation(map, found, left.get())?;
            sum(map, found, right.get())
        }
    }
}

#[cycle(expression)]
fn sum(map: &PendMap, found: &mut Vec<usize>, node: &Sum) -> Result<(), NoMemory> {
    match node {
        Sum::OneTerm(_, inner) => term(map, found, inner),
        Sum::Add(_, _, left, _, right) => {
            sum(map, found, left.get())?;
            term(map, found, right.get())
        }
    }
}

#[cycle(expression)]
fn term(map: &PendMap, found: &mut Vec<usize>, node: &Term) -> Result<(), NoMemory> {
    match node {
        Term::OneUnary(_, inner) => unary(map, found, inner),
        Term::Multiply(_, _, left, _, right) => {
            term(map, found, left.get())?;
            unary(map, found, right.get())
        }
    }
}

#[cycle(expression)]
fn unary(map: &PendMap, found: &mut Vec<usize>, node: &Unary) -> Result<(), NoMemory> {
    match node {
        Unary::OnePrimary(_, inner) => primary(map, found, inner),
        Unary::Apply(_, _, _, operand) => unary(map, found, operand.get()),
    }
}

#[cycle(expression)]
fn primary(map: &PendMap, found: &mut Vec<usize>, node: &Primary) -> Result<(), NoMemory> {
    match node {
        Primary::Read(_, inner) => place(map, found, inner.get()),
        Primary::CallPlain(_, _, list) => expressions(map, found, list.as_slice()),
        Primary::Parenthesized(_, inner) => expression(map, found, inner.get()),
        Primary::Number(..) => Ok(()),
        Primary::True(_) => Ok(()),
        Primary::False(_) => Ok(()),
        Primary::Own(_) => Ok(()),
        Primary::Input(_) => Ok(()),
    }
}

#[cycle(expression)]
fn place(map: &PendMap, found: &mut Vec<usize>, node: &Place) -> Result<(), NoMemory> {
    match node {
        Place::Whole(at, _) => see(map, found, *at),
        Place::Element(at, _, _, index) => {
            see(map, found, *at)?;
            expression(map, found, index.get())
        }
    }
}

#[cycle(expression)]
fn expressions(map: &PendMap, found: &mut Vec<usize>, list: &[Expression]) -> Result<(), NoMemory> {
    for node in list {
        expression(map, found, node)?;
    }
    Ok(())
}

#[cycle(flow)]
fn flow(map: &PendMap, found: &mut Vec<usize>, node: &Flow) -> Result<(), NoMemory> {
    match node {
        Flow::OfCall(_, inner) => call(map, found, inner.get()),
        Flow::OfExpression(_, inner) => expression(map, found, inner),
    }
}

#[cycle(flow)]
fn call(map: &PendMap, found: &mut Vec<usize>, node: &Call) -> Result<(), NoMemory> {
    match node {
        Call::OnOwn(_, _, list) => flows(map, found, list.as_slice()),
        Call::OnTarget(at, _, _, list) => {
            see(map, found, *at)?;
            flows(map, found, list.as_slice())
        }
    }
}

#[cycle(flow)]
fn flows(map: &PendMap, found: &mut Vec<usize>, list: &[Flow]) -> Result<(), NoMemory> {
    for node in list {
        flow(map, found, node)?;
    }
    Ok(())
}

fn assignment(map: &PendMap, found: &mut Vec<usize>, node: &Assignment) -> Result<(), NoMemory> {
    place(map, found, &node.place)?;
    flow(map, found, &node.value)
}

fn declarator(map: &PendMap, found: &mut Vec<usize>, node: &Declarator) -> Result<(), NoMemory> {
    match node {
        Declarator::Plain(..) => Ok(()),
        Declarator::Initialized(_, _, value) => flow(map, found, value),
    }
}

fn local(map: &PendMap, found: &mut Vec<usize>, node: &Local) -> Result<(), NoMemory> {
    for declared in node.declarators.as_slice() {
        declarator(map, found, declared)?;
    }
    Ok(())
}

fn head(map: &PendMap, found: &mut Vec<usize>, node: &ForHead) -> Result<(), NoMemory> {
    match &node.start {
        Some(ForStart::Declare(declared)) => local(map, found, declared)?,
        Some(ForStart::Assign(assigned)) => assignment(map, found, assigned)?,
        None => {}
    }
    expression(map, found, &node.test)?;
    match &node.step {
        Some(assigned) => assignment(map, found, assigned),
        None => Ok(()),
    }
}

#[cycle(statement)]
fn statement(map: &PendMap, found: &mut Vec<usize>, node: &Statement) -> Result<(), NoMemory> {
    match node {
        Statement::OfBlock(_, block) => statements(map, found, block.statements.as_slice()),
        Statement::Declare(_, declared) => local(map, found, declared),
        Statement::Assign(_, assigned) => assignment(map, found, assigned),
        Statement::CallAlone(_, alone) => call(map, found, alone),
        Statement::Create(at, _) => see(map, found, *at),
        Statement::If(_, test, then_part, else_part) => {
            expression(map, found, test)?;
            statement(map, found, then_part.get())?;
            match else_part {
                Some(part) => statement(map, found, part.get()),
                None => Ok(()),
            }
        }
        Statement::While(_, test, body) => {
            expression(map, found, test)?;
            statement(map, found, body.get())
        }
        Statement::For(_, inner, body) => {
            head(map, found, inner.get())?;
            statement(map, found, body.get())
        }
        Statement::Print(_, list) => expressions(map, found, list.as_slice()),
        Statement::Rtf(_, value) => flow(map, found, value),
        Statement::Return(_, Some(value)) => expression(map, found, value),
        Statement::Return(_, None) => Ok(()),
        Statement::Empty(_) => Ok(()),
    }
}

#[cycle(statement)]
fn statements(map: &PendMap, found: &mut Vec<usize>, list: &[Statement]) -> Result<(), NoMemory> {
    for node in list {
        statement(map, found, node)?;
    }
    Ok(())
}

fn items(map: &PendMap, found: &mut Vec<usize>, list: &[Item]) -> Result<(), NoMemory> {
    for item in list {
        if let Item::Member(_, _, _, _, block) = item {
            statements(map, found, block.statements.as_slice())?;
        }
    }
    Ok(())
}

fn declaration(map: &PendMap, found: &mut Vec<usize>, node: &Declaration) -> Result<(), NoMemory> {
    match node {
        Declaration::Struct(..) => Ok(()),
        Declaration::Class(_, _, _, _, list) => items(map, found, list.as_slice()),
        Declaration::Function(_, _, _, _, block) => {
            statements(map, found, block.statements.as_slice())
        }
    }
}

/// The bytes at which the marked uses begin.
pub fn marked_uses(
    alloc: Global,
    map: &PendMap,
    program: &Program,
) -> Result<Vec<usize>, NoMemory> {
    let mut found = Vec::new(alloc);
    for node in program.declarations.as_slice() {
        declaration(map, &mut found, node)?;
    }
    Ok(found)
}
