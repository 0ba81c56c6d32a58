//! The parts of expressions in which there is no expression.

ghost use Rattle.std.specs.Prelude.{◌≡◌, Some};
ghost use Rattle.mpl_ast.specs.declared.expression.Target.TheVariants.{Variable};
ghost use Rattle.mpl_ast.specs.declared.token.TokenKind.TheVariants as kind;
ghost use Rattle.mpl_mean.specs.Text.ExpressionText.{unary_mark};
ghost use Rattle.mpl_trees.specs.Expressions as spec;
ghost use Rattle.mpl_trees.specs.Taking as taking;
ghost use Rattle.mpl_trees.specs.Taking.{Takes};
ghost use Rattle.mpl_ast.specs.declared.expression.Expression.{Expression};
ghost use Rattle.mpl_expressions.specs.Internal.Operands.{take_input, take_number_alone};
ghost use Rattle.mpl_reader.specs.Reader.{Took, rest_of};

use mpl_ast::Name;
use mpl_ast::expression::{Primary, Target, UnaryOperator};
use mpl_ast::token::{Keyword, Mark};
use mpl_reader::ahead::{second, sees_mark};
use mpl_reader::{Reader, Stop};
use std::alloc::Global;

/// A variable.
pub fn variable(alloc: Global, reader: &mut Reader<'_>) -> Result<Target, Stop>
    ensures { Took (taking.node_of Variable taking.take_name) (rest_of reader.old) result (rest_of reader.new) }
{
    let start = reader.start()?;
    let name = reader.name(alloc)?;
    Ok(Target::Variable(reader.finish(start), name))
}

/// A variable and its field.
pub fn field(alloc: Global, reader: &mut Reader<'_>) -> Result<Target, Stop>
    ensures { Took spec.take_field (rest_of reader.old) result (rest_of reader.new) }
{
    let start = reader.start()?;
    let variable = reader.name(alloc)?;
    reader.mark(Mark::Dot)?;
    let field = reader.name(alloc)?;
    Ok(Target::Field(reader.finish(start), variable, field))
}

pub fn target(alloc: Global, reader: &mut Reader<'_>) -> Result<Target, Stop>
    ensures { Took spec.take_target (rest_of reader.old) result (rest_of reader.new) }
{
    if sees_mark(second(reader.left), Mark::Dot) {
        field(alloc, reader)
    } else {
        variable(alloc, reader)
    }
}

/// An operand that is a number.
pub fn number(reader: &mut Reader<'_>) -> Result<Primary, Stop>
    ensures { Took take_number_alone (rest_of reader.old) result (rest_of reader.new) }
{
    let start = reader.start()?;
    let number = reader.number()?;
    Ok(Primary::Number(reader.finish(start), number.value))
}

/// An operand that begins with a keyword.
pub fn word(reader: &mut Reader<'_>, word: Keyword) -> Result<Primary, Stop>
    ensures { (expression : Takes Expression) → Took (spec.primary_at expression (Some (kind.Keyword word))) (rest_of reader.old) result (rest_of reader.new) }
{
    match word {
        Keyword::True => {
            let start = reader.start()?;
            reader.keyword(word)?;
            Ok(Primary::True(reader.finish(start)))
        }
        Keyword::False => {
            let start = reader.start()?;
            reader.keyword(word)?;
            Ok(Primary::False(reader.finish(start)))
        }
        Keyword::Own => {
            let start = reader.start()?;
            reader.keyword(word)?;
            Ok(Primary::Own(reader.finish(start)))
        }
        Keyword::Input => input(reader),
        _ => Err(Stop::Stuck),
    }
}

/// `input()`
fn input(reader: &mut Reader<'_>) -> Result<Primary, Stop>
    ensures { Took take_input (rest_of reader.old) result (rest_of reader.new) }
{
    let start = reader.start()?;
    reader.keyword(Keyword::Input)?;
    reader.mark(Mark::OpenParenthesis)?;
    reader.mark(Mark::CloseParenthesis)?;
    Ok(Primary::Input(reader.finish(start)))
}

/// The mark of an operator before an operand.
pub fn mark_of(operator: UnaryOperator) -> Mark
    ensures { result ≡ unary_mark operator }
{
    match operator {
        UnaryOperator::Negative => Mark::Minus,
        UnaryOperator::Not => Mark::Not,
    }
}
