//! The types of values, and what operators ask of them.

ghost use Rattle.std.specs.Prelude.{◌≡◌};
ghost use Rattle.std.specs.Str.{bytes_eq};
ghost use Rattle.mpl_mean.specs.TypeRules.Operations.{unary_operation};
ghost use Rattle.mpl_mean.specs.TypeRules.ExpressionRules as rules;
ghost use Rattle.mpl_mean.specs.TypeRules.Types as types;
ghost use Rattle.mpl_mean.specs.TypeRules.Typing as typing;
ghost use Rattle.mpl_scope.specs.SeenTypes.{seen_operation, seen_type, seen_types};

use mpl_ast::expression::UnaryOperator;

/// The type of a value. A struct or class is named.
#[derive(Clone, Copy)]
pub enum ValueType<'a> {
    Int,
    Bool,
    Struct(&'a [u8]),
    Class(&'a [u8]),
}

/// What an operator asks of its operands.
#[derive(Clone, Copy)]
pub enum Operation {
    Arithmetic,
    Comparison,
    Equality,
    Logic,
}

/// Two names are the same.
pub fn is_same(a: &[u8], b: &[u8]) -> bool
    ensures { result ≡ bytes_eq a.now b.now }
{
    a == b
}

pub fn same_type(a: ValueType, b: ValueType) -> bool
    ensures { result ≡ types.same_type (seen_type a.entry) (seen_type b.entry) }
{
    match a {
        ValueType::Int => matches!(b, ValueType::Int),
        ValueType::Bool => matches!(b, ValueType::Bool),
        ValueType::Struct(a) => match b {
            ValueType::Struct(b) => is_same(a, b),
            ValueType::Int | ValueType::Bool | ValueType::Class(_) => false,
        },
        ValueType::Class(a) => match b {
            ValueType::Class(b) => is_same(a, b),
            ValueType::Int | ValueType::Bool | ValueType::Struct(_) => false,
        },
    }
}

pub fn is_int(value: ValueType) -> bool
    ensures { result ≡ types.is_int (seen_type value.entry) }
{
    matches!(value, ValueType::Int)
}

pub fn is_bool(value: ValueType) -> bool
    ensures { result ≡ types.is_bool (seen_type value.entry) }
{
    matches!(value, ValueType::Bool)
}

/// They are the same, or one of them isn't there.
pub fn agree(a: Option<ValueType>, b: Option<ValueType>) -> bool
    ensures { result ≡ types.agree (seen_types a.entry) (seen_types b.entry) }
{
    match a {
        Some(a) => match b {
            Some(b) => same_type(a, b),
            None => true,
        },
        None => true,
    }
}

pub fn takes_both(operation: Operation, left: ValueType, right: ValueType) -> bool
    ensures { result ≡ typing.takes_both (seen_operation operation) (seen_type left.entry) (seen_type right.entry) }
{
    match operation {
        Operation::Arithmetic | Operation::Comparison => is_int(left) && is_int(right),
        Operation::Equality => (is_int(left) && is_int(right)) || (is_bool(left) && is_bool(right)),
        Operation::Logic => is_bool(left) && is_bool(right),
    }
}

pub fn outcome<'a>(operation: Operation) -> ValueType<'a>
    ensures { seen_type result ≡ typing.outcome (seen_operation operation) }
{
    match operation {
        Operation::Arithmetic => ValueType::Int,
        Operation::Comparison | Operation::Equality | Operation::Logic => ValueType::Bool,
    }
}

pub fn type_of_binary<'a>(
    operation: Operation,
    left: Option<ValueType<'a>>,
    right: Option<ValueType<'a>>,
) -> Option<ValueType<'a>>
    ensures { seen_types result ≡ typing.type_of_binary (seen_operation operation) (seen_types left.entry) (seen_types right.entry) }
{
    match left {
        Some(left) => match right {
            Some(right) => {
                if takes_both(operation, left, right) {
                    Some(outcome(operation))
                } else {
                    None
                }
            }
            None => None,
        },
        None => None,
    }
}

pub fn type_of_unary<'a>(
    operation: Operation,
    operand: Option<ValueType<'a>>,
) -> Option<ValueType<'a>>
    ensures { seen_types result ≡ typing.type_of_unary (seen_operation operation) (seen_types operand.entry) }
{
    match operand {
        Some(operand) => {
            if takes_both(operation, operand, operand) {
                Some(outcome(operation))
            } else {
                None
            }
        }
        None => None,
    }
}

/// Nothing is asked of operands without a type.
pub fn binary_agrees(
    operation: Operation,
    left: Option<ValueType>,
    right: Option<ValueType>,
) -> bool
    ensures { result ≡ rules.binary_agrees (seen_operation operation) (seen_types left.entry) (seen_types right.entry) }
{
    match left {
        Some(left) => match right {
            Some(right) => takes_both(operation, left, right),
            None => true,
        },
        None => true,
    }
}

pub fn unary_agrees(operation: Operation, operand: Option<ValueType>) -> bool
    ensures { result ≡ rules.unary_agrees (seen_operation operation) (seen_types operand.entry) }
{
    match operand {
        Some(operand) => takes_both(operation, operand, operand),
        None => true,
    }
}

pub fn can_be_printed(argument: Option<ValueType>) -> bool
    ensures { result ≡ rules.can_be_printed (seen_types argument.entry) }
{
    match argument {
        Some(argument) => is_int(argument) || is_bool(argument),
        None => true,
    }
}

pub fn unary_operation(operator: UnaryOperator) -> Operation
    ensures { seen_operation result ≡ unary_operation operator }
{
    match operator {
        UnaryOperator::Negative => Operation::Arithmetic,
        UnaryOperator::Not => Operation::Logic,
    }
}
