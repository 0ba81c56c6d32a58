ghost use Rattle.std.specs.Prelude.{◌≡◌};
ghost use Rattle.mdf_vm.specs.Internal.Operations.{comparison_of, operation_of};

use mpl_value::{TrapKind, add, div, mul, rem, sub};

/// An operation on two words, of which the result may be a trap.
#[derive(Clone, Copy)]
pub enum Operation {
    Add,
    Sub,
    Mul,
    Div,
    Rem,
}

impl Operation {
    #[inline(always)]
    pub fn apply(self, a: i64, b: i64) -> Result<i64, TrapKind>
        ensures { result ≡ operation_of self a b }
    {
        match self {
            Operation::Add => add(a, b),
            Operation::Sub => sub(a, b),
            Operation::Mul => mul(a, b),
            Operation::Div => div(a, b),
            Operation::Rem => rem(a, b),
        }
    }
}

#[derive(Clone, Copy)]
pub enum Comparison {
    Equal,
    NotEqual,
    Less,
    LessEqual,
    Greater,
    GreaterEqual,
}

impl Comparison {
    #[inline(always)]
    pub fn holds(self, a: i64, b: i64) -> bool
        ensures { result ≡ comparison_of self a b }
    {
        match self {
            Comparison::Equal => a == b,
            Comparison::NotEqual => a != b,
            Comparison::Less => a < b,
            Comparison::LessEqual => a <= b,
            Comparison::Greater => a > b,
            Comparison::GreaterEqual => a >= b,
        }
    }
}
