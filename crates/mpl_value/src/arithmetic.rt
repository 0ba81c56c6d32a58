ghost use Rattle.std.specs.Prelude.{◌≡◌};
ghost use Rattle.mpl_value.specs.Arithmetic.{sum, difference, product, quotient, remainder, negation};

use crate::known::TrapKind;

/// The sum of two numbers.
pub fn add(a: i64, b: i64) -> Result<i64, TrapKind>
    ensures { result ≡ sum a b }
{
    a.checked_add(b).ok_or(TrapKind::Overflow)
}

/// The difference of two numbers.
pub fn sub(a: i64, b: i64) -> Result<i64, TrapKind>
    ensures { result ≡ difference a b }
{
    a.checked_sub(b).ok_or(TrapKind::Overflow)
}

/// The product of two numbers.
pub fn mul(a: i64, b: i64) -> Result<i64, TrapKind>
    ensures { result ≡ product a b }
{
    a.checked_mul(b).ok_or(TrapKind::Overflow)
}

/// The quotient of two numbers, truncated toward 0.
pub fn div(a: i64, b: i64) -> Result<i64, TrapKind>
    ensures { result ≡ quotient a b }
{
    if b == 0 {
        return Err(TrapKind::DivZero);
    }
    a.checked_div(b).ok_or(TrapKind::Overflow)
}

/// What a division leaves, with the sign of the dividend.
pub fn rem(a: i64, b: i64) -> Result<i64, TrapKind>
    ensures { result ≡ remainder a b }
{
    if b == 0 {
        return Err(TrapKind::DivZero);
    }
    a.checked_rem(b).ok_or(TrapKind::Overflow)
}

/// The number with the other sign.
pub fn neg(a: i64) -> Result<i64, TrapKind>
    ensures { result ≡ negation a }
{
    a.checked_neg().ok_or(TrapKind::Overflow)
}
