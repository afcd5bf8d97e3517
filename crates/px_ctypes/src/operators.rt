ghost use Rattle.std.specs.Prelude.{◌≡◌, ◌≢◌, ◌<◌, ◌^◌, ◌↔◌, ◌+ℤ◌, ◌-ℤ◌, ◌*ℤ◌, neg_ℤ, pos, bit_and, bit_or, bit_xor, IfOk, IsTrue, if◌then◌else◌, Some, None, int_lt, unsigned_abs};
ghost use Rattle.px_base.specs.declared.c_types.BinOp.TheVariants.{Shl, Shr};
ghost use Rattle.px_base.specs.declared.c_types.CType.TheVariants.{Bint};
ghost use Rattle.px_base.specs.declared.c_types.UnOp.TheVariants.{Invert};
ghost use Rattle.px_ctypes.specs.Division.{floor_div, trunc_div};
ghost use Rattle.px_ctypes.specs.Operators.{Compares, IsOperand, binary_value, bitwise_value, compare_value, is_count, quotient_value, remainder_value, shift_value, unary_value};
ghost use Rattle.px_ctypes.specs.Types.{IsInRange, greatest};
ghost use Rattle.px_ctypes.specs.Wrapping.{wrap};

use crate::division::{
    floored_quotient, floored_remainder, truncated_quotient, truncated_remainder,
};
use crate::faults::fault;
use crate::types::{greatest, size_of};
use crate::wrapping::{low_word, wrap};
use px_base::{BinOp, CType, CmpOp, Fault, Kind, UnOp};

/// The result of a binary operator on two values of a type (ISO C11 6.5.5 to 6.5.12). The count of a shift may be any
/// number. `//` and `%` round down, and with `cdivision` toward 0.
///
/// # Errors
/// `ZeroDivisionError` with row 1 where the divisor is 0. Without `cdivision`, `OverflowError` with row 3 for the least
/// value `// -1`. `ValueError` with row 5 for a shift count below 0, or of the width or more.
pub fn binary(op: BinOp, t: CType, a: i128, b: i128, cdivision: bool) -> Result<i128, Fault>
    requires arithmetic { t ≢ Bint }
    requires left { IsInRange t a }
    requires right { IsOperand op t b }
    ensures value { result ≡ binary_value op t a b cdivision }
    ensures in_range { IfOk result (λ n. IsInRange t n) }
{
    binary_result(op, t, a, b, cdivision)
}

fn binary_result(op: BinOp, t: CType, a: i128, b: i128, cdivision: bool) -> Result<i128, Fault>
    requires arithmetic { t ≢ Bint }
    requires left { IsInRange t a }
    requires right { IsOperand op t b }
    ensures { result ≡ binary_value op t a b cdivision }
{
    match op {
        BinOp::Add => Ok(sum(t, a, b)),
        BinOp::Sub => Ok(difference(t, a, b)),
        BinOp::Mul => Ok(product(t, a, b)),
        BinOp::FloorDiv => quotient(t, a, b, cdivision),
        BinOp::Mod => remainder(t, a, b, cdivision),
        BinOp::Shl => shifted_left(t, a, b),
        BinOp::Shr => shifted_right(t, a, b),
        BinOp::BitAnd => Ok(bitwise_and(t, a, b)),
        BinOp::BitOr => Ok(bitwise_or(t, a, b)),
        BinOp::BitXor => Ok(bitwise_xor(t, a, b)),
    }
}

fn sum(t: CType, a: i128, b: i128) -> i128
    requires arithmetic { t ≢ Bint }
    requires left { IsInRange t a }
    requires right { IsInRange t b }
    ensures { result ≡ wrap t (a +ℤ b) }
{
    wrap(t, a + b)
}

fn difference(t: CType, a: i128, b: i128) -> i128
    requires arithmetic { t ≢ Bint }
    requires left { IsInRange t a }
    requires right { IsInRange t b }
    ensures { result ≡ wrap t (a -ℤ b) }
{
    wrap(t, a - b)
}

fn product(t: CType, a: i128, b: i128) -> i128
    requires arithmetic { t ≢ Bint }
    ensures { result ≡ wrap t (a *ℤ b) }
{
    wrap(t, low_word(a).wrapping_mul(low_word(b)) as i128)
}

fn quotient(t: CType, a: i128, b: i128, cdivision: bool) -> Result<i128, Fault>
    requires arithmetic { t ≢ Bint }
    requires left { IsInRange t a }
    requires right { IsInRange t b }
    ensures { result ≡ quotient_value t a b cdivision }
{
    if b == 0 {
        return Err(fault(Kind::ZeroDivisionError, 1));
    }
    if cdivision {
        return Ok(wrapped_quotient(t, a, b));
    }
    let quotient = floored_quotient(a, b);
    if is_over(t, quotient) {
        return Err(fault(Kind::OverflowError, 3));
    }
    Ok(quotient)
}

fn wrapped_quotient(t: CType, a: i128, b: i128) -> i128
    requires arithmetic { t ≢ Bint }
    requires nonzero { b ≢ pos 0 }
    requires left { IsInRange t a }
    requires right { IsInRange t b }
    ensures { result ≡ wrap t (trunc_div a b) }
{
    wrap(t, truncated_quotient(a, b))
}

fn is_over(t: CType, n: i128) -> bool
    ensures { result ≡ int_lt (greatest t) n }
{
    n > greatest(t)
}

fn remainder(t: CType, a: i128, b: i128, cdivision: bool) -> Result<i128, Fault>
    requires left { IsInRange t a }
    requires right { IsInRange t b }
    ensures { result ≡ remainder_value t a b cdivision }
{
    if b == 0 {
        return Err(fault(Kind::ZeroDivisionError, 1));
    }
    if cdivision {
        return Ok(truncated_remainder(a, b));
    }
    Ok(floored_remainder(a, b))
}

/// The count of a shift, where it is at least 0 and below the width.
fn count_of(t: CType, count: i128) -> Option<u32>
    ensures { result ≡ (if is_count t count then Some (unsigned_abs count) else None) }
{
    if 0 <= count && count < 8 * size_of(t) as i128 {
        Some(count as u32)
    } else {
        None
    }
}

fn shifted_left(t: CType, a: i128, b: i128) -> Result<i128, Fault>
    requires arithmetic { t ≢ Bint }
    ensures { result ≡ shift_value t b (λ count. wrap t (a *ℤ pos (2 ^ count))) }
{
    match count_of(t, b) {
        Some(count) => Ok(moved_left(t, a, count)),
        None => Err(fault(Kind::ValueError, 5)),
    }
}

fn moved_left(t: CType, a: i128, count: u32) -> i128
    requires arithmetic { t ≢ Bint }
    requires width { count < 64 }
    ensures { result ≡ wrap t (a *ℤ pos (2 ^ count)) }
{
    wrap(t, (low_word(a) << count) as i128)
}

fn shifted_right(t: CType, a: i128, b: i128) -> Result<i128, Fault>
    ensures { result ≡ shift_value t b (λ count. floor_div a (pos (2 ^ count))) }
{
    match count_of(t, b) {
        Some(count) => Ok(a >> count),
        None => Err(fault(Kind::ValueError, 5)),
    }
}

fn bitwise_and(t: CType, a: i128, b: i128) -> i128
    requires { t ≢ Bint }
    ensures { result ≡ bitwise_value t bit_and a b }
{
    wrap(t, (low_word(a) & low_word(b)) as i128)
}

fn bitwise_or(t: CType, a: i128, b: i128) -> i128
    requires { t ≢ Bint }
    ensures { result ≡ bitwise_value t bit_or a b }
{
    wrap(t, (low_word(a) | low_word(b)) as i128)
}

fn bitwise_xor(t: CType, a: i128, b: i128) -> i128
    requires { t ≢ Bint }
    ensures { result ≡ bitwise_value t bit_xor a b }
{
    wrap(t, (low_word(a) ^ low_word(b)) as i128)
}

/// The result of a unary operator on a value of a type (ISO C11 6.5.3.3).
pub fn unary(op: UnOp, t: CType, a: i128) -> i128
    requires arithmetic { t ≢ Bint }
    requires operand { IsInRange t a }
    ensures value { result ≡ unary_value op t a }
    ensures in_range { IsInRange t result }
{
    unary_result(op, t, a)
}

fn unary_result(op: UnOp, t: CType, a: i128) -> i128
    requires arithmetic { t ≢ Bint }
    requires operand { IsInRange t a }
    ensures { result ≡ unary_value op t a }
{
    match op {
        UnOp::Plus => wrap(t, a),
        UnOp::Minus => negation(t, a),
        UnOp::Invert => inversion(t, a),
    }
}

fn negation(t: CType, a: i128) -> i128
    requires arithmetic { t ≢ Bint }
    requires operand { IsInRange t a }
    ensures { result ≡ wrap t (neg_ℤ a) }
{
    wrap(t, -a)
}

fn inversion(t: CType, a: i128) -> i128
    requires arithmetic { t ≢ Bint }
    requires operand { IsInRange t a }
    ensures { result ≡ unary_value Invert t a }
{
    wrap(t, -1 - a)
}

/// Whether two whole numbers compare so.
pub fn compare(op: CmpOp, a: i128, b: i128) -> bool
    ensures value { result ≡ compare_value op a b }
    ensures meaning { IsTrue result ↔ Compares op a b }
{
    match op {
        CmpOp::Lt => a < b,
        CmpOp::Gt => a > b,
        CmpOp::Le => a <= b,
        CmpOp::Ge => a >= b,
        CmpOp::Eq => a == b,
        CmpOp::Ne => a != b,
    }
}
