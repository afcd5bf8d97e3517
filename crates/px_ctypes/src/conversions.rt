ghost use Rattle.std.specs.Prelude.{◌≡◌, ◌≢◌, IfOk, IsTrue, IsFalse};
ghost use Rattle.px_base.specs.declared.c_types.CType.TheVariants.{Bint};
ghost use Rattle.px_ctypes.specs.Conversions.{common, converted, mixed, object_value, promoted, unsigned_of};
ghost use Rattle.px_ctypes.specs.Types.{IsInRange, IsValueOf, is_signed};

use crate::faults::fault;
use crate::types::{greatest, is_signed, least, rank, size_of};
use crate::wrapping::wrap;
use px_base::{CType, Fault, Kind};

/// The type after the integer promotions (ISO C11 6.3.1.1). `Py_ssize_t` counts as `long`, `size_t` as `unsigned long`.
pub fn promoted(t: CType) -> CType
    ensures { result ≡ promoted t }
{
    match t {
        CType::SChar | CType::UChar | CType::Char | CType::Short | CType::UShort | CType::Bint =>
            CType::Int,
        CType::SsizeT => CType::Long,
        CType::SizeT => CType::ULong,
        _ => t,
    }
}

/// The common type of two operands by the usual arithmetic conversions (ISO C11 6.3.1.8).
pub fn common(a: CType, b: CType) -> CType
    ensures { result ≡ common a b }
{
    let (left, right) = (promoted(a), promoted(b));
    match (is_signed(left), is_signed(right)) {
        (true, false) => common_of_mixed(right, left),
        (false, true) => common_of_mixed(left, right),
        _ => {
            if rank(left) < rank(right) {
                right
            } else {
                left
            }
        }
    }
}

/// The common type of an unsigned and a signed type.
fn common_of_mixed(unsigned: CType, signed: CType) -> CType
    requires unsigned { IsFalse (is_signed unsigned) }
    requires signed { IsTrue (is_signed signed) }
    ensures { result ≡ mixed unsigned signed }
{
    if rank(signed) <= rank(unsigned) {
        unsigned
    } else if size_of(unsigned) < size_of(signed) {
        signed
    } else {
        unsigned_of(signed)
    }
}

/// The unsigned type of the rank of `int`, `long` or `long long`; another type stays.
fn unsigned_of(t: CType) -> CType
    ensures { result ≡ unsigned_of t }
{
    match t {
        CType::Int => CType::UInt,
        CType::Long => CType::ULong,
        CType::LongLong => CType::ULongLong,
        _ => t,
    }
}

/// The number as a value of the type: wrapped, and for `bint` 0 for 0 and 1 otherwise.
pub fn convert(t: CType, n: i128) -> i128
    ensures value { result ≡ converted t n }
    ensures in_range { IsInRange t result }
    ensures own { IsValueOf t result }
{
    match t {
        CType::Bint => { if n == 0 { 0 } else { 1 } }
        _ => wrap(t, n),
    }
}

/// The number of an object as a value of a C integer type.
///
/// # Errors
/// `OverflowError` with row 2 exactly where the number is outside the type's range.
pub fn from_object(t: CType, n: i128) -> Result<i128, Fault>
    requires { t ≢ Bint }
    ensures value { result ≡ object_value t n }
    ensures in_range { IfOk result (λ n. IsInRange t n) }
{
    if least(t) <= n && n <= greatest(t) {
        Ok(n)
    } else {
        Err(fault(Kind::OverflowError, 2))
    }
}
