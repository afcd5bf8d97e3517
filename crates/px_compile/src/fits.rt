//! Which expressions have code.

ghost use Rattle.std.specs.Prelude.{◌≡◌, slice_get, map};
ghost use Rattle.px_walk.specs.Roses.{gathered};
ghost use Rattle.px_typed_walk.specs.TypedView.{rose_of_typed};
ghost use Rattle.px_ctypes.specs.Types.{greatest, least};
ghost use Rattle.px_operators.specs.Conversions.{is_same_c};
ghost use Rattle.px_code_laws.specs.Fine.{types_of};
ghost use Rattle.px_compile.specs.Fits.{are_steps, c_type_of, cast_fits, comparison_fits, conversion_fits, given_fits, has_type, head_fits, is_c_type, is_number, is_value_of, last_type, local_fits, parts_fit, right_fits, steps_type_fits, tree_fits, types_of_locals};

use px_base::{BinOp, CType};
use px_tree::{Comparing, Conversion, Local, TypedHead, TypedTree, ValueType};
use px_typed_walk::type_of;

pub(crate) fn is_same_c(a: CType, b: CType) -> bool
    ensures { result ≡ is_same_c a b }
{
    a == b
}

pub(crate) fn is_c_type(there: Option<ValueType>, t: CType) -> bool
    ensures { result ≡ is_c_type there t }
{
    match there {
        Some(ValueType::C(u)) => is_same_c(u, t),
        _ => false,
    }
}

pub(crate) fn is_number(there: Option<ValueType>) -> bool
    ensures { result ≡ is_number there }
{
    match there {
        Some(ValueType::C(_)) => true,
        _ => false,
    }
}

/// The type of a part, if it is there.
fn type_at(parts: &[TypedTree], k: usize) -> Option<ValueType>
    ensures { result ≡ slice_get (types_of (gathered (map rose_of_typed parts.now))) k }
{
    match parts.get(k) {
        Some(part) => Some(type_of(part)),
        None => None,
    }
}

fn last_type(parts: &[TypedTree]) -> Option<ValueType>
    ensures { result ≡ last_type (types_of (gathered (map rose_of_typed parts.now))) }
{
    let mut last = None;
    for part in parts {
        last = Some(type_of(part));
    }
    last
}

pub(crate) fn has_type(parts: &[TypedTree], k: usize, t: CType) -> bool
    ensures { result ≡ has_type (types_of (gathered (map rose_of_typed parts.now))) k t }
{
    is_c_type(type_at(parts, k), t)
}

pub(crate) fn right_fits(op: BinOp, t: CType, parts: &[TypedTree]) -> bool
    ensures { result ≡ right_fits op t (types_of (gathered (map rose_of_typed parts.now))) }
{
    if matches!(op, BinOp::Shl | BinOp::Shr) {
        is_number(type_at(parts, 1))
    } else {
        has_type(parts, 1, t)
    }
}

/// The type of a variable, if it is there.
pub(crate) fn type_of_local(locals: &[Local], slot: usize) -> Option<ValueType>
    ensures { result ≡ slice_get (types_of_locals locals.now) slot }
{
    match locals.get(slot) {
        Some(local) => Some(local.value_type),
        None => None,
    }
}

pub(crate) fn local_fits(locals: &[Local], slot: usize, t: ValueType) -> bool
    ensures { result ≡ local_fits (types_of_locals locals.now) slot t }
{
    match t {
        ValueType::C(t) => is_c_type(type_of_local(locals, slot), t),
        _ => false,
    }
}

pub(crate) fn conversion_fits(asked: Conversion, parts: &[TypedTree]) -> bool
    ensures { result ≡ conversion_fits asked (types_of (gathered (map rose_of_typed parts.now))) }
{
    match asked {
        Conversion::ToC(_) => is_number(type_at(parts, 0)),
        _ => false,
    }
}

pub(crate) fn cast_fits(t: ValueType, parts: &[TypedTree]) -> bool
    ensures { result ≡ cast_fits t (types_of (gathered (map rose_of_typed parts.now))) }
{
    match t {
        ValueType::C(t) => has_type(parts, 0, t),
        _ => false,
    }
}

pub(crate) fn steps_type_fits(t: ValueType, parts: &[TypedTree]) -> bool
    ensures { result ≡ steps_type_fits t (types_of (gathered (map rose_of_typed parts.now))) }
{
    match t {
        ValueType::C(t) => is_c_type(last_type(parts), t),
        _ => false,
    }
}

pub(crate) fn comparison_fits(how: Comparing, parts: &[TypedTree]) -> bool
    ensures { result ≡ comparison_fits how (types_of (gathered (map rose_of_typed parts.now))) }
{
    match how {
        Comparing::C(_, t) => has_type(parts, 0, t) && has_type(parts, 1, t),
        _ => false,
    }
}

pub(crate) fn given_fits(at_hand: Option<CType>, t: ValueType) -> bool
    ensures { result ≡ given_fits at_hand t }
{
    match (at_hand, t) {
        (Some(u), ValueType::C(t)) => is_same_c(u, t),
        _ => false,
    }
}

/// The least number in the range of a type.
fn least(t: CType) -> i128
    ensures { result ≡ least t }
{
    match t {
        CType::SChar => -128,
        CType::UChar => 0,
        CType::Char => -128,
        CType::Short => -32768,
        CType::UShort => 0,
        CType::Int => -2147483648,
        CType::UInt => 0,
        CType::Long => -9223372036854775808,
        CType::ULong => 0,
        CType::LongLong => -9223372036854775808,
        CType::ULongLong => 0,
        CType::SsizeT => -9223372036854775808,
        CType::SizeT => 0,
        CType::Bint => -2147483648,
    }
}

/// The greatest number in the range of a type.
fn greatest(t: CType) -> i128
    ensures { result ≡ greatest t }
{
    match t {
        CType::SChar => 127,
        CType::UChar => 255,
        CType::Char => 127,
        CType::Short => 32767,
        CType::UShort => 65535,
        CType::Int => 2147483647,
        CType::UInt => 4294967295,
        CType::Long => 9223372036854775807,
        CType::ULong => 18446744073709551615,
        CType::LongLong => 9223372036854775807,
        CType::ULongLong => 18446744073709551615,
        CType::SsizeT => 9223372036854775807,
        CType::SizeT => 18446744073709551615,
        CType::Bint => 2147483647,
    }
}

/// Whether a number is a value of the type.
pub(crate) fn is_value_of(t: CType, n: i128) -> bool
    ensures { result ≡ is_value_of t n }
{
    if is_same_c(t, CType::Bint) {
        n == 0 || n == 1
    } else {
        least(t) <= n && n <= greatest(t)
    }
}
