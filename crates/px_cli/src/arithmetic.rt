//! The arithmetic of `long`.

ghost use Rattle.std.specs.Prelude.{◌≡◌, ◌≢◌, ◌+ℤ◌, ◌-ℤ◌, ◌*ℤ◌, ◌⊎◌, MatchOption};
ghost use Rattle.px_base.specs.declared.c_types.CType.TheVariants.{Long};
ghost use Rattle.px_base.specs.declared.c_types.BinOp.TheVariants.{Add, Mul, Sub};
ghost use Rattle.px_ctypes.specs.Types.{IsInRange};
ghost use Rattle.px_ctypes.specs.Wrapping.{wrap};

use px_base::{BinOp, CType};
use px_ctypes::binary;

fn sum_of(a: i128, b: i128) -> i128
    requires left { IsInRange Long a }
    requires right { IsInRange Long b }
    ensures { result ≡ wrap Long (a +ℤ b) }
{
    match binary(BinOp::Add, CType::Long, a, b, false) {
        Ok(value) => value,
        Err(_) => unreachable!(),
    }
}

fn difference_of(a: i128, b: i128) -> i128
    requires left { IsInRange Long a }
    requires right { IsInRange Long b }
    ensures { result ≡ wrap Long (a -ℤ b) }
{
    match binary(BinOp::Sub, CType::Long, a, b, false) {
        Ok(value) => value,
        Err(_) => unreachable!(),
    }
}

fn product_of(a: i128, b: i128) -> i128
    requires left { IsInRange Long a }
    requires right { IsInRange Long b }
    ensures { result ≡ wrap Long (a *ℤ b) }
{
    match binary(BinOp::Mul, CType::Long, a, b, false) {
        Ok(value) => value,
        Err(_) => unreachable!(),
    }
}

/// The product, where the operator is `*`.
pub(crate) fn product_by(op: BinOp, a: i128, b: i128) -> Option<i128>
    requires left { IsInRange Long a }
    requires right { IsInRange Long b }
    ensures { MatchOption result (op ≢ Mul) (λ product. (op ≡ Mul) × (product ≡ wrap Long (a *ℤ b))) }
{
    match op {
        BinOp::Mul => Some(product_of(a, b)),
        _ => None,
    }
}

/// The sum or the difference, where the operator is one of these.
pub(crate) fn total_of(op: BinOp, a: i128, b: i128) -> Option<i128>
    requires left { IsInRange Long a }
    requires right { IsInRange Long b }
    ensures { MatchOption result
        ((op ≢ Add) × (op ≢ Sub))
        (λ total. ((op ≡ Add) × (total ≡ wrap Long (a +ℤ b))) ⊎ ((op ≡ Sub) × (total ≡ wrap Long (a -ℤ b)))) }
{
    match op {
        BinOp::Add => Some(sum_of(a, b)),
        BinOp::Sub => Some(difference_of(a, b)),
        _ => None,
    }
}
