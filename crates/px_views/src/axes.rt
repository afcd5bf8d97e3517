ghost use Rattle.std.specs.Prelude.{◌≡◌, ℕ, ◌<◌, ◌≤◌, ◌^◌, ◌↔◌, IsTrue, pos, ◌+ℤ◌, ◌*ℤ◌, unsigned_abs};
ghost use Rattle.std.specs.Int.{IsGcd};
ghost use Rattle.px_model.specs.Sequences.{item_index};
ghost use Rattle.px_views.specs.Strides.{high_index, low_index, wrapped_place};

/// An axis of a view: how many items stand along it, and how many places are from one to the next.
#[derive(Clone, Copy)]
pub struct Axis {
    pub extent: u64,
    pub stride: i64,
}

/// The item that an index names; one below 0 counts from the end, where `wraparound` is on.
#[inline(always)]
pub fn item(at: i128, extent: u64, wraparound: bool) -> Option<u64>
    ensures { result ≡ item_index extent wraparound at }
{
    if at >= 0 {
        if at < extent as i128 {
            Some(at as u64)
        } else {
            None
        }
    } else if wraparound && at + extent as i128 >= 0 {
        Some((at + extent as i128) as u64)
    } else {
        None
    }
}

/// The place that is so many strides further. It is found modulo 2^64, which is exact where it is a place.
#[inline(always)]
pub fn moved(from: u64, steps: u64, stride: i64) -> u64
    ensures value { result ≡ wrapped_place from steps stride }
    ensures exact { (place : ℕ) → place < 2 ^ 64 → pos from +ℤ pos steps *ℤ stride ≡ pos place → result ≡ place }
{
    from.wrapping_add(steps.wrapping_mul(stride.cast_unsigned()))
}

/// The stride of a slice with a step, where it fits; where it doesn't, the slice has one item at most, and any will do.
pub fn scaled(stride: i64, step: i128) -> i64
    ensures { unsigned_abs (stride *ℤ step) < 2 ^ 63 → result ≡ stride *ℤ step }
{
    if step < i64::MIN as i128 || (i64::MAX as i128) < step {
        return 0;
    }
    let product = stride as i128 * step;
    if product < i64::MIN as i128 || (i64::MAX as i128) < product {
        return 0;
    }
    product as i64
}

/// The place of the least item along an axis, from that of its first one.
pub fn lowered(from: u64, axis: Axis) -> u64
    requires { 0 < axis.extent }
    ensures { (place : ℕ) → place < 2 ^ 64 → pos from +ℤ pos (low_index axis) *ℤ axis.stride ≡ pos place → result ≡ place }
{
    if axis.stride < 0 {
        moved(from, axis.extent - 1, axis.stride)
    } else {
        from
    }
}

/// The place of the greatest item along an axis, from that of its first one.
pub fn raised(from: u64, axis: Axis) -> u64
    requires { 0 < axis.extent }
    ensures { (place : ℕ) → place < 2 ^ 64 → pos from +ℤ pos (high_index axis) *ℤ axis.stride ≡ pos place → result ≡ place }
{
    if axis.stride > 0 {
        moved(from, axis.extent - 1, axis.stride)
    } else {
        from
    }
}

/// Whether several items along an axis are this far apart.
pub fn steps_by(axis: Axis, width: u128) -> bool
    ensures { IsTrue result ↔ (1 < axis.extent → axis.stride ≡ pos width) }
{
    axis.extent <= 1 || (axis.stride >= 0 && axis.stride as u128 == width)
}

/// The greatest common divisor of the stride, where there are several items, and what was found before.
pub fn common(axis: Axis, found: u64) -> u64
    ensures several { 1 < axis.extent → IsGcd found (unsigned_abs axis.stride) result }
    ensures few { axis.extent ≤ 1 → result ≡ found }
{
    if axis.extent > 1 {
        gcd(found, axis.stride.unsigned_abs())
    } else {
        found
    }
}

/// The greatest common divisor.
pub fn gcd(a: u64, b: u64) -> u64
    ensures { IsGcd a b result }
{
    let mut x = a;
    let mut y = b;
    while y != 0 {
        let rest = x % y;
        x = y;
        y = rest;
    }
    x
}
