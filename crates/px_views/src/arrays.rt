ghost use Rattle.std.specs.Prelude.{◌≡◌, ◌<◌, ◌≤◌, ◌*◌, ◌^◌, pos, take, reverse, slice_index_or};

use crate::axes::Axis;
use crate::triples::Triple;

/// The extent of an axis of an array; one that isn't there has one item.
pub fn extent_at(shape: [u64; 3], rank: u8, number: u8) -> u64
    requires number { number < 3 }
    requires rank { rank ≤ 3 }
    ensures { result ≡ slice_index_or (take rank shape) number 1 }
{
    if number < rank {
        shape[number as usize]
    } else {
        1
    }
}

/// The first extents in the other order.
pub fn reversed(shape: [u64; 3], rank: u8) -> [u64; 3]
    requires some { 1 ≤ rank }
    requires few { rank ≤ 3 }
    ensures { take rank result ≡ reverse (take rank shape) }
{
    match rank {
        1 => shape,
        2 => [shape[1], shape[0], shape[2]],
        _ => [shape[2], shape[1], shape[0]],
    }
}

/// A product, where it fits.
pub fn product(a: u64, b: u64) -> u64
    ensures { a * b < 2 ^ 64 → result ≡ a * b }
{
    a.wrapping_mul(b)
}

/// The axes of an array whose cells stand in row-major order. The strides are these where they fit, and they fit where there
/// is a cell.
pub fn rows_of(first: u64, second: u64, third: u64) -> Triple
    ensures first_extent { result.first.extent ≡ first }
    ensures second_extent { result.second.extent ≡ second }
    ensures third_extent { result.third.extent ≡ third }
    ensures first_stride { second * third < 2 ^ 63 → result.first.stride ≡ pos (second * third) }
    ensures second_stride { third < 2 ^ 63 → result.second.stride ≡ pos third }
    ensures third_stride { result.third.stride ≡ pos 1 }
{
    Triple {
        first: Axis {
            extent: first,
            stride: product(second, third).cast_signed(),
        },
        second: Axis {
            extent: second,
            stride: third.cast_signed(),
        },
        third: Axis {
            extent: third,
            stride: 1,
        },
    }
}
