ghost use Rattle.std.specs.Prelude.{◌≡◌, ◌<◌, ◌≤◌, [], ◌∷◌, ◌++◌, ◌↔◌, IsTrue, take, insert, remove, reverse, slice_set};
ghost use Rattle.px_model.specs.Views.{cell_count};
ghost use Rattle.px_views.specs.Strides.{extents, no_axis};
ghost use Rattle.px_views.specs.Triples.{IsCompact, IsRowMajor, listed};

use crate::axes::{Axis, steps_by};

/// The axes of a view, and for each that isn't there one of one item.
#[derive(Clone, Copy)]
pub struct Triple {
    pub first: Axis,
    pub second: Axis,
    pub third: Axis,
}

/// An axis of one item.
pub fn one_item() -> Axis
    ensures { result ≡ no_axis }
{
    Axis {
        extent: 1,
        stride: 0,
    }
}

/// The axes but one of them.
pub fn without(axes: Triple, number: u8) -> Triple
    requires { number < 3 }
    ensures { listed result ≡ remove (listed axes) number ++ no_axis ∷ [] }
{
    let (first, second) = match number {
        0 => (axes.second, axes.third),
        1 => (axes.first, axes.third),
        _ => (axes.first, axes.second),
    };
    Triple {
        first,
        second,
        third: one_item(),
    }
}

/// The axes with one of one item more.
pub fn with_one(axes: Triple, number: u8) -> Triple
    requires { number < 3 }
    ensures { listed result ≡ take 3 (insert (listed axes) number no_axis) }
{
    match number {
        0 => Triple {
            first: one_item(),
            second: axes.first,
            third: axes.second,
        },
        1 => Triple {
            first: axes.first,
            second: one_item(),
            third: axes.second,
        },
        _ => Triple {
            first: axes.first,
            second: axes.second,
            third: one_item(),
        },
    }
}

/// The axes with another one in the place of one of them.
pub fn replaced(axes: Triple, number: u8, axis: Axis) -> Triple
    requires { number < 3 }
    ensures { listed result ≡ slice_set (listed axes) number axis }
{
    match number {
        0 => Triple {
            first: axis,
            ..axes
        },
        1 => Triple {
            second: axis,
            ..axes
        },
        _ => Triple {
            third: axis,
            ..axes
        },
    }
}

/// The first axes in the other order.
pub fn turned(axes: Triple, rank: u8) -> Triple
    requires some { 1 ≤ rank }
    requires few { rank ≤ 3 }
    ensures { take rank (listed result) ≡ reverse (take rank (listed axes)) }
{
    match rank {
        1 => axes,
        2 => Triple {
            first: axes.second,
            second: axes.first,
            third: axes.third,
        },
        _ => Triple {
            first: axes.third,
            second: axes.second,
            third: axes.first,
        },
    }
}

/// Whether no item stands along one of the axes, so that they reach no cell.
pub fn has_none(axes: Triple) -> bool
    ensures { IsTrue result ↔ (cell_count (extents (listed axes)) ≡ 0) }
{
    axes.first.extent == 0 || axes.second.extent == 0 || axes.third.extent == 0
}

/// Whether each stride is as far as the items along the axes behind it reach.
pub fn is_row_major(axes: Triple) -> bool
    ensures { IsTrue result ↔ IsRowMajor (listed axes) }
{
    let row = axes.third.extent as u128;
    let plane = axes.second.extent as u128 * row;
    steps_by(axes.third, 1) && steps_by(axes.second, row) && steps_by(axes.first, plane)
}

/// Whether the items stand one behind another in row-major order, if there are any.
pub fn is_compact(axes: Triple) -> bool
    ensures { IsTrue result ↔ IsCompact (listed axes) }
{
    has_none(axes) || is_row_major(axes)
}
