//! What holds of the cells of views, each as the contract of a function that does nothing.
ghost use Rattle.std.specs.Prelude.{◌≡◌, ◌≢◌, ◌<◌, pos, All, false, length, map, slice_index};
ghost use Rattle.px_model.specs.Sequences.{slice_indices};
ghost use Rattle.px_model.specs.Views.{IsView, element_of, indexed, sliced, transposed};
ghost use Rattle.px_views.specs.Cells.{view_cells};
ghost use Rattle.px_views.specs.Laws.{IsIndexOf};

use crate::strided::StridedView;
use px_model::ViewCells;

/// A strided view has a cell for each index, all of them distinct and within its buffer.
pub fn strided_views_are_views(view: &StridedView)
    ensures view { IsView (view_cells view.now) }
    ensures below { All (λ cell. cell.place < view.now.size) (view_cells view.now).cells }
    ensures buffer { All (λ cell. cell.buffer ≡ view.now.buffer) (view_cells view.now).cells }
{}

/// To index a slice is to index the view once.
pub fn index_of_a_slice(
    view: &ViewCells,
    axis: usize,
    from: Option<i128>,
    to: Option<i128>,
    step: i128,
    i: usize,
)
    requires view { IsView view.now }
    requires there { axis < length view.now.shape }
    requires nonzero { step ≢ pos 0 }
    requires within { i < length (slice_indices (slice_index view.now.shape axis) from to step) }
    ensures { let indices = slice_indices (slice_index view.now.shape axis) from to step in indexed axis i (sliced axis indices view.now) ≡ indexed axis (slice_index indices i) view.now }
{}

/// A transposition twice gives the view back.
pub fn transposed_twice(view: &ViewCells)
    requires { IsView view.now }
    ensures { transposed (transposed view.now) ≡ view.now }
{}

/// Two cells of a view are equal only where their indices are.
pub fn cells_are_apart(view: &ViewCells, one: &[u64], other: &[u64])
    requires view { IsView view.now }
    requires one { IsIndexOf view.now.shape one.now }
    requires other { IsIndexOf view.now.shape other.now }
    ensures { element_of view.now (map pos one.now) false ≡ element_of view.now (map pos other.now) false → one.now ≡ other.now }
{}
