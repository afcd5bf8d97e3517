ghost use Rattle.std.specs.Prelude.{◌≡◌, ◌<◌, ◌≤◌, pos};
ghost use Rattle.px_views.specs.Strides.{AreCells, axes_of, places_of};

use crate::arrays::{extent_at, product, reversed, rows_of};
use crate::axes::{Axis, common, item, lowered, moved, raised, scaled};
use crate::faults::{index_error, step_error};
use crate::slices::cut_of;
use crate::triples::{Triple, has_none, is_compact, one_item, replaced, turned, with_one, without};
use px_base::{CType, Fault};

/// A view of an array: the cells of its buffer that strides reach from its offset. Strides count elements.
#[derive(Clone, Copy)]
pub struct StridedView {
    /// The number of the buffer, from 1.
    pub buffer: u32,
    /// The type of the elements.
    pub element: CType,
    /// How many elements the buffer has.
    pub size: u64,
    /// The place of the cell with the index 0 on each axis.
    pub offset: u64,
    /// The number of axes, 1 to 3.
    pub rank: u8,
    /// How many items stand along each axis. What stands behind the axes says nothing.
    pub shape: [u64; 3],
    /// How many places are from an item to the next, along each axis.
    pub strides: [i64; 3],
    ghost some_axes: { 1 ≤ rank },
    ghost few_axes: { rank ≤ 3 },
    ghost limit: { size ≤ 67108864 },
    ghost cells: { AreCells size (places_of (pos offset) (axes_of rank shape strides)) },
}

impl StridedView {
    ghost use Rattle.std.specs.Prelude.{take, drop, slice_index, slice_set, IfOk, IsTrue, ◌↔◌, ◌≢◌, false};
    ghost use Rattle.px_model.specs.Sequences.{slice_indices};
    ghost use Rattle.px_model.specs.Views.{AreConsecutive, array_cells, buffer_cells, cell_count, element_of, index_fault, indexed, pick_of, slice_of, sliced, step_fault, transposed, with_axis};
    ghost use Rattle.px_views.specs.Answers.{IsExtent, IsGreatestDivisor};
    ghost use Rattle.px_views.specs.Cells.{IsSameArray, axes_in, cell_given, cells_given, view_cells};
    ghost use Rattle.px_views.specs.Strides.{axis_at, step_sizes};
    ghost use Rattle.px_views.specs.Triples.{listed, triple};
    ghost use Rattle.px_views.specs.Walks.{walk};

    /// The view of a whole array, whose cells stand in its buffer in row-major order, or in column-major order.
    pub fn whole(
        buffer: u32,
        element: CType,
        rank: u8,
        shape: [u64; 3],
        fortran: bool,
    ) -> StridedView
        requires some_axes { 1 ≤ rank }
        requires few_axes { rank ≤ 3 }
        requires few_cells { cell_count (take rank shape) ≤ 67108864 }
        ensures cells { view_cells result ≡ array_cells buffer (take rank shape) fortran }
        ensures buffer { result.buffer ≡ buffer }
        ensures element { result.element ≡ element }
        ensures size { result.size ≡ cell_count (take rank shape) }
    {
        if fortran {
            StridedView::in_rows(buffer, element, rank, reversed(shape, rank)).transpose()
        } else {
            StridedView::in_rows(buffer, element, rank, shape)
        }
    }

    fn in_rows(buffer: u32, element: CType, rank: u8, shape: [u64; 3]) -> StridedView
        requires some_axes { 1 ≤ rank }
        requires few_axes { rank ≤ 3 }
        requires few_cells { cell_count (take rank shape) ≤ 67108864 }
        ensures cells { view_cells result ≡ array_cells buffer (take rank shape) false }
        ensures buffer { result.buffer ≡ buffer }
        ensures element { result.element ≡ element }
        ensures size { result.size ≡ cell_count (take rank shape) }
    {
        let first = extent_at(shape, rank, 0);
        let second = extent_at(shape, rank, 1);
        let third = extent_at(shape, rank, 2);
        let axes = rows_of(first, second, third);
        StridedView::of_axes(
            buffer,
            element,
            product(first, product(second, third)),
            0,
            rank,
            axes,
        )
    }

    /// The place in its buffer of the cell with these indices, one for each axis. One below 0 counts from the end where
    /// `wraparound` is on.
    ///
    /// # Errors
    /// `IndexError` with the number of the first axis whose index is out of range.
    #[inline]
    pub fn place(&self, at: [i128; 3], wraparound: bool) -> Result<u64, Fault>
        ensures { cell_given self.now.buffer result ≡ element_of (view_cells self.now) (take self.now.rank at) wraparound }
    {
        self.first_place(at, wraparound)
    }

    #[inline(always)]
    fn first_place(&self, at: [i128; 3], wraparound: bool) -> Result<u64, Fault>
        ensures { result ≡ walk 0 wraparound (axes_in self.now) (take self.now.rank at) self.now.offset }
    {
        match item(at[0], self.shape[0], wraparound) {
            Some(i) => self.second_place(moved(self.offset, i, self.strides[0]), at, wraparound),
            None => Err(index_error(0)),
        }
    }

    #[inline(always)]
    fn second_place(&self, from: u64, at: [i128; 3], wraparound: bool) -> Result<u64, Fault>
        ensures { result ≡ walk 1 wraparound (drop 1 (axes_in self.now)) (drop 1 (take self.now.rank at)) from }
    {
        if self.rank == 1 {
            return Ok(from);
        }
        match item(at[1], self.shape[1], wraparound) {
            Some(i) => self.third_place(moved(from, i, self.strides[1]), at, wraparound),
            None => Err(index_error(1)),
        }
    }

    #[inline(always)]
    fn third_place(&self, from: u64, at: [i128; 3], wraparound: bool) -> Result<u64, Fault>
        requires { 2 ≤ self.now.rank }
        ensures { result ≡ walk 2 wraparound (drop 2 (axes_in self.now)) (drop 2 (take self.now.rank at)) from }
    {
        if self.rank == 2 {
            return Ok(from);
        }
        match item(at[2], self.shape[2], wraparound) {
            Some(i) => Ok(moved(from, i, self.strides[2])),
            None => Err(index_error(2)),
        }
    }

    /// The view with an index on one axis, which goes away.
    ///
    /// # Errors
    /// `IndexError` with the number of the axis where the index is out of range.
    pub fn pick(&self, axis: u8, at: i128, wraparound: bool) -> Result<StridedView, Fault>
        requires several { 1 < self.now.rank }
        requires there { axis < self.now.rank }
        ensures cells { cells_given result ≡ pick_of (view_cells self.now) axis at wraparound }
        ensures array { IfOk result (IsSameArray self.now) }
    {
        match item(at, self.axis(axis).extent, wraparound) {
            Some(i) => Ok(self.picked(axis, i)),
            None => Err(index_error(axis)),
        }
    }

    fn picked(&self, axis: u8, i: u64) -> StridedView
        requires several { 1 < self.now.rank }
        requires there { axis < self.now.rank }
        requires within { i < (axis_at (axes_in self.now) axis).extent }
        ensures cells { view_cells result ≡ indexed axis i (view_cells self.now) }
        ensures array { IsSameArray self.now result }
    {
        let offset = moved(self.offset, i, self.axis(axis).stride);
        self.with_axes(offset, self.rank - 1, without(self.axes(), axis))
    }

    /// The view with a slice on one axis. Bounds are clipped, and one below 0 counts from the end; the step is 1 where there is none.
    ///
    /// # Errors
    /// `ValueError` with the number of the axis where the step is 0.
    pub fn slice(
        &self,
        axis: u8,
        from: Option<i128>,
        to: Option<i128>,
        step: Option<i128>,
    ) -> Result<StridedView, Fault>
        requires there { axis < self.now.rank }
        ensures cells { cells_given result ≡ slice_of (view_cells self.now) axis from to step }
        ensures array { IfOk result (IsSameArray self.now) }
    {
        let step = step.unwrap_or(1);
        if step == 0 {
            return Err(step_error(axis));
        }
        Ok(self.cut(axis, from, to, step))
    }

    fn cut(&self, axis: u8, from: Option<i128>, to: Option<i128>, step: i128) -> StridedView
        requires there { axis < self.now.rank }
        requires nonzero { step ≢ pos 0 }
        ensures cells { view_cells result ≡ sliced axis (slice_indices (axis_at (axes_in self.now) axis).extent from to step) (view_cells self.now) }
        ensures array { IsSameArray self.now result }
    {
        let whole = self.axis(axis);
        let cut = cut_of(whole.extent, from, to, step);
        let part = Axis {
            extent: cut.count,
            stride: scaled(whole.stride, step),
        };
        let offset = moved(self.offset, cut.first, whole.stride);
        self.with_axes(offset, self.rank, replaced(self.axes(), axis, part))
    }

    /// The view with a new axis of one item, which has this number.
    pub fn new_axis(&self, axis: u8) -> StridedView
        requires few { self.now.rank < 3 }
        requires there { axis ≤ self.now.rank }
        ensures cells { view_cells result ≡ with_axis (view_cells self.now) axis }
        ensures array { IsSameArray self.now result }
    {
        self.with_axes(self.offset, self.rank + 1, with_one(self.axes(), axis))
    }

    /// The view with its axes in the other order.
    pub fn transpose(&self) -> StridedView
        ensures cells { view_cells result ≡ transposed (view_cells self.now) }
        ensures array { IsSameArray self.now result }
        ensures offset { result.offset ≡ self.now.offset }
    {
        self.with_axes(self.offset, self.rank, turned(self.axes(), self.rank))
    }

    /// The least and the greatest place of a cell, where there is one.
    pub fn extent(&self) -> Option<(u64, u64)>
        ensures { IsExtent (view_cells self.now).cells result }
    {
        let axes = self.axes();
        if has_none(axes) {
            return None;
        }
        let low = lowered(
            lowered(lowered(self.offset, axes.first), axes.second),
            axes.third,
        );
        let high = raised(
            raised(raised(self.offset, axes.first), axes.second),
            axes.third,
        );
        Some((low, high))
    }

    /// The greatest common divisor of the strides, without sign, of the axes with several items; 0 where there is none.
    pub fn step(&self) -> u64
        ensures { IsGreatestDivisor (step_sizes (axes_in self.now)) result }
    {
        let axes = self.axes();
        common(axes.first, common(axes.second, common(axes.third, 0)))
    }

    /// Whether the cells, in row-major order, are the places from the offset on.
    pub fn is_c(&self) -> bool
        ensures { IsTrue result ↔ AreConsecutive self.now.offset (view_cells self.now).cells }
    {
        is_compact(self.axes())
    }

    /// Whether the cells, in column-major order, are the places from the offset on.
    pub fn is_fortran(&self) -> bool
        ensures { IsTrue result ↔ AreConsecutive self.now.offset (transposed (view_cells self.now)).cells }
    {
        self.transpose().is_c()
    }

    /// The axes, filled up to three.
    fn axes(&self) -> Triple
        ensures { listed result ≡ triple (axes_in self.now) }
    {
        Triple {
            first: self.axis(0),
            second: self.axis(1),
            third: self.axis(2),
        }
    }

    fn axis(&self, number: u8) -> Axis
        requires { number < 3 }
        ensures { result ≡ axis_at (axes_in self.now) number }
    {
        if number < self.rank {
            Axis {
                extent: self.shape[number as usize],
                stride: self.strides[number as usize],
            }
        } else {
            one_item()
        }
    }

    /// A view of the same array.
    fn with_axes(&self, offset: u64, rank: u8, axes: Triple) -> StridedView
        requires some_axes { 1 ≤ rank }
        requires few_axes { rank ≤ 3 }
        requires cells { AreCells self.now.size (places_of (pos offset) (take rank (listed axes))) }
        ensures axes { axes_in result ≡ take rank (listed axes) }
        ensures offset { result.offset ≡ offset }
        ensures array { IsSameArray self.now result }
    {
        StridedView::of_axes(self.buffer, self.element, self.size, offset, rank, axes)
    }

    fn of_axes(
        buffer: u32,
        element: CType,
        size: u64,
        offset: u64,
        rank: u8,
        axes: Triple,
    ) -> StridedView
        requires some_axes { 1 ≤ rank }
        requires few_axes { rank ≤ 3 }
        requires limit { size ≤ 67108864 }
        requires cells { AreCells size (places_of (pos offset) (take rank (listed axes))) }
        ensures axes { axes_in result ≡ take rank (listed axes) }
        ensures offset { result.offset ≡ offset }
        ensures buffer { result.buffer ≡ buffer }
        ensures element { result.element ≡ element }
        ensures size { result.size ≡ size }
    {
        StridedView {
            buffer,
            element,
            size,
            offset,
            rank,
            shape: [axes.first.extent, axes.second.extent, axes.third.extent],
            strides: [axes.first.stride, axes.second.stride, axes.third.stride],
        }
    }
}
