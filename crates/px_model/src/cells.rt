use px_base::{Numbers, Sequence};

/// A cell of a buffer: the buffer's number, from 1, and the cell's place in it, from 0.
#[derive(Clone, Copy, PartialEq, Eq)]
pub struct Cell {
    pub buffer: u32,
    pub place: u64,
}

/// A view: the extents of its axes, and its cells in row-major order, in which the last index changes first.
#[derive(Drop)]
pub struct ViewCells {
    pub shape: Numbers,
    pub cells: Sequence<Cell>,
}

/// The words of the buffers: those of the buffer with number k stand at place k, one for each of its cells, in the order of their
/// places. Buffers are numbered from 1, and outside of a team what stands at place 0 is empty. A word is the number in its cell modulo
/// 2^64. They are part of the world that a loop gets and gives back.
pub type Cells = Sequence<Numbers>;
