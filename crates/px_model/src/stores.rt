use px_base::{Bytes, CType, Chars, Numbers, Sequence};

/// What an array object is made of (Cython user guide, Typed Memoryviews): its buffer, from 1, the type of its elements, the extents
/// of its axes, 1 to 3 of them, and whether the first index changes first in its buffer.
#[derive(Drop)]
pub struct ArrayObject {
    pub buffer: u32,
    pub element: CType,
    pub shape: Numbers,
    pub fortran: bool,
}

/// What an object is (Python Language Reference, 3.1 and 3.2). Objects in it are named by their serial numbers.
#[derive(Drop)]
pub enum ObjectValue {
    /// An `int`, from -2^127 to 2^127 - 1.
    Int(i128),
    /// A `bool`.
    Bool(bool),
    None,
    Str(Chars),
    List(Numbers),
    Tuple(Numbers),
    /// The keys, each with its value, in the order in which they were put in.
    Dict(Sequence<(u64, u64)>),
    Array(ArrayObject),
}

/// The objects of a run, and what else only one that holds the interpreter lock may touch. Steps on objects are functions of it; lock
/// sections hand it on.
#[derive(Drop)]
pub struct Store {
    /// The objects in the order in which they were made: that with serial number n stands at place n, from 0. None is ever taken away.
    pub objects: Sequence<ObjectValue>,
    /// The object of each name of the module, by the name's place among these; none where it isn't assigned.
    pub names: Sequence<Option<u64>>,
    /// What was printed, at most 67,108,864 bytes.
    pub output: Bytes,
    /// The input that is left.
    pub input: Bytes,
    /// How many elements the arrays and copies have that were made, each counted as at least one; at most 67,108,864.
    pub elements: u64,
    /// How many buffers were made. They are numbered from 1.
    pub buffers: u32,
}
