use px_base::{CType, Chars, Sequence};

/// The name of an object.
#[derive(Clone, Copy, PartialEq, Eq)]
pub struct Serial {
    /// How many objects were made before it. It is never used again.
    pub number: u64,
    /// The object's place in its heap, which another object may have after it.
    pub key: usize,
}

/// What an array object is made of.
#[derive(Clone, Copy)]
pub struct ArrayInfo {
    /// The number of its buffer, from 1.
    pub buffer: u32,
    /// The type of the elements.
    pub element: CType,
    /// The number of axes, 1 to 3.
    pub rank: u8,
    /// How many items stand along each axis. What stands behind the axes says nothing.
    pub shape: [u64; 3],
    /// Whether the first index changes first in the buffer.
    pub fortran: bool,
}

/// Objects in their order.
pub type Serials = Sequence<Serial>;

/// Keys, each with its value, in their order.
pub type Pairs = Sequence<(Serial, Serial)>;

/// What an object is. It has a reference to an object for each serial in it.
pub enum Value {
    /// An `int`, from -2^127 to 2^127 - 1.
    Int(i128),
    /// A `bool`.
    Bool(bool),
    None,
    Str(Chars),
    List(Serials),
    Tuple(Serials),
    Dict(Pairs),
    Array(ArrayInfo),
}

impl Drop for Value {
    fn drop(self) {
        match self {
            Value::Int(number) => {}
            Value::Bool(truth) => {}
            Value::None => {}
            Value::Str(text) => {}
            Value::List(items) => {}
            Value::Tuple(items) => {}
            Value::Dict(pairs) => {}
            Value::Array(array) => {}
        }
    }
}
