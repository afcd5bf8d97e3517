use px_base::{Bytes, Fault, Numbers};

/// How a module ends.
#[derive(Drop)]
pub enum End {
    /// It ran to the end of its code.
    Done,
    /// It raised a fault that nothing in it took.
    Raised(Fault),
    /// It had no turn left for the next turn of a loop or call.
    Spent,
}

/// What a module does: how it ends, the bytes that it prints, and the buffers that are released, in their order.
#[derive(Drop)]
pub struct Outcome {
    pub end: End,
    pub output: Bytes,
    pub released: Numbers,
}

/// How a parallel loop ends.
#[derive(Drop)]
pub enum LoopEnd {
    /// Each iteration ran to its end.
    Over,
    /// An iteration left the loop by `break`.
    Broke,
    /// An iteration returned from the function, with this number; with 0 from a void function.
    Returned(i128),
    Raised(Fault),
    Spent,
}
