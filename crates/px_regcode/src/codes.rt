use crate::instructions::Instrs;
use crate::operands::RegKind;
use px_base::{Chars, Numbers, Sequence};

/// The kinds of the parameters of a function.
pub type RegKinds = Sequence<RegKind>;

/// Whether a function begins with the lock held (Cython user guide, Cython and the GIL).
#[derive(Clone, Copy, PartialEq, Eq)]
pub enum Start {
    /// It is called with the lock alone.
    Held,
    /// It is called with the lock or without it: a `nogil` function, or one that takes the lock by itself.
    Any,
}

/// The code of a function, or of the module.
#[derive(Drop)]
pub struct Code {
    pub name: Chars,
    /// The kinds of the parameters, which stand in the first registers, in order.
    pub params: RegKinds,
    pub result: RegKind,
    pub start: Start,
    /// How many registers a frame of it has.
    pub registers: u32,
    pub instrs: Instrs,
    /// For each instruction the line, from 1, on which the statement or header begins that it stems from.
    pub lines: Numbers,
}

/// The code of a module, and behind it that of its functions in the order of the text.
pub type Codes = Sequence<Code>;
