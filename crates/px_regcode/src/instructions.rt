use crate::operands::{Order, Register, RegisterList, StopKind};
use px_base::{BinOp, Builtin, CType, CmpOp, Kind, Method, Sequence, UnOp};

/// The kinds of fault that an instruction names.
pub type Kinds = Sequence<Kind>;

/// An instruction of register code, with its operands in the order in which a listing has them.
///
/// A register holds a whole number, a reference to an object, a view, a fault, or nothing. `d` is the register that is written, and
/// `a`, `b`, `c` are registers that are read. The number of an instruction counts from 0 in its function, that of a function from 0
/// with module code as the first, and those of constants, parallel loops and names of the module from 0.
///
/// An *object instruction* needs the lock of the interpreter (Cython user guide, Cython and the GIL); they stand behind the others.
#[derive(Drop)]
pub enum Instr {
    // ---- numbers
    /// `const d n`: sets d to n, which lies from -2^63 to 2^64 - 1.
    Const(Register, i128),
    /// `move d a`: sets d to the value of a. A reference, a view or a fault leaves a empty.
    Move(Register, Register),
    /// `binary op T d a b cdiv`: the operator on numbers of the type T, or its fault (ISO C11 6.5.5 to 6.5.12); the count of a shift is
    /// any number. The flag says that `//` and `%` truncate (Cython user guide, Compiler directives, `cdivision`).
    Binary(BinOp, CType, Register, Register, Register, bool),
    /// `unary op T d a`
    Unary(UnOp, CType, Register, Register),
    /// `compare op T d a b`: 1 where the comparison of numbers of the type T holds, and 0 otherwise.
    Compare(CmpOp, CType, Register, Register, Register),
    /// `convert T d a`: a as a number of the type T (ISO C11 6.3.1.3, and 6.3.1.2 for `bint`).
    Convert(CType, Register, Register),
    /// `magnitude T d a`: a without its sign, wrapped to the type T.
    Magnitude(CType, Register, Register),
    // ---- order, calls and faults
    /// `jump @k`
    Jump(u32),
    /// `branch a @k @j`: goes on at k where a isn't 0, and else at j.
    Branch(Register, u32, u32),
    /// `turn`: spends a turn, or ends the run where none is left.
    Turn,
    /// `call f d a...`: spends a turn, and calls the function f; its result, if any, is written into d.
    Call(u32, Option<Register>, RegisterList),
    /// `return a`: ends the function with the result a.
    Return(Register),
    /// `finish`: ends a function without a result, or the module.
    Finish,
    /// `handle @k`: a fault of this frame goes on at k from now on; it then clears this handler.
    Handle(u32),
    /// `unhandle`: faults of this frame end it from now on.
    Unhandle,
    /// `throw`: ends the frame with its fault, the last one that went to its handler.
    Throw,
    /// `caught d`: moves the frame's fault into d.
    Caught(Register),
    /// `takes a K... @k`: goes on at k where the fault in a is of none of the kinds.
    Takes(Register, Kinds, u32),
    /// `forget a`: empties a of a fault.
    Forget(Register),
    // ---- registers
    /// `unset d`: empties d.
    Unset(Register),
    /// `need a`: a fault where a is empty.
    Need(Register),
    // ---- views
    /// `element T d a i...`: the element of the view a at these indices, as a number of the type T.
    Element(CType, Register, Register, RegisterList),
    /// `put T a i... b`: writes b, as a number of the type T, into the cell of the view a at these indices.
    Put(CType, Register, RegisterList, Register),
    /// `pick d a axis i wrap`: the part of the view a at the index i of an axis. The flag says that an index below 0 counts from the
    /// end (Cython user guide, Compiler directives, `wraparound`).
    Pick(Register, Register, u8, Register, bool),
    /// `slice d a axis b c e`: the part of the view a from b to c by the step e on an axis.
    Slice(Register, Register, u8, Option<Register>, Option<Register>, Option<Register>),
    /// `axis d a n`: the view a with an axis more before its axis n.
    Axis(Register, Register, u8),
    /// `turned d a`: the view a with its axes in reverse order.
    Turned(Register, Register),
    /// `extent d a axis`: how many items the view a has on an axis.
    Extent(Register, Register, u8),
    /// `ordered a mode`: a fault where the cells of the view a aren't contiguous in that order.
    Ordered(Register, Order),
    /// `acquire a`: makes the view a a holder of its buffer.
    Acquire(Register),
    /// `release a`: takes a holder off the buffer of the view a, if there is one, and empties a.
    Release(Register),
    /// `fill a b`: writes b into all cells of the view a.
    Fill(Register, Register),
    /// `spread d a`: writes the elements of the view a into the cells of the view d, or a fault where their shapes differ.
    Spread(Register, Register),
    // ---- the lock
    /// `ticket`: draws a ticket for the lock.
    Ticket,
    /// `enter`: takes the lock where the ticket is served; otherwise it is tried again.
    Enter,
    /// `leave`: gives the lock back.
    Leave,
    // ---- parallel loops
    /// `loop n d @k`: tests and runs the parallel loop n; behind a `return` in it, whose value is written into d, it goes on at k.
    Loop(u32, Option<Register>, u32),
    /// `look`: ends the member where an iteration has stopped the loop.
    Look,
    /// `claim`: takes the member's next chunk where the last one is used up; ends the member where none is left.
    Claim,
    /// `begin`: begins the next iteration of the chunk: sets the index, and opens the iteration's copies.
    Begin,
    /// `end`: ends the iteration, and goes on at the start of the loop's code.
    End,
    /// `stop kind a`: ends the iteration, and stops the loop.
    Stop(StopKind, Option<Register>),
    /// `reduce op T x a`: changes the reduction copy x by a.
    Reduce(BinOp, CType, Register, Register),
    /// `members d`: the number of members of the run's teams.
    Members(Register),
    // ---- object instructions
    /// `text d n`: the constant n, a text or None, as an object.
    Text(Register, u32),
    /// `wide d n`: the constant n, a number, as an object.
    Wide(Register, u32),
    /// `box T d a`: a number of the type T as an int, of `bint` as a bool.
    Box(CType, Register, Register),
    /// `unbox T d a`: the int or bool a as a number of the type T, or, without a type, as it is.
    Unbox(Option<CType>, Register, Register),
    /// `truth d a`: 1 where the object a counts as true, and 0 otherwise.
    Truth(Register, Register),
    /// `fetch d n`: the object that the name n of the module stands for.
    Fetch(Register, u32),
    /// `keep n a`: the name n of the module stands for the object a from now on.
    Keep(u32, Register),
    /// `share d a`: a second reference to the object a.
    Share(Register, Register),
    /// `drop a`: lets the reference a go, if there is one.
    Drop(Register),
    /// `obinary op d a b`
    ObjectBinary(BinOp, Register, Register, Register),
    /// `ounary op d a`
    ObjectUnary(UnOp, Register, Register),
    /// `ocompare op d a b`: 1 where the comparison holds, and 0 otherwise.
    ObjectCompare(CmpOp, Register, Register, Register),
    /// `oin d a b`: 1 where a is in b, and 0 otherwise.
    ObjectIn(Register, Register, Register),
    /// `oget d a b`: `a[b]`
    ObjectGet(Register, Register, Register),
    /// `oset a b c`: `a[b] = c`
    ObjectSet(Register, Register, Register),
    /// `ocut d a b c e`: `a[b:c:e]`, with numbers as bounds and step.
    ObjectCut(Register, Register, Option<Register>, Option<Register>, Option<Register>),
    /// `list d a...`
    List(Register, RegisterList),
    /// `tuple d a...`
    Tuple(Register, RegisterList),
    /// `dict d a...`: each key stands before its value.
    Dict(Register, RegisterList),
    /// `unpack n a d...`: the n items of the object a.
    Unpack(u32, Register, RegisterList),
    /// `method m d a b...`
    Method(Method, Register, Register, RegisterList),
    /// `builtin m d a...`
    Builtin(Builtin, Register, RegisterList),
    /// `print a...`
    Print(RegisterList),
    /// `input d a...`
    Input(Register, RegisterList),
    /// `raise K a`: raises the fault of this kind with the text of a, or without one.
    Raise(Kind, Option<Register>),
    /// `walk d x a`: what a loop over the object a goes over, and the place 0.
    Walk(Register, Register, Register),
    /// `next d a x @k`: the item of a at the place x, which is one more then; where there is none it goes on at k.
    Next(Register, Register, Register, u32),
    /// `array d a...`: an array of zeros, by its shape, its item size, its format and its mode, if any.
    Array(Register, RegisterList),
    /// `view T d a rank`: the array a as a view of elements of the type T.
    View(CType, Register, Register, u8),
    /// `copy d a`: a view of a new buffer with the elements of the view a.
    Copy(Register, Register),
    /// `said d a`: the text of the fault a as an object.
    Said(Register, Register),
    /// `rethrow a`: raises a copy of the fault a.
    Rethrow(Register),
}

/// The instructions of a function.
pub type Instrs = Sequence<Instr>;
