use px_base::{BinOp, CType, Schedule, Sequence};

/// A subscript of a written view in the body of a parallel loop: what is added to k times the index, and the type of that sum.
#[derive(Clone, Copy)]
pub struct IndexUse {
    pub c: i64,
    pub ctype: CType,
}

/// The subscripts of a written view, in the order of the text.
pub type IndexUses = Sequence<IndexUse>;

/// Which cells of a written view an iteration owns: those whose index on an axis is k times the index of the loop and the number of
/// a use more; k isn't 0.
#[derive(Drop)]
pub struct Owner {
    pub axis: u8,
    pub k: i64,
    pub uses: IndexUses,
}

/// A view variable of the body of a parallel loop, by the number of its declaration, and its owner where it is written.
#[derive(Drop)]
pub struct OwnedView {
    pub variable: u32,
    pub owned: Option<Owner>,
}

/// The view variables that the body of a parallel loop uses, in the order of their first use.
pub type Ownership = Sequence<OwnedView>;

/// What a copy of a variable in a parallel loop is for (Cython user guide, Using Parallelism).
#[derive(Clone, Copy)]
pub enum Role {
    /// The variable is combined with the copies of all iterations by this operator.
    Reduction(BinOp),
    /// The variable has the value of the last iteration that assigned it.
    Last,
    /// Nothing is said of the variable behind the loop.
    Private,
}

/// A copy of a variable: its register, its type, and what it is for.
#[derive(Clone, Copy)]
pub struct PlanCopy {
    pub register: u32,
    pub ctype: CType,
    pub role: Role,
}

/// The copies of the variables of a parallel loop.
pub type PlanCopies = Sequence<PlanCopy>;

/// A view variable of a parallel loop: its register, and its owner where it is written.
#[derive(Drop)]
pub struct PlanView {
    pub register: u32,
    pub owned: Option<Owner>,
}

/// The view variables of a parallel loop, in the order of their first use.
pub type PlanViews = Sequence<PlanView>;

/// The registers of the arguments of `prange`: its start, its stop and its step, `num_threads` and `chunksize` where they are
/// given; and that of the index.
#[derive(Clone, Copy)]
pub struct LoopArgs {
    pub first: u32,
    pub past: u32,
    pub by: u32,
    pub team: Option<u32>,
    pub size: Option<u32>,
    pub counter: u32,
}

/// What is kept of a parallel loop beside its code.
#[derive(Drop)]
pub struct LoopPlan {
    /// The function in which it stands.
    pub function: u32,
    /// The first instruction of its body in the code of that function.
    pub start: u32,
    /// The type of the index.
    pub index: CType,
    pub schedule: Schedule,
    pub args: LoopArgs,
    /// Whether its body takes the lock, itself or through calls.
    pub takes_lock: bool,
    /// The greatest number of frames that the calls of its body open, or `None` where the body reaches a recursion.
    pub depth: Option<u32>,
    pub copies: PlanCopies,
    pub views: PlanViews,
}

/// The parallel loops of a module, in the order of the text.
pub type LoopPlans = Sequence<LoopPlan>;
