ghost use Rattle.std.specs.Prelude.{◌≡◌};
ghost use Rattle.px_tree.specs.TypedTypes.{type_of_conversion, type_of_head};

use crate::typed_values::{Comparing, Conversion, ValueType, ViewType};
use px_base::{BinOp, Builtin, CType, Kind, Method, Schedule, UnOp};

/// A keyword argument of `view.array`.
#[derive(Clone, Copy, PartialEq, Eq)]
pub enum ArrayKeyword {
    Shape,
    Itemsize,
    Format,
    Mode,
}

/// A node of the typed tree without its parts. Each variant says which parts it has; those of a statement are in the order of the
/// text. Numbers count from 0.
///
/// A value that several nodes need is read once. The node that has it at hand gives it to some of its parts, which name it as
/// `Given`: `Steps` and `Comparisons` to each part behind the first, `AssignEach` and `Unpack` to each but the last, `Over`, and
/// `Range` over a list of targets, to the first, `Augment` to the last, `Handler` to its assignment. A `Given` is the value of the
/// nearest node round it that gives one to the part in which it stands. It has the number of the node that reads it, and the place
/// of the value.
///
/// What has no number in the parse tree (an item of a subscript, a keyword, a size of a parallel loop) has that of the row or the
/// loop in which it stands.
#[derive(Clone, Copy)]
pub enum TypedHead {
    // ---- values
    /// A number of a C type that is written, or `True` or `False` as a `bint`.
    Literal(CType, i128),
    /// The size of a type, a `size_t`.
    Sizeof(CType),
    /// A constant of the module, as an object.
    Constant(usize),
    /// A variable of the function, by its place among the locals, and its type.
    Local(usize, ValueType),
    /// A name of the module, by its place among these.
    ModuleName(usize),
    /// The value at hand, and its type.
    Given(ValueType),
    /// The value, as it is given to the comparison behind this one, and its type.
    Kept(ValueType),
    /// A conversion that the rules ask for: the value, which has another type.
    Converted(Conversion),
    /// A cast that is written, and its type: the value, which has that type.
    Cast(ValueType),
    /// Two steps or more, each of which may read the value of the step before as `Given`, and the type of the last, whose value is
    /// that of the node. They are the operators of a chain, or what stands behind an atom.
    Steps(ValueType),
    // ---- operators
    /// The operand, of that type.
    Unary(UnOp, CType),
    /// The operands, of that type but for the count of a shift, which is of any C type; and whether `//` and `%` truncate.
    Binary(BinOp, CType, bool),
    /// The operands.
    Compare(Comparing),
    /// Two comparisons or more, each of which may read what the one before keeps as `Given`. It is a `bint`: whether all hold, and
    /// those behind one that doesn't aren't made.
    Comparisons,
    /// The operand, a `bint`.
    Not,
    /// The two operands, of that type.
    And(ValueType),
    /// The two operands, of that type.
    Or(ValueType),
    /// The value, the test, which is a `bint`, and the other value; both values are of that type.
    Conditional(ValueType),
    // ---- calls
    /// A call of a function of the module, by its place among these, and the type of its result: the arguments, each of the type of
    /// its parameter.
    Call(usize, ValueType),
    /// The operand, of that type.
    Abs(CType),
    /// The operands, two or more, of that type.
    Min(CType),
    /// The operands, two or more, of that type.
    Max(CType),
    /// The number of the member that runs this, an `int`. It has no parts.
    ThreadId,
    // ---- objects
    /// The operand, an object.
    ObjectUnary(UnOp),
    /// The operands, two objects.
    ObjectBinary(BinOp),
    /// The items, objects.
    Tuple,
    /// The items, objects.
    List,
    /// The keys, each with its value behind it; objects.
    Dict,
    /// `a[b]` of objects: these two.
    Item,
    /// `a[b:c:d]`, and which bounds are written: the object and these, which are C values or objects.
    Part(bool, bool, bool),
    /// The object and the arguments, objects.
    Method(Method),
    /// A builtin on objects: the arguments, objects.
    Builtin(Builtin),
    // ---- views
    /// An element of a view, its type, and whether an index below 0 counts from the end: the view and an index for each axis, of a C
    /// type.
    Element(CType, bool),
    /// What a subscript picks from a view, its type, and whether an index below 0 counts from the end: the view and the items.
    ViewPart(ViewType, bool),
    /// An item of a subscript of a view: the index, of a C type.
    Index,
    /// An item of a subscript of a view, and which bounds are written: these, of C types.
    Slice(bool, bool, bool),
    /// `None` as an item of a subscript of a view. It has no parts.
    NewAxis,
    /// `...` as an item of a subscript of a view. It has no parts.
    Ellipsis,
    /// `.T`, and its type: the view.
    Transposed(ViewType),
    /// `.copy()`, and its type: the view.
    Copied(ViewType),
    /// `len` of a view: the view.
    Length,
    /// `.shape[k]`: the view.
    Extent(u8),
    /// `view.array`: its arguments in the order of the text, each under its keyword.
    Array,
    /// The value, an object.
    Keyword(ArrayKeyword),
    // ---- statements
    /// An expression alone, of any type.
    Expression,
    /// The target and the value, which has its type. A target is a variable, a module name, an item or a part of an object, an
    /// element, or a part of a view, to which a value of the element type or a view is assigned.
    Assign,
    /// One value for several targets: an assignment to each from the left, which reads the value as `Given`, and the value.
    AssignEach,
    /// Targets in a list: an assignment to each, which reads its item as `Given`, and the object with the items.
    Unpack,
    /// `target op= value`: the target, and the value that it has then, in which the one that it had is `Given`.
    Augment(BinOp),
    /// The variables of a `cdef`.
    Declare,
    /// A declared variable, by its place among the locals, and its type: the value that it is given, of that type, if any.
    Declarator(usize, ValueType),
    Pass,
    Break,
    Continue,
    /// The value, of the type of the function's result, if any.
    Return,
    /// The text, an object, if any.
    Raise(Kind),
    /// The fault that the innermost clause round it handles is raised again. It has no parts.
    Reraise,
    /// So many clauses, and whether `else` and `finally` stand behind them: a `Block` with the statements of its body, the clauses, and
    /// a `Block` for each of these two.
    Try(usize, bool, bool),
    /// The statements.
    Block,
    /// A clause of `try` that names so many kinds, and whether it assigns the text of the fault: a `Catches` or `CatchesAll` for each
    /// kind, the assignment, which reads the text as `Given`, and the statements. A clause that names none takes each fault.
    Handler(usize, bool),
    /// It has no parts.
    Catches(Kind),
    /// `Exception`. It has no parts.
    CatchesAll,
    Global,
    /// So many arms, and the statements of `else`, where the flag says that there is one.
    If(usize, bool),
    /// The test, which is a `bint`, and the statements.
    Arm,
    /// The test, which is a `bint`, and the statements.
    While,
    /// A loop over `range` with so many arguments: the target, to which each number is given in its type, these, which are of C types,
    /// and the statements. For a list of targets an `Unpack` stands first, which reads the number as `Given`, an object.
    Range(usize),
    /// A loop over an object: the assignment of the target, which reads the item as `Given`, the object and the statements.
    Over,
    /// A parallel loop: the index, so many arguments, and the statements. Of the arguments, which stand in the order of the text,
    /// those of `chunksize` and `num_threads` are parts of `ChunkSize` and `TeamSize`; all are of C types. The flag says that
    /// `nogil` is true.
    Parallel(usize, bool, Schedule),
    /// The number.
    ChunkSize,
    /// The number.
    TeamSize,
    /// The statements.
    WithGil,
    /// The statements.
    WithNogil,
    /// A block that each member of a team runs, and whether the size of the team is written: a `TeamSize` if so, and the statements.
    ParallelBlock(bool),
}

impl Conversion {
    /// The type of what a conversion gives.
    pub fn value_type(self) -> ValueType
        ensures { result ≡ type_of_conversion self }
    {
        match self {
            Conversion::ToC(t) => ValueType::C(t),
            Conversion::ToObject(_) => ValueType::Object,
            Conversion::FromObject(t) => ValueType::C(t),
            Conversion::Truth => ValueType::C(CType::Bint),
            Conversion::ViewOfObject(t) => ValueType::View(t),
            Conversion::ViewOfView(t) => ValueType::View(t),
        }
    }
}

impl TypedHead {
    /// The type of a node's value; a statement and a part of an expression have none.
    pub fn value_type(self) -> ValueType
        ensures { result ≡ type_of_head self }
    {
        match self {
            TypedHead::Literal(t, _) => ValueType::C(t),
            TypedHead::Sizeof(_) => ValueType::C(CType::SizeT),
            TypedHead::Constant(_) => ValueType::Object,
            TypedHead::Local(_, t) => t,
            TypedHead::ModuleName(_) => ValueType::Object,
            TypedHead::Given(t) => t,
            TypedHead::Kept(t) => t,
            TypedHead::Converted(conversion) => conversion.value_type(),
            TypedHead::Cast(t) => t,
            TypedHead::Steps(t) => t,
            TypedHead::Unary(_, t) => ValueType::C(t),
            TypedHead::Binary(_, t, _) => ValueType::C(t),
            TypedHead::Compare(_) => ValueType::C(CType::Bint),
            TypedHead::Comparisons => ValueType::C(CType::Bint),
            TypedHead::Not => ValueType::C(CType::Bint),
            TypedHead::And(t) => t,
            TypedHead::Or(t) => t,
            TypedHead::Conditional(t) => t,
            TypedHead::Call(_, t) => t,
            TypedHead::Abs(t) => ValueType::C(t),
            TypedHead::Min(t) => ValueType::C(t),
            TypedHead::Max(t) => ValueType::C(t),
            TypedHead::ThreadId => ValueType::C(CType::Int),
            TypedHead::ObjectUnary(_) => ValueType::Object,
            TypedHead::ObjectBinary(_) => ValueType::Object,
            TypedHead::Tuple => ValueType::Object,
            TypedHead::List => ValueType::Object,
            TypedHead::Dict => ValueType::Object,
            TypedHead::Item => ValueType::Object,
            TypedHead::Part(_, _, _) => ValueType::Object,
            TypedHead::Method(_) => ValueType::Object,
            TypedHead::Builtin(_) => ValueType::Object,
            TypedHead::Element(t, _) => ValueType::C(t),
            TypedHead::ViewPart(t, _) => ValueType::View(t),
            TypedHead::Transposed(t) => ValueType::View(t),
            TypedHead::Copied(t) => ValueType::View(t),
            TypedHead::Length => ValueType::C(CType::SsizeT),
            TypedHead::Extent(_) => ValueType::C(CType::SsizeT),
            TypedHead::Array => ValueType::Object,
            TypedHead::Index => ValueType::Void,
            TypedHead::Slice(_, _, _) => ValueType::Void,
            TypedHead::NewAxis => ValueType::Void,
            TypedHead::Ellipsis => ValueType::Void,
            TypedHead::Keyword(_) => ValueType::Void,
            TypedHead::Expression => ValueType::Void,
            TypedHead::Assign => ValueType::Void,
            TypedHead::AssignEach => ValueType::Void,
            TypedHead::Unpack => ValueType::Void,
            TypedHead::Augment(_) => ValueType::Void,
            TypedHead::Declare => ValueType::Void,
            TypedHead::Declarator(_, _) => ValueType::Void,
            TypedHead::Pass => ValueType::Void,
            TypedHead::Break => ValueType::Void,
            TypedHead::Continue => ValueType::Void,
            TypedHead::Return => ValueType::Void,
            TypedHead::Raise(_) => ValueType::Void,
            TypedHead::Reraise => ValueType::Void,
            TypedHead::Try(_, _, _) => ValueType::Void,
            TypedHead::Block => ValueType::Void,
            TypedHead::Handler(_, _) => ValueType::Void,
            TypedHead::Catches(_) => ValueType::Void,
            TypedHead::CatchesAll => ValueType::Void,
            TypedHead::Global => ValueType::Void,
            TypedHead::If(_, _) => ValueType::Void,
            TypedHead::Arm => ValueType::Void,
            TypedHead::While => ValueType::Void,
            TypedHead::Range(_) => ValueType::Void,
            TypedHead::Over => ValueType::Void,
            TypedHead::Parallel(_, _, _) => ValueType::Void,
            TypedHead::ChunkSize => ValueType::Void,
            TypedHead::TeamSize => ValueType::Void,
            TypedHead::WithGil => ValueType::Void,
            TypedHead::WithNogil => ValueType::Void,
            TypedHead::ParallelBlock(_) => ValueType::Void,
        }
    }
}
