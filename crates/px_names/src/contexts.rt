//! The nodes of a module in their contexts.

ghost use Rattle.std.specs.Prelude.{◌≡◌, if◌then◌else◌, nat_lt};
ghost use Rattle.px_walk.specs.HeadForms.{form_of, function_form};
ghost use Rattle.px_walk.specs.Nodes.{rose_of};
ghost use Rattle.px_names.specs.Contexts.{count_of_result, count_of_exception, within_function, role_behind_decorators, item_role, tested_role, role_below, down};

use px_walk::{ExceptionKind, FunctionHead, Head, ResultKind, TreeNode};

/// What a node of the tree is to what stands round it, as far as rules of names hang on it.
#[derive(Clone, Copy, PartialEq, Eq)]
pub enum Role {
    /// A statement of a function's own block.
    Body,
    /// A statement of a module or of an inner block, and what else is no expression.
    Block,
    /// What is assigned, or a list of such.
    Target,
    /// An expression that is read.
    Value,
    /// All that a `for` goes over.
    Head,
    /// The atom of a row of attributes, calls and subscripts.
    Atom,
    /// What stands in the `except` clause of a function, in which nothing is tested.
    Untested,
}

/// What the rules of names hang on besides a node.
#[derive(Clone, Copy, PartialEq, Eq)]
pub struct Context {
    /// The number of the function in whose parameters or body the node is; none in module code.
    pub function: Option<u32>,
    pub role: Role,
}

/// The context of what stands in a module.
pub(crate) const MODULE_CODE: Context = Context {
    function: None,
    role: Role::Block,
};

/// How many parts the type of a result is.
pub fn count_of_result(gives: ResultKind) -> usize
    ensures { result ≡ count_of_result gives }
{
    match gives {
        ResultKind::Unwritten => 0,
        ResultKind::Void => 0,
        ResultKind::Typed => 1,
    }
}

/// How many parts the value of an `except` clause is.
pub fn count_of_exception(exception: ExceptionKind) -> usize
    ensures { result ≡ count_of_exception exception }
{
    match exception {
        ExceptionKind::Unwritten => 0,
        ExceptionKind::Noexcept => 0,
        ExceptionKind::Except => 1,
        ExceptionKind::Maybe => 1,
        ExceptionKind::Any => 0,
    }
}

/// The context of a part of a function.
fn within_function(number: u32, f: FunctionHead<'_>, k: usize) -> Context
    ensures { result ≡ within_function number (function_form f.entry) k }
{
    if k < f.decorators {
        return MODULE_CODE;
    }
    Context {
        function: Some(number),
        role: role_behind_decorators(f, k - f.decorators),
    }
}

/// The role of a part of a function, counted from behind its decorators.
fn role_behind_decorators(f: FunctionHead<'_>, k: usize) -> Role
    ensures { result ≡ role_behind_decorators (function_form f.entry) k }
{
    let typed = count_of_result(f.gives);
    if k < typed {
        return Role::Block;
    }
    let k = k - typed;
    if k < f.params {
        return Role::Block;
    }
    if k - f.params < count_of_exception(f.exception) {
        return Role::Untested;
    }
    Role::Body
}

/// The one role for the first parts, so many, and the other for those behind them.
fn if_below(k: usize, count: usize, first: Role, behind: Role) -> Role
    ensures { result ≡ (if nat_lt k count then first else behind) }
{
    if k < count { first } else { behind }
}

/// The role of an item of a list.
fn item_role(role: Role) -> Role
    ensures { result ≡ item_role role }
{
    match role {
        Role::Target => Role::Target,
        _ => Role::Value,
    }
}

/// The role of a part of a node that is tested, by the node's own.
fn tested_role(role: Role, head: Head<'_>, k: usize) -> Role
    ensures { result ≡ tested_role role (form_of head.entry) k }
{
    match head {
        Head::Module(_) => Role::Block,
        Head::Assign(targets) => if_below(k, targets, Role::Target, Role::Value),
        Head::Augment(_) => if_below(k, 1, Role::Target, Role::Value),
        Head::If(_, _) => Role::Block,
        Head::Arm => if_below(k, 1, Role::Value, Role::Block),
        Head::While => if_below(k, 1, Role::Value, Role::Block),
        Head::For => {
            let behind = if_below(k, 2, Role::Head, Role::Block);
            if_below(k, 1, Role::Target, behind)
        }
        Head::WithGil => Role::Block,
        Head::WithNogil => Role::Block,
        Head::Tuple => item_role(role),
        Head::Row => if_below(k, 1, Role::Atom, Role::Value),
        _ => Role::Value,
    }
}

/// The role of a part of a node, by the node's own.
fn role_below(role: Role, head: Head<'_>, k: usize) -> Role
    ensures { result ≡ role_below role (form_of head.entry) k }
{
    match role {
        Role::Untested => Role::Untested,
        _ => tested_role(role, head, k),
    }
}

/// The context of a part of a node; the first part has number 0.
pub(crate) fn down(context: Context, node: TreeNode<'_>, k: usize) -> Context
    ensures { result ≡ down context (rose_of node.entry) k }
{
    match node.head() {
        Head::Function(f) => within_function(node.number(), f, k),
        head => Context {
            function: context.function,
            role: role_below(context.role, head, k),
        },
    }
}
