//! Which statements have code, and the first one that has none.

ghost use Rattle.std.specs.Prelude.{◌≡◌, map, option_map, slice_get};
ghost use Rattle.px_walk.specs.Roses.{gathered};
ghost use Rattle.px_typed_walk.specs.TypedView.{rose_of_typed};
ghost use Rattle.px_types.specs.TypedModule.{function_kept};
ghost use Rattle.px_compile.specs.Fits.{types_of_locals};
ghost use Rattle.px_compile.specs.FitStatements.{alone_by, alone_fits, argument_fits, arguments_fit, assign_fits, augment_fits, augmented_fits, boxed_fits, call_fits, callees_of, declarator_fits, end_fits, expression_fits, initial_fits, gives_type, has_no_parts, is_callee, is_group, leaf_fits, number_fits, one_part, return_fits, set_fits, step_fits, target_fits, two_parts, unfit, unfit_among, variable_fits};

use crate::fits::{has_type, is_c_type, is_same_c, type_of_local};
use crate::trees::{parts_fit, tree_fits};
use px_base::{Builtin, Span};
use px_tree::{Conversion, Local, TypedFunction, TypedHead, TypedTree, ValueType};
use px_typed_walk::{at_of, type_of};

/// The part of a node that has one.
fn one_part(parts: &[TypedTree]) -> Option<&TypedTree>
    ensures { option_map (λ tree. rose_of_typed tree.now) result ≡ one_part (gathered (map rose_of_typed parts.now)) }
{
    if parts.len() == 1 { parts.get(0) } else { None }
}

/// The parts of a node that has two.
fn two_parts(parts: &[TypedTree]) -> Option<(&TypedTree, &TypedTree)>
    ensures { option_map (λ pair. (rose_of_typed pair.0.now, rose_of_typed pair.1.now)) result ≡ two_parts (gathered (map rose_of_typed parts.now)) }
{
    if parts.len() == 2 {
        Some((&parts[0], &parts[1]))
    } else {
        None
    }
}

fn has_no_parts(parts: &[TypedTree]) -> bool
    ensures { result ≡ has_no_parts (gathered (map rose_of_typed parts.now)) }
{
    parts.is_empty()
}

/// Whether an argument of `print` is a number as an object.
#[tactic(auto, unfolding(crate::specs::FitStatements::boxed_fits))]
fn boxed_fits(locals: &[Local], head: TypedHead, parts: &[TypedTree]) -> bool
    ensures { result ≡ boxed_fits (types_of_locals locals.now) head (gathered (map rose_of_typed parts.now)) }
{
    match head {
        TypedHead::Converted(Conversion::ToObject(t)) => {
            has_type(parts, 0, t) && parts_fit(locals, None, false, parts)
        }
        _ => false,
    }
}

fn argument_fits(locals: &[Local], tree: &TypedTree) -> bool
    ensures { result ≡ argument_fits (types_of_locals locals.now) (rose_of_typed tree.now) }
{
    boxed_fits(locals, tree.head, tree.parts.as_slice())
}

fn arguments_fit(locals: &[Local], parts: &[TypedTree]) -> bool
    ensures { result ≡ arguments_fit (types_of_locals locals.now) (gathered (map rose_of_typed parts.now)) }
{
    for part in parts {
        if !argument_fits(locals, part) {
            return false;
        }
    }
    true
}

fn gives_type(gives: ValueType, t: ValueType) -> bool
    ensures { result ≡ gives_type gives t }
{
    match (gives, t) {
        (ValueType::C(u), ValueType::C(t)) => is_same_c(u, t),
        (ValueType::Object, ValueType::Object) => true,
        (ValueType::Void, ValueType::Void) => true,
        _ => false,
    }
}

/// Whether a function stands at this place that has no parameters and gives a value of the type.
fn is_callee(functions: &[TypedFunction], function: usize, t: ValueType) -> bool
    ensures { result ≡ is_callee (slice_get (callees_of (map function_kept functions.now)) function) t }
{
    match functions.get(function) {
        Some(f) => f.params == 0 && gives_type(f.gives, t),
        None => false,
    }
}

fn call_fits(
    functions: &[TypedFunction],
    function: usize,
    t: ValueType,
    parts: &[TypedTree],
) -> bool
    ensures { result ≡ call_fits (callees_of (map function_kept functions.now)) function t (gathered (map rose_of_typed parts.now)) }
{
    has_no_parts(parts) && is_callee(functions, function, t)
}

/// Whether a print, a call or a number has code that stands for its own.
#[tactic(auto, unfolding(crate::specs::FitStatements::alone_by))]
fn alone_by(
    locals: &[Local],
    functions: &[TypedFunction],
    head: TypedHead,
    parts: &[TypedTree],
    fits: bool,
) -> bool
    ensures { result ≡ alone_by (types_of_locals locals.now) (callees_of (map function_kept functions.now)) head (gathered (map rose_of_typed parts.now)) fits }
{
    match head {
        TypedHead::Builtin(Builtin::Print) => arguments_fit(locals, parts),
        TypedHead::Call(function, t) => call_fits(functions, function, t, parts),
        _ => fits,
    }
}

fn alone_fits(locals: &[Local], functions: &[TypedFunction], tree: &TypedTree) -> bool
    ensures { result ≡ alone_fits (types_of_locals locals.now) (callees_of (map function_kept functions.now)) (rose_of_typed tree.now) }
{
    let fits = tree_fits(locals, None, tree);
    alone_by(locals, functions, tree.head, tree.parts.as_slice(), fits)
}

fn expression_fits(locals: &[Local], functions: &[TypedFunction], parts: &[TypedTree]) -> bool
    ensures { result ≡ expression_fits (types_of_locals locals.now) (callees_of (map function_kept functions.now)) (one_part (gathered (map rose_of_typed parts.now))) }
{
    match one_part(parts) {
        Some(tree) => alone_fits(locals, functions, tree),
        None => false,
    }
}

/// Whether a tree is a number of a type.
fn number_fits(locals: &[Local], t: ValueType, tree: &TypedTree) -> bool
    ensures { result ≡ number_fits (types_of_locals locals.now) t (rose_of_typed tree.now) }
{
    match t {
        ValueType::C(t) => tree_fits(locals, None, tree) && is_c_type(Some(type_of(tree)), t),
        _ => false,
    }
}

/// Whether a variable of a C type stands at this place.
fn variable_fits(locals: &[Local], slot: usize, t: ValueType) -> bool
    ensures { result ≡ variable_fits (types_of_locals locals.now) slot t }
{
    match t {
        ValueType::C(t) => is_c_type(type_of_local(locals, slot), t),
        _ => false,
    }
}

fn set_fits(locals: &[Local], slot: usize, t: ValueType, tree: &TypedTree) -> bool
    ensures { result ≡ set_fits (types_of_locals locals.now) slot t (rose_of_typed tree.now) }
{
    variable_fits(locals, slot, t) && number_fits(locals, t, tree)
}

#[tactic(auto, unfolding(crate::specs::FitStatements::target_fits))]
fn target_fits(locals: &[Local], head: TypedHead, tree: &TypedTree) -> bool
    ensures { result ≡ target_fits (types_of_locals locals.now) head (rose_of_typed tree.now) }
{
    match head {
        TypedHead::Local(slot, t) => set_fits(locals, slot, t, tree),
        _ => false,
    }
}

fn assign_fits(locals: &[Local], parts: &[TypedTree]) -> bool
    ensures { result ≡ assign_fits (types_of_locals locals.now) (two_parts (gathered (map rose_of_typed parts.now))) }
{
    match two_parts(parts) {
        Some((target, tree)) => target_fits(locals, target.head, tree),
        None => false,
    }
}

/// Whether a value has the type of the one at hand.
fn step_fits(locals: &[Local], t: ValueType, tree: &TypedTree) -> bool
    ensures { result ≡ step_fits (types_of_locals locals.now) t (rose_of_typed tree.now) }
{
    match t {
        ValueType::C(t) => tree_fits(locals, Some(t), tree) && is_c_type(Some(type_of(tree)), t),
        _ => false,
    }
}

#[tactic(auto, unfolding(crate::specs::FitStatements::augmented_fits))]
fn augmented_fits(locals: &[Local], head: TypedHead, target: &TypedTree, tree: &TypedTree) -> bool
    ensures { result ≡ augmented_fits (types_of_locals locals.now) head (rose_of_typed target.now) (rose_of_typed tree.now) }
{
    match head {
        TypedHead::Local(slot, t) => {
            variable_fits(locals, slot, t)
                && tree_fits(locals, None, target)
                && step_fits(locals, t, tree)
        }
        _ => false,
    }
}

fn augment_fits(locals: &[Local], parts: &[TypedTree]) -> bool
    ensures { result ≡ augment_fits (types_of_locals locals.now) (two_parts (gathered (map rose_of_typed parts.now))) }
{
    match two_parts(parts) {
        Some((target, tree)) => augmented_fits(locals, target.head, target, tree),
        None => false,
    }
}

fn declarator_fits(locals: &[Local], slot: usize, t: ValueType, parts: &[TypedTree]) -> bool
    ensures { result ≡ declarator_fits (types_of_locals locals.now) slot t (gathered (map rose_of_typed parts.now)) }
{
    if has_no_parts(parts) {
        return true;
    }
    match one_part(parts) {
        Some(tree) => set_fits(locals, slot, t, tree),
        None => false,
    }
}

/// Whether an end without a value has code.
pub(crate) fn end_fits(has_none: bool, gives: ValueType) -> bool
    ensures { result ≡ end_fits has_none gives }
{
    match gives {
        ValueType::C(_) => true,
        ValueType::Object => has_none,
        ValueType::View(_) => false,
        ValueType::Void => true,
    }
}

fn return_fits(locals: &[Local], gives: ValueType, has_none: bool, parts: &[TypedTree]) -> bool
    ensures { result ≡ return_fits (types_of_locals locals.now) gives has_none (gathered (map rose_of_typed parts.now)) }
{
    if has_no_parts(parts) {
        return end_fits(has_none, gives);
    }
    match one_part(parts) {
        Some(tree) => number_fits(locals, gives, tree),
        None => false,
    }
}

/// Whether a statement that has no statements in it has code.
#[tactic(auto, unfolding(crate::specs::FitStatements::leaf_fits))]
fn leaf_fits(
    locals: &[Local],
    gives: ValueType,
    has_none: bool,
    functions: &[TypedFunction],
    head: TypedHead,
    parts: &[TypedTree],
) -> bool
    ensures { result ≡ leaf_fits (types_of_locals locals.now) gives has_none (callees_of (map function_kept functions.now)) head (gathered (map rose_of_typed parts.now)) }
{
    match head {
        TypedHead::Expression => expression_fits(locals, functions, parts),
        TypedHead::Assign => assign_fits(locals, parts),
        TypedHead::Augment(_) => augment_fits(locals, parts),
        TypedHead::Declarator(slot, t) => declarator_fits(locals, slot, t, parts),
        TypedHead::Pass => true,
        TypedHead::Global => true,
        TypedHead::Return => return_fits(locals, gives, has_none, parts),
        _ => false,
    }
}

#[tactic(auto, unfolding(crate::specs::FitStatements::is_group))]
fn is_group(head: TypedHead) -> bool
    ensures { result ≡ is_group head }
{
    match head {
        TypedHead::Declare => true,
        _ => false,
    }
}

/// The place of the first statement in this one that has no code: a function that gives `gives`, with these variables, calls `functions`, and the constants have None or not.
#[cycle(unfit)]
pub(crate) fn unfit(
    locals: &[Local],
    gives: ValueType,
    has_none: bool,
    functions: &[TypedFunction],
    tree: &TypedTree,
) -> Option<Span>
    ensures { result ≡ unfit (types_of_locals locals.now) gives has_none (callees_of (map function_kept functions.now)) (rose_of_typed tree.now) }
{
    let parts = tree.parts.as_slice();
    if is_group(tree.head) {
        unfit_among(locals, gives, has_none, functions, parts)
    } else if leaf_fits(locals, gives, has_none, functions, tree.head, parts) {
        None
    } else {
        Some(at_of(tree))
    }
}

/// The place of the first of these statements, or in one of them, that has no code.
#[cycle(unfit)]
pub(crate) fn unfit_among(
    locals: &[Local],
    gives: ValueType,
    has_none: bool,
    functions: &[TypedFunction],
    trees: &[TypedTree],
) -> Option<Span>
    ensures { result ≡ unfit_among (types_of_locals locals.now) gives has_none (callees_of (map function_kept functions.now)) (gathered (map rose_of_typed trees.now)) }
{
    for tree in trees {
        let found = unfit(locals, gives, has_none, functions, tree);
        if found.is_some() {
            return found;
        }
    }
    None
}
