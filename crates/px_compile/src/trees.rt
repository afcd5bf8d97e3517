//! Which trees of expressions have code.

ghost use Rattle.std.specs.Prelude.{◌≡◌, if◌then◌else◌, map, None};
ghost use Rattle.px_walk.specs.Roses.{gathered};
ghost use Rattle.px_typed_walk.specs.TypedView.{rose_of_typed};
ghost use Rattle.px_code_laws.specs.Fine.{types_of};
ghost use Rattle.px_compile.specs.Fits.{are_steps, c_type_of, head_fits, parts_fit, tree_fits, types_of_locals};

use crate::fits::{
    cast_fits, comparison_fits, conversion_fits, given_fits, has_type, is_number, is_same_c,
    is_value_of, local_fits, right_fits, steps_type_fits,
};
use px_base::CType;
use px_tree::{Local, TypedHead, TypedTree, ValueType};
use px_typed_walk::type_of;

/// What is asked of a node by its head and the types of its parts.
#[tactic(auto, unfolding(crate::specs::Fits::head_fits))]
fn head_fits(locals: &[Local], at_hand: Option<CType>, head: TypedHead, parts: &[TypedTree]) -> bool
    ensures { result ≡ head_fits (types_of_locals locals.now) at_hand head (types_of (gathered (map rose_of_typed parts.now))) }
{
    match head {
        TypedHead::Literal(t, n) => is_value_of(t, n),
        TypedHead::Sizeof(_) => true,
        TypedHead::Local(slot, t) => local_fits(locals, slot, t),
        TypedHead::Given(t) => given_fits(at_hand, t),
        TypedHead::Converted(asked) => conversion_fits(asked, parts),
        TypedHead::Cast(t) => cast_fits(t, parts),
        TypedHead::Steps(t) => steps_type_fits(t, parts),
        TypedHead::Unary(_, t) => !is_same_c(t, CType::Bint) && has_type(parts, 0, t),
        TypedHead::Binary(op, t, _) => {
            !is_same_c(t, CType::Bint) && has_type(parts, 0, t) && right_fits(op, t, parts)
        }
        TypedHead::Compare(how) => comparison_fits(how, parts),
        TypedHead::Abs(t) => !is_same_c(t, CType::Bint) && has_type(parts, 0, t),
        _ => false,
    }
}

#[tactic(auto, unfolding(crate::specs::Fits::are_steps))]
fn are_steps(head: TypedHead) -> bool
    ensures { result ≡ are_steps head }
{
    match head {
        TypedHead::Steps(_) => true,
        _ => false,
    }
}

fn c_type_of(t: ValueType) -> Option<CType>
    ensures { result ≡ c_type_of t }
{
    match t {
        ValueType::C(t) => Some(t),
        _ => None,
    }
}

/// The C type of the value that the next part has at hand, behind one of this type.
fn at_hand_behind(steps: bool, t: ValueType) -> Option<CType>
    ensures { result ≡ (if steps then c_type_of t else None) }
{
    if steps { c_type_of(t) } else { None }
}

/// Whether an expression has code, with the type of the value at hand, if there is one.
#[cycle(fits)]
pub(crate) fn tree_fits(locals: &[Local], at_hand: Option<CType>, tree: &TypedTree) -> bool
    ensures { result ≡ tree_fits (types_of_locals locals.now) at_hand (rose_of_typed tree.now) }
{
    let parts = tree.parts.as_slice();
    head_fits(locals, at_hand, tree.head, parts)
        && parts_fit(locals, at_hand, are_steps(tree.head), parts)
}

#[cycle(fits)]
pub(crate) fn parts_fit(
    locals: &[Local],
    at_hand: Option<CType>,
    steps: bool,
    parts: &[TypedTree],
) -> bool
    ensures { result ≡ parts_fit (types_of_locals locals.now) at_hand steps (gathered (map rose_of_typed parts.now)) }
{
    let mut hand = at_hand;
    for part in parts {
        let t = type_of(part);
        if !tree_fits(locals, hand, part) {
            return false;
        }
        if steps && !is_number(Some(t)) {
            return false;
        }
        hand = at_hand_behind(steps, t);
    }
    true
}
