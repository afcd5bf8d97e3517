//! Operators on C operands.

ghost use Rattle.std.specs.Prelude.{◌≡◌, IfOk};
ghost use Rattle.px_ctypes.specs.Operators.{is_shift};
ghost use Rattle.px_typed_walk.specs.TypedView.{rose_of_typed};
ghost use Rattle.px_operators.specs.Outcomes.{Gives, followed, only};
ghost use Rattle.px_operators.specs.Conversions.{tested};
ghost use Rattle.px_operators.specs.Operators.{unary_of, is_division, binary_type, right_type, binary_step, of_steps, chain_of, compare_step, of_comparisons, comparison_of, logic_step, logic_of, in_common, not_of, choice, conditional_of};
ghost use Rattle.px_operators.specs.Kept.{parts_kept, part_kept, trees_kept, operand_kept, operands_kept};
ghost use Rattle.px_operators.specs.OperatorsKept.{only_answer, head_of_logic, common_if_several};

use crate::conversions::{in_c, tested};
use crate::gathering::{Part, both, one, outcome_of, two, unbuilt};
use crate::operands::{Operand, given, kept, operand_part};
use px_base::{BinOp, CType, CmpOp, NoMemory, Span, Trouble, UnOp};
use px_ctypes::{common, promoted};
use px_tree::{Comparing, TypedHead, TypedTree, ValueType};
use px_typed_walk::{at_of, tree_of, type_of};
use sqlite_items::Items;
use std::alloc::Global;

/// The one operand that there is.
pub fn only<T: Drop>(at: Span, items: Vec<T>) -> Result<T, Trouble>
    ensures { result ≡ only_answer at items.items }
{
    let mut items = items;
    match items.pop() {
        Some(item) if items.is_empty() => Ok(item),
        _ => Err(unbuilt(at)),
    }
}

/// `+`, `-` or `~` of an operand.
pub fn unary_of(
    alloc: Global,
    op: UnOp,
    number: u32,
    at: Span,
    operands: Vec<Operand>,
) -> Result<TypedTree, Trouble>
    ensures { Gives rose_of_typed result (unary_of op number at (operands_kept operands.items)) }
{
    let operand = only(at, operands)?;
    let t = promoted(operand.c_type);
    let parts = one(alloc, in_c(alloc, t, operand)?)?;
    Ok(tree_of(TypedHead::Unary(op, t), number, at, parts))
}

fn is_shift(op: BinOp) -> bool
    ensures { result ≡ is_shift op }
{
    match op {
        BinOp::Shl => true,
        BinOp::Shr => true,
        _ => false,
    }
}

fn is_division(op: BinOp) -> bool
    ensures { result ≡ is_division op }
{
    match op {
        BinOp::FloorDiv => true,
        BinOp::Mod => true,
        _ => false,
    }
}

/// The type of a step.
fn binary_type(op: BinOp, left: CType, right: CType) -> CType
    ensures { result ≡ binary_type op left right }
{
    if is_shift(op) {
        promoted(left)
    } else {
        common(left, right)
    }
}

/// The type in which a step takes its right operand.
fn right_type(op: BinOp, left: CType, right: CType) -> CType
    ensures { result ≡ right_type op left right }
{
    if is_shift(op) {
        right
    } else {
        common(left, right)
    }
}

/// An operator on two operands.
pub fn binary_step(
    alloc: Global,
    cdivision: bool,
    number: u32,
    at: Span,
    op: BinOp,
    left: Operand,
    right: Operand,
) -> Result<TypedTree, NoMemory>
    ensures { IfOk result (λ made. rose_of_typed made ≡ binary_step cdivision number at op (operand_kept left) (operand_kept right)) }
{
    let t = binary_type(op, left.c_type, right.c_type);
    let on_right = right_type(op, left.c_type, right.c_type);
    let left = in_c(alloc, t, left)?;
    let right = in_c(alloc, on_right, right)?;
    let head = TypedHead::Binary(op, t, is_division(op) && cdivision);
    Ok(tree_of(head, number, at, two(alloc, left, right)?))
}

/// Steps as one node.
fn of_steps(number: u32, at: Span, steps: Vec<TypedTree>) -> Result<TypedTree, Trouble>
    ensures { Gives rose_of_typed result (of_steps number at (trees_kept steps.items)) }
{
    let t = match steps.as_slice() {
        [] => return Err(unbuilt(at)),
        [.., last] => type_of(last),
    };
    if steps.len() == 1 {
        return only(at, steps);
    }
    let head = TypedHead::Steps(t);
    Ok(tree_of(head, number, at, Items::from_vec(steps)))
}

/// A chain of operators of one level.
pub fn chain_of(
    alloc: Global,
    cdivision: bool,
    number: u32,
    at: Span,
    ops: &[BinOp],
    operands: Vec<Operand>,
) -> Result<TypedTree, Trouble>
    ensures { Gives rose_of_typed result (chain_of cdivision number at ops.now (operands_kept operands.items)) }
{
    let mut steps = Vec::new(alloc);
    let mut others = operands.into_iter();
    let Some(first) = others.next() else {
        return Err(unbuilt(at));
    };
    let mut left = first;
    for op in ops {
        let Some(right) = others.next() else {
            break;
        };
        let t = binary_type(*op, left.c_type, right.c_type);
        let step = binary_step(alloc, cdivision, number, at, *op, left, right)?;
        steps.push(step)?;
        left = given(alloc, number, at, t);
    }
    of_steps(number, at, steps)
}

/// A comparison of two operands.
fn compare_step(
    alloc: Global,
    number: u32,
    at: Span,
    op: CmpOp,
    left: Operand,
    right: Operand,
) -> Result<TypedTree, NoMemory>
    ensures { IfOk result (λ made. rose_of_typed made ≡ compare_step number at op (operand_kept left) (operand_kept right)) }
{
    let t = common(left.c_type, right.c_type);
    let left = in_c(alloc, t, left)?;
    let right = in_c(alloc, t, right)?;
    let head = TypedHead::Compare(Comparing::C(op, t));
    Ok(tree_of(head, number, at, two(alloc, left, right)?))
}

/// Comparisons as one node.
fn of_comparisons(number: u32, at: Span, steps: Vec<TypedTree>) -> Result<TypedTree, Trouble>
    ensures { Gives rose_of_typed result (of_comparisons number at (trees_kept steps.items)) }
{
    if steps.len() < 2 {
        return only(at, steps);
    }
    let head = TypedHead::Comparisons;
    Ok(tree_of(head, number, at, Items::from_vec(steps)))
}

/// A chain of comparisons.
pub fn comparison_of(
    alloc: Global,
    number: u32,
    at: Span,
    ops: &[CmpOp],
    operands: Vec<Operand>,
) -> Result<TypedTree, Trouble>
    ensures { Gives rose_of_typed result (comparison_of number at ops.now (operands_kept operands.items)) }
{
    let mut steps = Vec::new(alloc);
    let last = ops.len().min(operands.len().saturating_sub(1));
    let mut others = operands.into_iter();
    let Some(first) = others.next() else {
        return Err(unbuilt(at));
    };
    let mut left = first;
    for op in ops {
        let Some(right) = others.next() else {
            break;
        };
        let next = given(alloc, number, at_of(&right.tree), right.c_type);
        let right = if steps.len() + 1 < last {
            kept(alloc, right)?
        } else {
            right
        };
        let step = compare_step(alloc, number, at, *op, left, right)?;
        steps.push(step)?;
        left = next;
    }
    of_comparisons(number, at, steps)
}

/// `and` or `or`.
#[derive(Clone, Copy)]
pub enum Logic {
    And,
    Or,
}

fn head_of_logic(logic: Logic, t: ValueType) -> TypedHead
    ensures { result ≡ head_of_logic logic t }
{
    match logic {
        Logic::And => TypedHead::And(t),
        Logic::Or => TypedHead::Or(t),
    }
}

/// `and` or `or` of two operands.
fn logic_step(
    alloc: Global,
    logic: Logic,
    number: u32,
    at: Span,
    left: Operand,
    right: Operand,
) -> Result<TypedTree, NoMemory>
    ensures { IfOk result (λ made. rose_of_typed made ≡ logic_step (head_of_logic logic) number at (operand_kept left) (operand_kept right)) }
{
    let t = common(left.c_type, right.c_type);
    let left = in_c(alloc, t, left)?;
    let right = in_c(alloc, t, right)?;
    let head = head_of_logic(logic, ValueType::C(t));
    Ok(tree_of(head, number, at, two(alloc, left, right)?))
}

/// A chain of `and` or of `or`.
pub fn logic_of(
    alloc: Global,
    logic: Logic,
    number: u32,
    at: Span,
    operands: Vec<Operand>,
) -> Result<TypedTree, Trouble>
    ensures { Gives rose_of_typed result (logic_of (head_of_logic logic) number at (operands_kept operands.items)) }
{
    let mut steps = Vec::new(alloc);
    let mut others = operands.into_iter();
    let Some(first) = others.next() else {
        return Err(unbuilt(at));
    };
    let mut left = first;
    for right in others {
        let t = common(left.c_type, right.c_type);
        let step = logic_step(alloc, logic, number, at, left, right)?;
        steps.push(step)?;
        left = given(alloc, number, at, t);
    }
    of_steps(number, at, steps)
}

/// The common type of operands; none where there are fewer than two.
pub fn common_of(operands: &[Operand]) -> Option<CType>
    ensures { result ≡ common_if_several (operands_kept operands.now) }
{
    match operands {
        [] => None,
        [_] => None,
        [first, others @ ..] => {
            let mut t = first.c_type;
            for operand in others {
                t = common(t, operand.c_type);
            }
            Some(t)
        }
    }
}

/// A node of operands in their common type.
pub fn in_common(
    alloc: Global,
    head: TypedHead,
    number: u32,
    at: Span,
    t: CType,
    operands: Vec<Operand>,
) -> Result<TypedTree, NoMemory>
    ensures { IfOk result (λ made. rose_of_typed made ≡ in_common head number at t (operands_kept operands.items)) }
{
    let mut parts = Vec::new(alloc);
    for operand in operands {
        parts.push(in_c(alloc, t, operand)?)?;
    }
    Ok(tree_of(head, number, at, Items::from_vec(parts)))
}

/// The one part that there is.
pub fn only_part(at: Span, parts: Vec<Part>) -> Result<TypedTree, Trouble>
    ensures { Gives rose_of_typed result (only at (parts_kept parts.items)) }
{
    outcome_of(only(at, parts)?)
}

/// `not` of a value.
pub fn not_of(alloc: Global, number: u32, at: Span, parts: Vec<Part>) -> Result<TypedTree, Trouble>
    ensures { Gives rose_of_typed result (not_of number at (parts_kept parts.items)) }
{
    let tree = only_part(at, parts)?;
    let test = tested(alloc, tree)?;
    let parts = one(alloc, test)?;
    Ok(tree_of(TypedHead::Not, number, at, parts))
}

/// A conditional of two operands.
fn choice(
    alloc: Global,
    number: u32,
    at: Span,
    left: Operand,
    test: TypedTree,
    right: Operand,
) -> Result<TypedTree, NoMemory>
    ensures { IfOk result (λ made. rose_of_typed made ≡ choice number at ((operand_kept left, rose_of_typed test), operand_kept right)) }
{
    let t = common(left.c_type, right.c_type);
    let mut parts = two(alloc, in_c(alloc, t, left)?, test)?;
    parts.push(in_c(alloc, t, right)?)?;
    let head = TypedHead::Conditional(ValueType::C(t));
    Ok(tree_of(head, number, at, parts))
}

/// A part as a test.
fn tested_part(alloc: Global, part: Part) -> Result<TypedTree, Trouble>
    ensures { Gives rose_of_typed result (followed (part_kept part) tested) }
{
    let tree = outcome_of(part)?;
    tested(alloc, tree)
}

/// `left if test else right`
pub fn conditional_of(
    alloc: Global,
    number: u32,
    at: Span,
    parts: Vec<Part>,
) -> Result<TypedTree, Trouble>
    ensures { Gives rose_of_typed result (conditional_of number at (parts_kept parts.items)) }
{
    let mut parts = Items::from_vec(parts);
    let (Some(right), Some(test), Some(left)) = (parts.pop(), parts.pop(), parts.pop()) else {
        return Err(unbuilt(at));
    };
    if !parts.is_empty() {
        return Err(unbuilt(at));
    }
    let left_and_test = both(operand_part(left), tested_part(alloc, test));
    let ((left, test), right) = both(left_and_test, operand_part(right))?;
    Ok(choice(alloc, number, at, left, test, right)?)
}
