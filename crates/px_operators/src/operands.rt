//! Operands of operators on C values.

ghost use Rattle.std.specs.Prelude.{◌≡◌, IfOk};
ghost use Rattle.px_typed_walk.specs.TypedView.{rose_of_typed};
ghost use Rattle.px_operators.specs.Outcomes.{Gives, followed};
ghost use Rattle.px_operators.specs.Operators.{operand, operands, given, kept};
ghost use Rattle.px_operators.specs.Kept.{part_kept, parts_kept, operand_kept, operands_kept};

use crate::gathering::{Gathered, Part, leaf, one, outcome_of, refused, unbuilt};
use px_base::{CType, NoMemory, Span, Trouble};
use px_tree::{TypedHead, TypedTree, ValueType};
use px_typed_walk::{at_of, number_of, tree_of, type_of};
use std::alloc::Global;

/// An operand with its C type.
#[derive(Drop)]
pub struct Operand {
    pub tree: TypedTree,
    pub c_type: CType,
}

/// A value as an operand: neither a view nor a void call is one.
pub fn as_operand(tree: TypedTree) -> Result<Operand, Trouble>
    ensures { Gives operand_kept result (operand (rose_of_typed tree)) }
{
    match type_of(&tree) {
        ValueType::C(c_type) => Ok(Operand { tree, c_type }),
        ValueType::Object => Err(unbuilt(at_of(&tree))),
        ValueType::View(_) => Err(refused(at_of(&tree))),
        ValueType::Void => Err(refused(at_of(&tree))),
    }
}

/// A part as an operand.
pub fn operand_part(part: Part) -> Result<Operand, Trouble>
    ensures { Gives operand_kept result (followed (part_kept part) operand) }
{
    let tree = outcome_of(part)?;
    as_operand(tree)
}

/// Parts as operands.
pub fn as_operands(alloc: Global, parts: Vec<Part>) -> Result<Vec<Operand>, Trouble>
    ensures { Gives (λ all. operands_kept all.items) result (operands (parts_kept parts.items)) }
{
    let mut all = Gathered::new(alloc);
    for part in parts {
        all.take(operand_part(part))?;
    }
    all.all()
}

/// The value at hand, of a C type, for the node with this number; and its place.
pub fn given(alloc: Global, number: u32, at: Span, c_type: CType) -> Operand
    ensures { operand_kept result ≡ given number at c_type }
{
    let tree = leaf(alloc, TypedHead::Given(ValueType::C(c_type)), number, at);
    Operand { tree, c_type }
}

/// An operand that the next comparison reads too.
pub fn kept(alloc: Global, operand: Operand) -> Result<Operand, NoMemory>
    ensures { IfOk result (λ made. operand_kept made ≡ kept (operand_kept operand)) }
{
    let Operand { tree, c_type } = operand;
    let number = number_of(&tree);
    let at = at_of(&tree);
    let parts = one(alloc, tree)?;
    let head = TypedHead::Kept(ValueType::C(c_type));
    let tree = tree_of(head, number, at, parts);
    Ok(Operand { tree, c_type })
}
