//! Appends the code of statements that set a variable or end a function.

ghost use Rattle.std.specs.Prelude.{◌≡◌, ◌+◌, ◌≤◌, ◌++◌, length, OnOk};
ghost use Rattle.px_walk.specs.Roses.{gathered, head_of, parts_of};
ghost use Rattle.px_typed_walk.specs.TypedView.{rose_of_typed};
ghost use Rattle.px_exprgen.specs.ExpressionCode.{width, widest};
ghost use Rattle.px_exprgen.specs.Places.{places, places_below};
ghost use Rattle.px_stmtgen.specs.Layouts.{temporary};
ghost use Rattle.px_stmtgen.specs.StatementCode.{set_code, target_code, assign_code, augment_code, declared_code, return_code};

use crate::endings::ending;
use crate::layouts::Layout;
use px_exprgen::expression;
use px_regcode::{Instr, Instrs, Register};
use px_tree::{TypedHead, TypedTree};
use px_typed_walk::TypedNode;
use std::alloc::AllocError;

/// Appends the code that sets a variable to a number.
fn set(layout: Layout, slot: usize, tree: &TypedTree, code: &mut Instrs) -> Result<(), AllocError>
    requires slot { slot ≤ 4294967295 }
    requires width { temporary layout + width (rose_of_typed tree.now) ≤ 4294967295 }
    requires places { places (rose_of_typed tree.now) ≤ 4294967295 }
    ensures { OnOk result (code.new ≡ code.old ++ set_code layout slot (rose_of_typed tree.now) (length code.old)) }
{
    let to = Register {
        number: slot as u32,
    };
    let from = Register {
        number: layout.variables + layout.objects,
    };
    expression(tree, layout.variables + layout.objects, code)?;
    code.push(Instr::Move(to, from))
}

/// Appends the code that sets a target to a number.
fn set_target(
    layout: Layout,
    target: &TypedTree,
    tree: &TypedTree,
    code: &mut Instrs,
) -> Result<(), AllocError>
    requires target { places (rose_of_typed target.now) ≤ 4294967295 }
    requires width { temporary layout + width (rose_of_typed tree.now) ≤ 4294967295 }
    requires places { places (rose_of_typed tree.now) ≤ 4294967295 }
    ensures { OnOk result (code.new ≡ code.old ++ target_code layout (head_of (rose_of_typed target.now)) (rose_of_typed tree.now) (length code.old)) }
{
    let node = TypedNode { tree: target };
    match node.head() {
        TypedHead::Local(slot, _) => set(layout, slot, tree, code),
        _ => Ok(()),
    }
}

/// Appends the code of an assignment.
pub(crate) fn assign(
    layout: Layout,
    node: TypedNode<'_>,
    code: &mut Instrs,
) -> Result<(), AllocError>
    requires width { temporary layout + widest (gathered (parts_of (rose_of_typed node.tree.now))) ≤ 4294967295 }
    requires places { places (rose_of_typed node.tree.now) ≤ 4294967295 }
    ensures { OnOk result (code.new ≡ code.old ++ assign_code layout (gathered (parts_of (rose_of_typed node.entry.tree.now))) (length code.old)) }
{
    let Some(target) = node.get(0) else {
        return Ok(());
    };
    let Some(value) = node.get(1) else {
        return Ok(());
    };
    set_target(layout, target.tree, value.tree, code)
}

/// Appends the code of `target op= value`.
pub(crate) fn augment(
    layout: Layout,
    node: TypedNode<'_>,
    code: &mut Instrs,
) -> Result<(), AllocError>
    requires width { temporary layout + widest (gathered (parts_of (rose_of_typed node.tree.now))) ≤ 4294967295 }
    requires places { places (rose_of_typed node.tree.now) ≤ 4294967295 }
    ensures { OnOk result (code.new ≡ code.old ++ augment_code layout (gathered (parts_of (rose_of_typed node.entry.tree.now))) (length code.old)) }
{
    let Some(target) = node.get(0) else {
        return Ok(());
    };
    let Some(value) = node.get(1) else {
        return Ok(());
    };
    expression(target.tree, layout.variables + layout.objects, code)?;
    set_target(layout, target.tree, value.tree, code)
}

/// Appends the code of a declared variable.
pub(crate) fn declared(
    layout: Layout,
    slot: usize,
    node: TypedNode<'_>,
    code: &mut Instrs,
) -> Result<(), AllocError>
    requires slot { slot ≤ 4294967295 }
    requires width { temporary layout + widest (gathered (parts_of (rose_of_typed node.tree.now))) ≤ 4294967295 }
    requires places { places (rose_of_typed node.tree.now) ≤ 4294967295 }
    ensures { OnOk result (code.new ≡ code.old ++ declared_code layout slot (gathered (parts_of (rose_of_typed node.entry.tree.now))) (length code.old)) }
{
    match node.get(0) {
        Some(value) => set(layout, slot, value.tree, code),
        None => Ok(()),
    }
}

/// Appends the code of a `return`.
pub(crate) fn returns(
    layout: Layout,
    node: TypedNode<'_>,
    code: &mut Instrs,
) -> Result<(), AllocError>
    requires width { temporary layout + widest (gathered (parts_of (rose_of_typed node.tree.now))) ≤ 4294967295 }
    requires places { places (rose_of_typed node.tree.now) ≤ 4294967295 }
    ensures { OnOk result (code.new ≡ code.old ++ return_code layout (gathered (parts_of (rose_of_typed node.entry.tree.now))) (length code.old)) }
{
    let from = Register {
        number: layout.variables + layout.objects,
    };
    match node.get(0) {
        Some(value) => {
            expression(value.tree, layout.variables + layout.objects, code)?;
            code.push(Instr::Return(from))
        }
        None => ending(layout, code),
    }
}
