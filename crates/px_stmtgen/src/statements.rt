//! Appends the code of statements.

ghost use Rattle.std.specs.Prelude.{◌≡◌, ℕ, ◌+◌, ◌≤◌, ◌++◌, length, map, OnOk, slice_get, Some};
ghost use Rattle.px_walk.specs.Roses.{gathered, parts_of};
ghost use Rattle.px_typed_walk.specs.TypedView.{TypedRose, rose_of_typed};
ghost use Rattle.px_exprgen.specs.Places.{places};
ghost use Rattle.px_stmtgen.specs.Layouts.{temporary};
ghost use Rattle.px_stmtgen.specs.Sizes.{objects};
ghost use Rattle.px_stmtgen.specs.StatementCode.{alone_width, alone_code, alone_widths, alone_first, in_turn_code, statement_width, statement_code};

use crate::layouts::Layout;
use crate::printing::{call, print};
use crate::setting::{assign, augment, declared, returns};
use px_base::Builtin;
use px_exprgen::expression;
use px_regcode::Instrs;
use px_tree::{TypedHead, TypedTree};
use px_typed_walk::TypedNode;
use px_walk::Node;
use std::alloc::{AllocError, Global};

/// Appends the code of an expression that stands for its own.
fn alone(
    alloc: Global,
    layout: Layout,
    tree: &TypedTree,
    code: &mut Instrs,
) -> Result<(), AllocError>
    requires width { temporary layout + alone_width (rose_of_typed tree.now) ≤ 4294967295 }
    requires objects { objects (rose_of_typed tree.now) ≤ layout.objects }
    requires places { places (rose_of_typed tree.now) ≤ 4294967295 }
    ensures { OnOk result (code.new ≡ code.old ++ alone_code layout (rose_of_typed tree.now) (length code.old)) }
{
    let node = TypedNode { tree };
    match node.head() {
        TypedHead::Builtin(builtin) => match builtin {
            Builtin::Print => print(alloc, layout, node, code),
            _ => expression(tree, layout.variables + layout.objects, code),
        },
        TypedHead::Call(function, t) => call(alloc, layout, function, t, code),
        _ => expression(tree, layout.variables + layout.objects, code),
    }
}

/// Appends the code of the first part of a node, an expression that stands for its own.
fn alone_first(
    alloc: Global,
    layout: Layout,
    node: TypedNode<'_>,
    code: &mut Instrs,
) -> Result<(), AllocError>
    requires width { temporary layout + alone_widths (gathered (parts_of (rose_of_typed node.tree.now))) ≤ 4294967295 }
    requires objects { objects (rose_of_typed node.tree.now) ≤ layout.objects }
    requires places { places (rose_of_typed node.tree.now) ≤ 4294967295 }
    ensures { OnOk result (code.new ≡ code.old ++ alone_first layout (gathered (parts_of (rose_of_typed node.entry.tree.now))) (length code.old)) }
{
    match node.get(0) {
        Some(part) => alone(alloc, layout, part.tree, code),
        None => Ok(()),
    }
}

/// Appends the code of a statement. The registers that it takes and the places that it names are words of 32 bits, and the layout has
/// registers for its objects.
///
/// # Errors
/// `AllocError` where there is no memory; some of the code may stand there then.
#[cycle(statement)]
pub fn statement(
    alloc: Global,
    layout: Layout,
    tree: &TypedTree,
    code: &mut Instrs,
) -> Result<(), AllocError>
    requires width { temporary layout + statement_width (rose_of_typed tree.now) ≤ 4294967295 }
    requires objects { objects (rose_of_typed tree.now) ≤ layout.objects }
    requires places { places (rose_of_typed tree.now) ≤ 4294967295 }
    ensures { OnOk result (code.new ≡ code.old ++ statement_code layout (rose_of_typed tree.now) (length code.old)) }
{
    let node = TypedNode { tree };
    match node.head() {
        TypedHead::Expression => alone_first(alloc, layout, node, code),
        TypedHead::Assign => assign(layout, node, code),
        TypedHead::Augment(_) => augment(layout, node, code),
        TypedHead::Declare => in_turn(alloc, layout, node, code),
        TypedHead::Declarator(slot, _) => declared(layout, slot, node, code),
        TypedHead::Return => returns(layout, node, code),
        _ => Ok(()),
    }
}

/// Appends the code of the parts of a node, which are statements.
#[cycle(statement)]
fn in_turn(
    alloc: Global,
    layout: Layout,
    node: TypedNode<'_>,
    code: &mut Instrs,
) -> Result<(), AllocError>
    requires width { (k : ℕ) (part : TypedRose) → slice_get (parts_of (rose_of_typed node.tree.now)) k ≡ Some part → temporary layout + statement_width part ≤ 4294967295 }
    requires objects { objects (rose_of_typed node.tree.now) ≤ layout.objects }
    requires places { places (rose_of_typed node.tree.now) ≤ 4294967295 }
    ensures { OnOk result (code.new ≡ code.old ++ in_turn_code (map (statement_code layout) (parts_of (rose_of_typed node.entry.tree.now))) (length code.old)) }
{
    for k in 0..node.count() {
        statement(alloc, layout, node.part(k).tree, code)?;
    }
    Ok(())
}
