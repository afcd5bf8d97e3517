//! Appends the code of expressions.

ghost use Rattle.std.specs.Prelude.{◌≡◌, ℕ, ◌+◌, ◌≤◌, ◌++◌, length, map, OnOk, slice_get, Some};
ghost use Rattle.px_walk.specs.Roses.{parts_of};
ghost use Rattle.px_typed_walk.specs.TypedView.{TypedRose, rose_of_typed};
ghost use Rattle.px_exprgen.specs.ExpressionCode.{part_code, steps_code, expression_code, width};
ghost use Rattle.px_exprgen.specs.Places.{places};

use px_ctypes::size_of;
use px_regcode::{Instr, Instrs, Register};
use px_tree::{Comparing, Conversion, TypedHead, TypedTree};
use px_typed_walk::TypedNode;
use px_walk::Node;
use std::alloc::AllocError;

/// Appends the code of an expression, which leaves its value in the register d, and writes to none below that. The registers that it
/// takes (`width`) and the places that it names (`places`) are words of 32 bits.
///
/// # Errors
/// `AllocError` where there is no memory; some of the code may stand there then.
#[cycle(expression)]
pub fn expression(tree: &TypedTree, d: u32, code: &mut Instrs) -> Result<(), AllocError>
    requires width { d + width (rose_of_typed tree.now) ≤ 4294967295 }
    requires places { places (rose_of_typed tree.now) ≤ 4294967295 }
    ensures { OnOk result (code.new ≡ code.old ++ expression_code (rose_of_typed tree.now) (length code.old) d) }
{
    let node = TypedNode { tree };
    let to = Register { number: d };
    match node.head() {
        TypedHead::Literal(_, n) => code.push(Instr::Const(to, n)),
        TypedHead::Sizeof(t) => code.push(Instr::Const(to, i128::from(size_of(t)))),
        TypedHead::Local(slot, _) => {
            let from = Register {
                number: slot as u32,
            };
            code.push(Instr::Move(to, from))
        }
        TypedHead::Converted(asked) => match asked {
            Conversion::ToC(t) => {
                part(node, 0, d, code)?;
                code.push(Instr::Convert(t, to, to))
            }
            _ => Ok(()),
        },
        TypedHead::Cast(_) => part(node, 0, d, code),
        TypedHead::Steps(_) => steps(node, d, code),
        TypedHead::Unary(op, t) => {
            part(node, 0, d, code)?;
            code.push(Instr::Unary(op, t, to, to))
        }
        TypedHead::Binary(op, t, truncates) => {
            part(node, 0, d, code)?;
            part(node, 1, d + 1, code)?;
            let right = Register { number: d + 1 };
            code.push(Instr::Binary(op, t, to, to, right, truncates))
        }
        TypedHead::Compare(how) => match how {
            Comparing::C(op, t) => {
                part(node, 0, d, code)?;
                part(node, 1, d + 1, code)?;
                let right = Register { number: d + 1 };
                code.push(Instr::Compare(op, t, to, to, right))
            }
            _ => Ok(()),
        },
        TypedHead::Abs(t) => {
            part(node, 0, d, code)?;
            code.push(Instr::Magnitude(t, to, to))
        }
        _ => Ok(()),
    }
}

/// Appends the code of the part of a node that has this number, which leaves its value in the register d; nothing where there is none.
///
/// # Errors
/// `AllocError` where there is no memory; some of the code may stand there then.
#[cycle(expression)]
pub fn part(node: TypedNode<'_>, k: usize, d: u32, code: &mut Instrs) -> Result<(), AllocError>
    requires width { (part : TypedRose) → slice_get (parts_of (rose_of_typed node.tree.now)) k ≡ Some part → d + width part ≤ 4294967295 }
    requires places { places (rose_of_typed node.tree.now) ≤ 4294967295 }
    ensures { OnOk result (code.new ≡ code.old ++ part_code (map expression_code (parts_of (rose_of_typed node.entry.tree.now))) k (length code.old) d) }
{
    match node.get(k) {
        Some(part) => expression(part.tree, d, code),
        None => Ok(()),
    }
}

/// Appends the code of all parts of a node, each of which leaves its value in d.
#[cycle(expression)]
fn steps(node: TypedNode<'_>, d: u32, code: &mut Instrs) -> Result<(), AllocError>
    requires width { (k : ℕ) (part : TypedRose) → slice_get (parts_of (rose_of_typed node.tree.now)) k ≡ Some part → d + width part ≤ 4294967295 }
    requires places { places (rose_of_typed node.tree.now) ≤ 4294967295 }
    ensures { OnOk result (code.new ≡ code.old ++ steps_code (map expression_code (parts_of (rose_of_typed node.entry.tree.now))) (length code.old) d) }
{
    for k in 0..node.count() {
        expression(node.part(k).tree, d, code)?;
    }
    Ok(())
}
