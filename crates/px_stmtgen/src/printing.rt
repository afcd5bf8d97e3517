//! Appends the code of prints, and of calls whose result isn't kept.

ghost use Rattle.std.specs.Prelude.{◌≡◌, ◌+◌, ◌≤◌, ◌++◌, length, OnOk};
ghost use Rattle.px_walk.specs.Roses.{gathered, parts_of};
ghost use Rattle.px_typed_walk.specs.TypedView.{rose_of_typed};
ghost use Rattle.px_exprgen.specs.ExpressionCode.{width, widest};
ghost use Rattle.px_exprgen.specs.Places.{places};
ghost use Rattle.px_stmtgen.specs.Layouts.{temporary};
ghost use Rattle.px_stmtgen.specs.StatementCode.{argument_code, arguments_code, print_code, call_code};

use crate::endings::{drops, registers_from};
use crate::layouts::Layout;
use px_exprgen::part;
use px_regcode::{Instr, Instrs, Register, RegisterList};
use px_tree::{Conversion, TypedHead, TypedTree, ValueType};
use px_typed_walk::TypedNode;
use px_walk::Node;
use std::alloc::{AllocError, Global};

/// Appends the code of an argument of a print: a number as an object in the register d.
fn argument(layout: Layout, d: u32, tree: &TypedTree, code: &mut Instrs) -> Result<(), AllocError>
    requires width { temporary layout + width (rose_of_typed tree.now) ≤ 4294967295 }
    requires places { places (rose_of_typed tree.now) ≤ 4294967295 }
    ensures { OnOk result (code.new ≡ code.old ++ argument_code layout d (rose_of_typed tree.now) (length code.old)) }
{
    let node = TypedNode { tree };
    match node.head() {
        TypedHead::Converted(asked) => match asked {
            Conversion::ToObject(t) => {
                let to = Register { number: d };
                let from = Register {
                    number: layout.variables + layout.objects,
                };
                part(node, 0, layout.variables + layout.objects, code)?;
                code.push(Instr::Box(t, to, from))
            }
            _ => Ok(()),
        },
        _ => Ok(()),
    }
}

/// Appends the code of the arguments of a print, each in a register for objects.
fn arguments(layout: Layout, node: TypedNode<'_>, code: &mut Instrs) -> Result<(), AllocError>
    requires width { temporary layout + widest (gathered (parts_of (rose_of_typed node.tree.now))) ≤ 4294967295 }
    requires objects { length (parts_of (rose_of_typed node.tree.now)) ≤ layout.objects }
    requires places { places (rose_of_typed node.tree.now) ≤ 4294967295 }
    ensures { OnOk result (code.new ≡ code.old ++ arguments_code layout layout.variables (gathered (parts_of (rose_of_typed node.entry.tree.now))) (length code.old)) }
{
    for k in 0..node.count() {
        argument(layout, layout.variables + k as u32, node.part(k).tree, code)?;
    }
    Ok(())
}

/// Appends the code of a print with these arguments.
pub(crate) fn print(
    alloc: Global,
    layout: Layout,
    node: TypedNode<'_>,
    code: &mut Instrs,
) -> Result<(), AllocError>
    requires width { temporary layout + widest (gathered (parts_of (rose_of_typed node.tree.now))) ≤ 4294967295 }
    requires objects { length (parts_of (rose_of_typed node.tree.now)) ≤ layout.objects }
    requires places { places (rose_of_typed node.tree.now) ≤ 4294967295 }
    ensures { OnOk result (code.new ≡ code.old ++ print_code layout (gathered (parts_of (rose_of_typed node.entry.tree.now))) (length code.old)) }
{
    arguments(layout, node, code)?;
    let count = node.count() as u32;
    let registers = registers_from(alloc, layout.variables, count)?;
    code.push(Instr::Print(registers))?;
    drops(layout.variables, count, code)
}

/// Appends the code of a call, whose result isn't kept, of the function with this place.
pub(crate) fn call(
    alloc: Global,
    layout: Layout,
    function: usize,
    t: ValueType,
    code: &mut Instrs,
) -> Result<(), AllocError>
    requires registers { temporary layout ≤ 4294967295 }
    requires function { function + 1 ≤ 4294967295 }
    ensures { OnOk result (code.new ≡ code.old ++ call_code layout function t) }
{
    let object = Register {
        number: layout.variables,
    };
    let to = Register {
        number: layout.variables + layout.objects,
    };
    let number = function as u32 + 1;
    match t {
        ValueType::C(_) => code.push(Instr::Call(number, Some(to), RegisterList::new(alloc))),
        ValueType::Object => {
            code.push(Instr::Call(number, Some(object), RegisterList::new(alloc)))?;
            code.push(Instr::Drop(object))
        }
        ValueType::View(_) => Ok(()),
        ValueType::Void => code.push(Instr::Call(number, None, RegisterList::new(alloc))),
    }
}
