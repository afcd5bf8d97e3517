//! Appends the code of ends without a value, and code over registers that stand behind one another.

ghost use Rattle.std.specs.Prelude.{◌≡◌, ◌+◌, ◌≤◌, ◌++◌, IfOk, OnOk};
ghost use Rattle.px_stmtgen.specs.FunctionCode.{zeros};
ghost use Rattle.px_stmtgen.specs.Layouts.{temporary, registers_from, drops, ending_code};

use crate::layouts::Layout;
use px_regcode::{Instr, Instrs, Register, RegisterList};
use px_tree::ValueType;
use std::alloc::{AllocError, Global};

/// So many registers from one on.
pub(crate) fn registers_from(
    alloc: Global,
    first: u32,
    count: u32,
) -> Result<RegisterList, AllocError>
    requires { first + count ≤ 4294967295 }
    ensures { IfOk result (λ list. list ≡ registers_from first count) }
{
    let mut list = RegisterList::new(alloc);
    for number in first..first + count {
        list.push(Register { number })?;
    }
    Ok(list)
}

/// Appends code that lets the objects in so many registers go.
pub(crate) fn drops(first: u32, count: u32, code: &mut Instrs) -> Result<(), AllocError>
    requires { first + count ≤ 4294967295 }
    ensures { OnOk result (code.new ≡ code.old ++ drops first count) }
{
    for number in first..first + count {
        code.push(Instr::Drop(Register { number }))?;
    }
    Ok(())
}

/// Appends code that sets so many registers to 0.
pub(crate) fn zeros(first: u32, count: u32, code: &mut Instrs) -> Result<(), AllocError>
    requires { first + count ≤ 4294967295 }
    ensures { OnOk result (code.new ≡ code.old ++ zeros first count) }
{
    for number in first..first + count {
        code.push(Instr::Const(Register { number }, 0))?;
    }
    Ok(())
}

/// Appends the end of a function without a value.
pub(crate) fn ending(layout: Layout, code: &mut Instrs) -> Result<(), AllocError>
    requires { temporary layout ≤ 4294967295 }
    ensures { OnOk result (code.new ≡ code.old ++ ending_code layout layout.gives) }
{
    let object = Register {
        number: layout.variables,
    };
    let to = Register {
        number: layout.variables + layout.objects,
    };
    match layout.gives {
        ValueType::C(_) => {
            code.push(Instr::Const(to, 0))?;
            code.push(Instr::Return(to))
        }
        ValueType::Object => {
            code.push(Instr::Text(object, layout.none_at))?;
            code.push(Instr::Return(object))
        }
        ValueType::View(_) => Ok(()),
        ValueType::Void => code.push(Instr::Finish),
    }
}
