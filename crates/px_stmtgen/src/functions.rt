//! The code of functions and of module code.

ghost use Rattle.std.specs.Prelude.{◌≡◌, ◌+◌, ◌-◌, ◌≤◌, ◌++◌, length, map, replicate, IfOk, OnOk};
ghost use Rattle.px_walk.specs.Roses.{at_of};
ghost use Rattle.px_typed_walk.specs.TypedView.{rose_of_typed};
ghost use Rattle.px_exprgen.specs.Places.{places};
ghost use Rattle.px_stmtgen.specs.FunctionCode.{cleanup, handles, prologue, body_code, function_code, function_lines, lines_in_turn};
ghost use Rattle.px_stmtgen.specs.Layouts.{temporary};
ghost use Rattle.px_stmtgen.specs.Sizes.{objects, greatest, registers};
ghost use Rattle.px_stmtgen.specs.StatementCode.{in_turn_code, statement_code, statement_width};

use crate::endings::{drops, ending, zeros};
use crate::layouts::Layout;
use crate::statements::statement;
use px_base::Numbers;
use px_regcode::{Instr, Instrs};
use px_tree::{TypedTree, ValueType};
use px_typed_walk::at_of;
use std::alloc::{AllocError, Global};

/// The length of the code where a fault goes.
fn cleanup_length(layout: Layout, swallows: bool) -> u32
    requires { layout.objects + 3 ≤ 4294967295 }
    ensures { result ≡ length (cleanup layout swallows) }
{
    if swallows {
        match layout.gives {
            ValueType::C(_) => layout.objects + 2,
            ValueType::Object => layout.objects + 2,
            ValueType::View(_) => layout.objects,
            ValueType::Void => layout.objects + 1,
        }
    } else {
        layout.objects + 1
    }
}

/// Appends the code where a fault goes.
fn clean(layout: Layout, swallows: bool, code: &mut Instrs) -> Result<(), AllocError>
    requires { temporary layout ≤ 4294967295 }
    ensures { OnOk result (code.new ≡ code.old ++ cleanup layout swallows) }
{
    drops(layout.variables, layout.objects, code)?;
    if swallows {
        ending(layout, code)
    } else {
        code.push(Instr::Throw)
    }
}

/// Appends the code with which a function begins that needs to do something where a fault goes.
fn begin(layout: Layout, swallows: bool, code: &mut Instrs) -> Result<(), AllocError>
    requires registers { temporary layout ≤ 4294967295 }
    requires objects { layout.objects + 3 ≤ 4294967295 }
    ensures { OnOk result (code.new ≡ code.old ++ prologue layout swallows) }
{
    if layout.objects != 0 || swallows {
        code.push(Instr::Jump(cleanup_length(layout, swallows) + 1))?;
        clean(layout, swallows, code)?;
        code.push(Instr::Handle(1))
    } else {
        Ok(())
    }
}

/// Appends a line for each instruction that has none yet.
fn fill(code: &Instrs, line: u32, lines: &mut Numbers) -> Result<(), AllocError>
    requires { length lines.old ≤ length code.now }
    ensures { OnOk result (lines.new ≡ lines.old ++ replicate (length code.now - length lines.old) line) }
{
    let missing = code.len() - lines.len();
    for k in 0..missing {
        lines.push(u64::from(line))?;
    }
    Ok(())
}

/// Appends the code of a statement, and its line for each instruction.
fn with_lines(
    alloc: Global,
    layout: Layout,
    tree: &TypedTree,
    code: &mut Instrs,
    lines: &mut Numbers,
) -> Result<(), AllocError>
    requires width { temporary layout + statement_width (rose_of_typed tree.now) ≤ 4294967295 }
    requires objects { objects (rose_of_typed tree.now) ≤ layout.objects }
    requires places { places (rose_of_typed tree.now) ≤ 4294967295 }
    requires together { length lines.old ≡ length code.old }
    ensures code { OnOk result (code.new ≡ code.old ++ statement_code layout (rose_of_typed tree.now) (length code.old)) }
    ensures lines { OnOk result (lines.new ≡ lines.old ++ replicate (length (statement_code layout (rose_of_typed tree.now) (length code.old))) (at_of (rose_of_typed tree.now)).line) }
{
    statement(alloc, layout, tree, code)?;
    fill(code, at_of(tree).line, lines)
}

/// Appends the code of statements one behind another, and their lines.
fn statements(
    alloc: Global,
    layout: Layout,
    body: &[TypedTree],
    code: &mut Instrs,
    lines: &mut Numbers,
) -> Result<(), AllocError>
    requires width { temporary layout + greatest statement_width (map rose_of_typed body.now) ≤ 4294967295 }
    requires objects { greatest objects (map rose_of_typed body.now) ≤ layout.objects }
    requires places { greatest places (map rose_of_typed body.now) ≤ 4294967295 }
    requires together { length lines.old ≡ length code.old }
    ensures code { OnOk result (code.new ≡ code.old ++ in_turn_code (map (statement_code layout) (map rose_of_typed body.now)) (length code.old)) }
    ensures lines { OnOk result (lines.new ≡ lines.old ++ lines_in_turn layout (map rose_of_typed body.now) (length code.old)) }
{
    for tree in body {
        with_lines(alloc, layout, tree, code, lines)?;
    }
    Ok(())
}

/// The code of a function, whose parameters are the first of its variables: what it does where a fault goes, its variables, its
/// statements, and the end behind them; and for each instruction its line, that of the statement that it stems from, or else that of the
/// header. The registers that it takes and the places that it names are words of 32 bits, and the layout has registers for its objects.
///
/// # Errors
/// `AllocError` where there is no memory.
pub fn function(
    alloc: Global,
    layout: Layout,
    line: u32,
    params: u32,
    swallows: bool,
    body: &[TypedTree],
) -> Result<(Instrs, Numbers), AllocError>
    requires registers { registers layout (map rose_of_typed body.now) ≤ 4294967295 }
    requires handled { layout.objects + 3 ≤ 4294967295 }
    requires objects { greatest objects (map rose_of_typed body.now) ≤ layout.objects }
    requires places { greatest places (map rose_of_typed body.now) ≤ 4294967295 }
    ensures code { IfOk result (λ made. made.0 ≡ function_code layout params swallows (map rose_of_typed body.now)) }
    ensures lines { IfOk result (λ made. made.1 ≡ function_lines layout line params swallows (map rose_of_typed body.now)) }
{
    let mut code = Instrs::new(alloc);
    let mut lines = Numbers::new(alloc);
    begin(layout, swallows, &mut code)?;
    zeros(params, layout.variables.saturating_sub(params), &mut code)?;
    fill(&code, line, &mut lines)?;
    statements(alloc, layout, body, &mut code, &mut lines)?;
    ending(layout, &mut code)?;
    fill(&code, line, &mut lines)?;
    Ok((code, lines))
}
