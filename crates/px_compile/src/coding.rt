//! The code of a function of a module.

ghost use Rattle.std.specs.Prelude.{◌≡◌, IfOk, map, take};
ghost use Rattle.px_tree.specs.declared.typed_modules.Local.{Local};
ghost use Rattle.px_meaning.specs.Calls.{swallows};
ghost use Rattle.px_machine.specs.Means.{kind_of, start_of};
ghost use Rattle.px_typed_walk.specs.TypedView.{rose_of_typed};
ghost use Rattle.px_stmtgen.specs.FunctionCode.{function_code, function_lines};
ghost use Rattle.px_stmtgen.specs.Sizes.{registers};
ghost use Rattle.px_types.specs.TypedModule.{function_kept, module_kept};
ghost use Rattle.px_compile.specs.Fits.{types_of_locals};
ghost use Rattle.px_compile.specs.ModuleImage.{code_of_function, code_of_module, layout_for, module_image, none_place};
ghost use Rattle.px_compile.specs.FitModules.{is_none};

use crate::modules::is_none;
use px_base::{Chars, Constant, NoMemory, Numbers};
use px_regcode::{Code, Codes, Instrs, RegKind, RegKinds, Start};
use px_stmtgen::{Layout, body_objects, body_places, function, registers};
use px_tree::{Local, Lock, Typed, TypedFunction, TypedTree, ValueType};
use std::alloc::{AllocError, Global};

/// The greatest number of a register, a place or a constant.
const LIMIT: u64 = 4_294_967_295;

/// The place of the first None among constants, or how many there are.
fn none_place(constants: &[Constant]) -> usize
    ensures { result ≡ none_place constants.now }
{
    for (k, what) in constants.iter().enumerate() {
        if is_none(what) {
            return k;
        }
    }
    constants.len()
}

fn swallows(is_noexcept: bool, gives: ValueType) -> bool
    ensures { result ≡ swallows is_noexcept gives }
{
    match gives {
        ValueType::View(_) => false,
        _ => is_noexcept,
    }
}

fn kind_of(t: ValueType) -> RegKind
    ensures { result ≡ kind_of t }
{
    match t {
        ValueType::C(_) => RegKind::Whole,
        ValueType::Object => RegKind::Object,
        ValueType::View(view) => RegKind::View(view.rank),
        ValueType::Void => RegKind::Empty,
    }
}

fn start_of(lock: Lock) -> Start
    ensures { result ≡ start_of lock }
{
    match lock {
        Lock::Unwritten => Start::Held,
        Lock::Nogil => Start::Any,
        Lock::WithGil => Start::Any,
    }
}

/// The kinds of variables.
fn kinds_of(alloc: Global, locals: &[Local]) -> Result<RegKinds, AllocError>
    ensures { IfOk result (λ kinds. kinds ≡ map kind_of (map (λ local. local.value_type) locals.now)) }
{
    let mut kinds = RegKinds::new(alloc);
    for local in locals {
        kinds.push(kind_of(local.value_type))?;
    }
    Ok(kinds)
}

/// The code of statements in which `locals` are the variables: that of a function, or of the module.
///
/// # Errors
/// `NoMemory` where there is no memory for it, as for a frame of 2^32 registers.
fn instructions(
    alloc: Global,
    constants: &[Constant],
    locals: &[Local],
    gives: ValueType,
    line: u32,
    params: usize,
    swallowed: bool,
    body: &[TypedTree],
) -> Result<(u32, Instrs, Numbers), NoMemory>
    ensures registers { IfOk result (λ made. made.0 ≡ registers (layout_for (types_of_locals locals.now) gives constants.now (map rose_of_typed body.now)) (map rose_of_typed body.now)) }
    ensures instrs { IfOk result (λ made. made.1 ≡ function_code (layout_for (types_of_locals locals.now) gives constants.now (map rose_of_typed body.now)) params swallowed (map rose_of_typed body.now)) }
    ensures lines { IfOk result (λ made. made.2 ≡ function_lines (layout_for (types_of_locals locals.now) gives constants.now (map rose_of_typed body.now)) line params swallowed (map rose_of_typed body.now)) }
{
    let none_at = none_place(constants) as u64;
    let objects = body_objects(gives, body);
    let variables = locals.len() as u64;
    if none_at > LIMIT
        || objects > LIMIT - 3
        || variables > LIMIT
        || params as u64 > LIMIT
        || body_places(body) > LIMIT
    {
        return Err(NoMemory);
    }
    let layout = Layout {
        variables: variables as u32,
        objects: objects as u32,
        gives,
        none_at: none_at as u32,
    };
    let wide = registers(layout, body);
    if wide > LIMIT {
        return Err(NoMemory);
    }
    let (instrs, lines) = function(alloc, layout, line, params as u32, swallowed, body)?;
    Ok((wide as u32, instrs, lines))
}

/// The code of a function.
fn code_of_function(
    alloc: Global,
    constants: &[Constant],
    f: &TypedFunction,
) -> Result<Code, NoMemory>
    ensures { IfOk result (λ code. code ≡ code_of_function constants.now (function_kept f.now)) }
{
    let locals = f.locals.as_slice();
    let name = Chars::from_slice(alloc, f.name.as_slice())?;
    let params = kinds_of(alloc, &locals[..f.params.min(locals.len())])?;
    let (registers, instrs, lines) = instructions(
        alloc,
        constants,
        locals,
        f.gives,
        f.header_at.line,
        f.params,
        swallows(f.is_noexcept, f.gives),
        f.body.as_slice(),
    )?;
    Ok(Code {
        name,
        params,
        result: kind_of(f.gives),
        start: start_of(f.lock),
        registers,
        instrs,
        lines,
    })
}

/// The code of module code.
fn code_of_module(alloc: Global, typed: &Typed) -> Result<Code, NoMemory>
    ensures { IfOk result (λ code. code ≡ code_of_module (module_kept typed.now)) }
{
    let name = Chars::from_slice(alloc, &['m', 'o', 'd', 'u', 'l', 'e'])?;
    let (registers, instrs, lines) = instructions(
        alloc,
        typed.constants.as_slice(),
        &[],
        ValueType::Void,
        1,
        0,
        false,
        typed.code.as_slice(),
    )?;
    Ok(Code {
        name,
        params: RegKinds::new(alloc),
        result: RegKind::Empty,
        start: Start::Held,
        registers,
        instrs,
        lines,
    })
}

/// The codes of a module, module code first and behind it the functions in the order of the text: those of its image.
///
/// # Errors
/// `NoMemory` where there is no memory for them, as for a frame of 2^32 registers.
pub fn codes(alloc: Global, typed: &Typed) -> Result<Codes, NoMemory>
    ensures { IfOk result (λ codes. codes ≡ (module_image (module_kept typed.now)).codes) }
{
    let mut codes = Codes::new(alloc);
    codes.push(code_of_module(alloc, typed)?)?;
    for f in typed.functions.as_slice() {
        codes.push(code_of_function(alloc, typed.constants.as_slice(), f)?)?;
    }
    Ok(codes)
}
