//! Runs a module of the form that is built, and refuses every other one.

ghost use Rattle.std.specs.Prelude.{◌≡◌, ◌↔◌, IsTrue, IfOk};
ghost use Rattle.px_base.specs.declared.refusals.Span.{Span};
ghost use Rattle.px_base.specs.Troubles.{IfRefused};
ghost use Rattle.px_cli.specs.FirstRefusals.{IsCallItem, IsUnbuilt, StopsAt, unbuilt_refusal, place_of};
ghost use Rattle.px_cli.specs.FirstMeaning.{DoInTurn, IsMain, Prints, Values, no_values};

use crate::statements::{MAIN, arguments_of, run_statement, unbuilt_at};
use crate::variables::Variables;
use px_base::{Bytes, Span, Trouble};
use px_tree::{
    ExceptionForm, Function, FunctionKind, Lock, Module, ModuleItem, ResultType, Stmt, StmtForm,
};
use sqlite_items::at;
use std::alloc::Global;

/// Whether it is `def main():`, with nothing else in its head.
pub(crate) fn is_main(function: &Function) -> bool
    ensures { IsTrue result ↔ IsMain function.now }
{
    function.decorators.is_empty()
        && function.kind == FunctionKind::Def
        && !function.is_inline
        && matches!(function.gives, ResultType::Unwritten)
        && function.name.as_slice() == MAIN
        && function.params.is_empty()
        && matches!(function.exception, ExceptionForm::Unwritten)
        && function.lock == Lock::Unwritten
}

/// Whether it is `main()`.
pub(crate) fn is_call(item: &ModuleItem) -> bool
    ensures { IsTrue result ↔ IsCallItem item.now }
{
    let ModuleItem::Statement(statement) = item else {
        return false;
    };
    let StmtForm::Assign(targets, call) = &statement.form else {
        return false;
    };
    let Some(arguments) = arguments_of(MAIN, call) else {
        return false;
    };
    targets.is_empty() && arguments.is_empty()
}

/// The place of what stands in a module.
fn place(item: &ModuleItem) -> Span
    ensures { result ≡ place_of item.now }
{
    match item {
        ModuleItem::Import(found) => found.at,
        ModuleItem::Function(found) => found.get().at,
        ModuleItem::Statement(found) => found.at,
    }
}

/// Runs the body of `main`, and gives what it prints.
pub(crate) fn run_body(alloc: Global, body: &[Stmt]) -> Result<Bytes, Trouble>
    ensures done { IfOk result (λ output. (after : Values) × DoInTurn no_values body.now after output) }
    ensures refused { IfRefused result (λ refusal.
        (at : Span) × StopsAt no_values body.now at × (refusal ≡ unbuilt_refusal at)) }
{
    let mut variables = Variables::new(alloc);
    let mut output = Bytes::new(alloc);
    for statement in body {
        run_statement(&mut variables, statement, &mut output)?;
    }
    Ok(output)
}

/// Runs a module, and gives what it prints.
///
/// # Errors
/// E27 at the first import, function, declaration or statement with which the module isn't of the form that is built, or
/// at its first token where something is missing; `NoMemory` where there is no memory for its variables or the output.
pub(crate) fn run_module(alloc: Global, tree: &Module) -> Result<Bytes, Trouble>
    ensures done { IfOk result (Prints tree.now) }
    ensures refused { IfRefused result (IsUnbuilt tree.now) }
{
    let items = tree.items.as_slice();
    let Some(first) = at(items, 0) else {
        return Err(unbuilt_at(tree.at));
    };
    let ModuleItem::Function(main) = first else {
        return Err(unbuilt_at(place(first)));
    };
    let main = main.get();
    if !is_main(main) {
        return Err(unbuilt_at(main.at));
    }
    let output = run_body(alloc, main.body.as_slice())?;
    let Some(next) = at(items, 1) else {
        return Err(unbuilt_at(tree.at));
    };
    if !is_call(next) {
        return Err(unbuilt_at(place(next)));
    }
    if let Some(further) = at(items, 2) {
        return Err(unbuilt_at(place(further)));
    }
    Ok(output)
}
