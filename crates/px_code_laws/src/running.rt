//! That the code of modules is code that members run.

ghost use Rattle.px_regcode.specs.Images.{ImageParts};
ghost use Rattle.px_meaning.specs.Calls.{Source};
ghost use Rattle.px_machine.specs.Running.{AllRun};
ghost use Rattle.px_code_laws.specs.Compiled.{IsCompiled};

/// An image that is the code of a module has only instructions that a member runs.
pub fn code_runs()
    ensures { (image : ImageParts) (source : Source) → IsCompiled image source → AllRun image }
{}
