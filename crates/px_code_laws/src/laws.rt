//! What holds of the code of modules.

ghost use Rattle.px_regcode.specs.Images.{ImageParts};
ghost use Rattle.px_meaning.specs.Calls.{Source};
ghost use Rattle.px_machine.specs.Means.{Means};
ghost use Rattle.px_code_laws.specs.Compiled.{IsCompiled};
ghost use Rattle.px_code_laws.specs.Outcomes.{CompiledModulesHaveOutcomes};

/// An image that is the code of a module means the module: on one member the code of each of its functions, and module code, make the
/// requests of the source in their order and come to the same, for every number of turns, whatever is answered. The functions have no
/// parameters, and the statements are those that stand in straight lines over numbers of C types: declarations, assignments, `print` of
/// numbers, calls as statements, and `return`.
pub fn code_means_its_module()
    ensures { (image : ImageParts) (source : Source) → IsCompiled image source → Means image source }
{}

/// A module that has such code, and in whose own code no `return` stands, has a meaning on each input, for every number of turns and size
/// of its team: it ends, raises a fault or runs out of turns, and comes to no form without a meaning and to no parallel loop.
pub fn compiled_modules_have_outcomes()
    ensures { CompiledModulesHaveOutcomes }
{}
