//! What holds of the images of modules, each as the contract of a function that does nothing.

ghost use Rattle.std.specs.Prelude.{◌≡◌, None};
ghost use Rattle.px_tree.specs.declared.typed_modules.Typed.{Typed};
ghost use Rattle.px_meaning.specs.Modules.{source_of};
ghost use Rattle.px_machine.specs.Means.{Means};
ghost use Rattle.px_machine.specs.Running.{AllRun};
ghost use Rattle.px_code_laws.specs.Compiled.{IsCompiled};
ghost use Rattle.px_types.specs.TypedModule.{module_kept};
ghost use Rattle.px_compile.specs.FitModules.{unbuilt_of};
ghost use Rattle.px_compile.specs.ModuleImage.{module_image};
ghost use Rattle.px_compile.specs.ModuleRuns.{BuiltImagesRun, BuiltModulesHaveOutcomes};

use px_code_laws::{code_means_its_module, code_runs, compiled_modules_have_outcomes};
use px_machine::laws::images_give_the_meaning;

/// The image of a module in which nothing is without code is the code of the module, and means it.
pub fn images_mean_their_modules()
    ensures code { (typed : Typed) → unbuilt_of (module_kept typed) ≡ None → IsCompiled (module_image (module_kept typed)) (source_of typed) }
    ensures meaning { (typed : Typed) → unbuilt_of (module_kept typed) ≡ None → Means (module_image (module_kept typed)) (source_of typed) }
{
    code_means_its_module();
}

/// The image of a module in which nothing is without code has only instructions that a member runs.
pub fn images_run()
    ensures { (typed : Typed) → unbuilt_of (module_kept typed) ≡ None → AllRun (module_image (module_kept typed)) }
{
    code_runs();
}

/// A module that has types, and in which nothing is without code, has a meaning on each input, for every number of turns and size of its
/// team; and the main member of its image runs to its end and gives just that.
pub fn built_modules_have_outcomes()
    ensures outcome { BuiltModulesHaveOutcomes }
    ensures run { BuiltImagesRun }
{
    code_means_its_module();
    compiled_modules_have_outcomes();
    images_give_the_meaning();
}
