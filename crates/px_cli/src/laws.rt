ghost use Rattle.px_cli.specs.Laws.{AnswersAreUnique, CallsAreComplete, ListingsMeanTheirModules};

use px_compile::images_mean_their_modules;
use px_names::named_modules_are_unique;
use px_parser::laws::parsing_is_unique;
use px_types::typed_trees_are_unique;

/// A text has one answer of a command at most: what is written, or one refusal.
pub fn answers_are_unique()
    ensures { AnswersAreUnique }
{
    parsing_is_unique();
    named_modules_are_unique();
    typed_trees_are_unique();
}

/// A call that asks for a text that is there, and in which nothing fails, is done where the text is accepted and refused where it is
/// refused, but for want of memory.
pub fn calls_are_complete()
    ensures { CallsAreComplete }
{
    answers_are_unique();
}

/// What `list` writes of a module is the listing of an image that means the module.
pub fn listings_mean_their_modules()
    ensures { ListingsMeanTheirModules }
{
    images_mean_their_modules();
}
