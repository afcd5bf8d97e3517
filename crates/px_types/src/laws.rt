//! Laws of types.

ghost use Rattle.std.specs.Prelude.{◌≡◌};
ghost use Rattle.px_names.specs.declared.named.Named.{Named};
ghost use Rattle.px_names.specs.Laws.{IsSameNamed};
ghost use Rattle.px_types.specs.Types.{types_of};

/// The types of a module are determined by its text and by what its names stand for.
pub fn typed_trees_are_unique()
    ensures { (a b : Named) → IsSameNamed a b → types_of a ≡ types_of b }
{}
