//! Laws of names.

ghost use Rattle.std.specs.Prelude.{◌≡◌, ℕ, List, Option, Some};
ghost use Rattle.px_tree.specs.declared.modules.Module.{Module};
ghost use Rattle.px_names.specs.declared.meanings.Meaning.{Meaning};
ghost use Rattle.px_names.specs.declared.named.Named.{Named};
ghost use Rattle.px_names.specs.Declarations.{Names};
ghost use Rattle.px_names.specs.Meanings.{meaning_of};
ghost use Rattle.px_names.specs.NamedModule.{IsNamed};
ghost use Rattle.px_names.specs.Laws.{IsAccepted, AreNamesKnown, AreDeclarationsSingle, AreFunctionsSingle, IsSameNamed};

/// A name stands for one thing at most; and in a module that breaks no rule of names each one that is read or called stands for
/// something, none is declared twice in one function, and no function has the name of another.
pub fn names_stand_for_one()
    ensures once { (names : Names) (function : Option ℕ) (name : List ℕ) (a b : Meaning) →
        meaning_of names function name ≡ Some a → meaning_of names function name ≡ Some b → a ≡ b }
    ensures known { (m : Module) → IsAccepted m → AreNamesKnown m }
    ensures declarations { (m : Module) → IsAccepted m → AreDeclarationsSingle m }
    ensures functions { (m : Module) → IsAccepted m → AreFunctionsSingle m }
{}

/// What the names of a module stand for, and its directives, are determined by its text.
pub fn named_modules_are_unique()
    ensures { (m : Module) (a b : Named) → IsNamed m a → IsNamed m b → IsSameNamed a b }
{}
