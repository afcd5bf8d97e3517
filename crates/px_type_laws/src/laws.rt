//! Erasing what the rules of types add gives the parse tree back.

ghost use Rattle.std.specs.Prelude.{◌≡◌, Bool, List, Ok};
ghost use Rattle.px_tree.specs.declared.modules.Function.{Function};
ghost use Rattle.px_walk.specs.ExprView.{Tree};
ghost use Rattle.px_typed_walk.specs.TypedView.{TypedRose};
ghost use Rattle.px_names.specs.declared.named.Named.{Named};
ghost use Rattle.px_names.specs.declared.named.NamedCode.{NamedCode};
ghost use Rattle.px_environments.specs.Environments.{Environment};
ghost use Rattle.px_typed_expressions.specs.Expressions.{expression};
ghost use Rattle.px_types.specs.Statements.{statement};
ghost use Rattle.px_types.specs.TypedModule.{FunctionTypes, ModuleTypes, function_types};
ghost use Rattle.px_types.specs.Types.{types_of};
ghost use Rattle.px_type_laws.specs.Erased.{erased};
ghost use Rattle.px_type_laws.specs.BareExpressions.{bare};
ghost use Rattle.px_type_laws.specs.BareStatements.{bare_statement};
ghost use Rattle.px_type_laws.specs.BareModules.{erased_function, erased_module, bare_function, bare_module};

/// A typed tree without the conversions that the rules of types ask for, the values that are read again, and the steps into which
/// operators are taken apart is the tree that was parsed, each node with its number and its place, where names and written types are
/// what they stand for. Written types and names that are called have the number 0 and the place of what they are part of; the names of
/// `global` and the groups of declarations are left out on both sides.
pub fn erasing_gives_the_parse_tree_back()
    ensures expressions { (environment : Environment) (tree : Tree) (typed : TypedRose) →
        expression environment tree ≡ Ok typed → erased typed ≡ bare environment tree }
    ensures statements { (environment : Environment) (looped : Bool) (tree : Tree) (typed : TypedRose) →
        statement environment looped tree ≡ Ok typed → erased typed ≡ bare_statement environment tree }
    ensures functions { (functions : List Function) (f : Function) (code : NamedCode) (types : FunctionTypes) →
        function_types functions (f, code) ≡ Ok types → erased_function types ≡ bare_function functions (f, code) }
    ensures modules { (named : Named) (types : ModuleTypes) → types_of named ≡ Ok types → erased_module types ≡ bare_module named }
{}
