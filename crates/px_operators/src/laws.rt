//! Laws of conversions and of the types of operators, each the contract of a function that does nothing.

ghost use Rattle.std.specs.Prelude.{◌≡◌, ◌≢◌, ℕ, Bool, List, ◌∷◌, Ok, zip};
ghost use Rattle.px_base.specs.declared.refusals.Span.{Span};
ghost use Rattle.px_base.specs.declared.c_types.CType.{CType};
ghost use Rattle.px_base.specs.declared.c_types.CType.TheVariants as c;
ghost use Rattle.px_base.specs.declared.c_types.BinOp.{BinOp};
ghost use Rattle.px_base.specs.declared.c_types.UnOp.{UnOp};
ghost use Rattle.px_base.specs.declared.c_types.CmpOp.{CmpOp};
ghost use Rattle.px_ctypes.specs.Conversions.{promoted, common};
ghost use Rattle.px_tree.specs.TypedTypes.{type_of_conversion};
ghost use Rattle.px_tree.specs.declared.typed_values.ValueType.{ValueType};
ghost use Rattle.px_tree.specs.declared.typed_values.ValueType.TheVariants as value;
ghost use Rattle.px_tree.specs.declared.typed_values.Conversion.{Conversion};
ghost use Rattle.px_tree.specs.declared.typed_values.Conversion.TheVariants as conversion;
ghost use Rattle.px_tree.specs.declared.typed_heads.TypedHead.TheVariants as head;
ghost use Rattle.px_typed_walk.specs.TypedView.{TypedRose, type_of};
ghost use Rattle.px_operators.specs.declared.fittings.Fitting.TheVariants as fitting;
ghost use Rattle.px_operators.specs.Outcomes.{Outcome};
ghost use Rattle.px_operators.specs.Conversions.{fitting_of, converted, fitted, tested, in_c};
ghost use Rattle.px_operators.specs.Operators.{Operand, operand, given, kept, unary_step, binary_type, binary_step, chain_of, compare_step, comparison_of, logic_step, logic_of, common_of, of_common, not_of, choice};
ghost use Rattle.px_operators.specs.Laws.{chain_type};

/// A value is converted only where it hasn't the type that is asked for, and then it has that type: so conversions stand between
/// different types alone.
pub fn conversions_are_needed()
    ensures differ { (from to : ValueType) (how : Conversion) → fitting_of from to ≡ fitting.By how → from ≢ to }
    ensures gives { (from to : ValueType) (how : Conversion) → fitting_of from to ≡ fitting.By how → type_of_conversion how ≡ to }
    ensures equal { (from to : ValueType) → fitting_of from to ≡ fitting.Equal → from ≡ to }
    ensures stays { (t : ValueType) (tree : TypedRose) → t ≢ value.Void → type_of tree ≡ t → fitted t tree ≡ Ok tree }
    ensures made { (t : ValueType) (tree made : TypedRose) → fitted t tree ≡ Ok made → type_of made ≡ t }
    ensures test { (tree made : TypedRose) → tested tree ≡ Ok made → type_of made ≡ value.C c.Bint }
{}

/// An operand has the C type that is kept with it, and where an operator takes it in a type it is converted only where it hasn't
/// that one.
pub fn operands_have_their_types()
    ensures asked { (tree : TypedRose) (o : Operand) → operand tree ≡ Ok o → type_of o.0 ≡ value.C o.1 }
    ensures at_hand { (number : ℕ) (at : Span) (t : CType) → type_of (given number at t).0 ≡ value.C (given number at t).1 }
    ensures read_twice { (o : Operand) → type_of (kept o).0 ≡ value.C (kept o).1 }
    ensures taken { (to : CType) (o : Operand) → type_of o.0 ≡ value.C o.1 → type_of (in_c to o) ≡ value.C to }
    ensures stays { (to : CType) (tree : TypedRose) → in_c to (tree, to) ≡ tree }
    ensures differs { (to from : CType) (tree : TypedRose) → from ≢ to → in_c to (tree, from) ≡ converted (conversion.ToC to) tree }
{}

/// The type of each operator on C operands, by theirs.
pub fn operator_types()
    ensures unary { (op : UnOp) (number : ℕ) (at : Span) (o : Operand) → type_of (unary_step op number at o) ≡ value.C (promoted o.1) }
    ensures binary { (cdivision : Bool) (number : ℕ) (at : Span) (op : BinOp) (left right : Operand) →
        type_of (binary_step cdivision number at op left right) ≡ value.C (binary_type op left.1 right.1) }
    ensures comparison { (number : ℕ) (at : Span) (op : CmpOp) (left right : Operand) →
        type_of (compare_step number at op left right) ≡ value.C c.Bint }
    ensures and { (number : ℕ) (at : Span) (left right : Operand) →
        type_of (logic_step head.And number at left right) ≡ value.C (common left.1 right.1) }
    ensures or { (number : ℕ) (at : Span) (left right : Operand) →
        type_of (logic_step head.Or number at left right) ≡ value.C (common left.1 right.1) }
    ensures not { (number : ℕ) (at : Span) (outcomes : List (Outcome TypedRose)) (made : TypedRose) →
        not_of number at outcomes ≡ Ok made → type_of made ≡ value.C c.Bint }
    ensures conditional { (number : ℕ) (at : Span) (left right : Operand) (test : TypedRose) →
        type_of (choice number at ((left, test), right)) ≡ value.C (common left.1 right.1) }
    ensures min { (number : ℕ) (at : Span) (first next : Operand) (others : List Operand) (made : TypedRose) →
        of_common head.Min number at (first ∷ next ∷ others) ≡ Ok made → type_of made ≡ value.C (common_of first.1 (next ∷ others)) }
    ensures max { (number : ℕ) (at : Span) (first next : Operand) (others : List Operand) (made : TypedRose) →
        of_common head.Max number at (first ∷ next ∷ others) ≡ Ok made → type_of made ≡ value.C (common_of first.1 (next ∷ others)) }
{}

/// The type of a chain is that of its last step: of `and` and `or` the common type of all operands, of a comparison `bint`.
pub fn chain_types()
    ensures binary { (cdivision : Bool) (number : ℕ) (at : Span) (ops : List BinOp) (first : Operand) (others : List Operand) (made : TypedRose) →
        chain_of cdivision number at ops (first ∷ others) ≡ Ok made → type_of made ≡ value.C (chain_type first.1 (zip ops others)) }
    ensures comparison { (number : ℕ) (at : Span) (ops : List CmpOp) (operands : List Operand) (made : TypedRose) →
        comparison_of number at ops operands ≡ Ok made → type_of made ≡ value.C c.Bint }
    ensures and { (number : ℕ) (at : Span) (first : Operand) (others : List Operand) (made : TypedRose) →
        logic_of head.And number at (first ∷ others) ≡ Ok made → type_of made ≡ value.C (common_of first.1 others) }
    ensures or { (number : ℕ) (at : Span) (first : Operand) (others : List Operand) (made : TypedRose) →
        logic_of head.Or number at (first ∷ others) ≡ Ok made → type_of made ≡ value.C (common_of first.1 others) }
{}
