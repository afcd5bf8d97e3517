//! Laws of the arithmetic, each the contract of a function that does nothing.

ghost use Rattle.std.specs.Prelude.{◌≡◌, ◌≢◌, ℕ, ◌-◌, ◌^◌, ◌<◌, ℤ, pos, negsuc, ◌+ℤ◌, ◌-ℤ◌, ◌*ℤ◌, ◌≤ℤ◌, ◌<ℤ◌, Bool, IsTrue, Ok, ◌↔◌, bit_and, bit_or, bit_xor};
ghost use Rattle.px_base.specs.declared.c_types.BinOp.TheVariants.{FloorDiv, Mod};
ghost use Rattle.px_base.specs.declared.c_types.CType.{CType};
ghost use Rattle.px_base.specs.declared.c_types.UnOp.TheVariants.{Invert};
ghost use Rattle.px_ctypes.specs.Conversions.{common, promoted};
ghost use Rattle.px_ctypes.specs.Division.{IsFloored, IsTruncated, floor_div, floor_mod, trunc_div, trunc_mod};
ghost use Rattle.px_ctypes.specs.Operators.{binary_value, bitwise_value, unary_value, word_of};
ghost use Rattle.px_ctypes.specs.Types.{IsInRange, bits, greatest, is_signed, least};
ghost use Rattle.px_ctypes.specs.Wrapping.{IsWrapped, wrap};

/// Exactly one number of a type's range is congruent to a number modulo 2^width, and `wrap` is it.
pub fn wrapping_is_exact()
    ensures some { (t : CType) (n : ℤ) → IsWrapped t n (wrap t n) }
    ensures one { (t : CType) (n a b : ℤ) → IsWrapped t n a → IsWrapped t n b → a ≡ b }
{}

/// To wrap on the way changes no sum, difference or product, and a number of the range stays.
pub fn wrapping_on_the_way()
    ensures kept { (t : CType) (n : ℤ) → IsInRange t n → wrap t n ≡ n }
    ensures idempotent { (t : CType) (n : ℤ) → wrap t (wrap t n) ≡ wrap t n }
    ensures add_left { (t : CType) (a b : ℤ) → wrap t (wrap t a +ℤ b) ≡ wrap t (a +ℤ b) }
    ensures add_right { (t : CType) (a b : ℤ) → wrap t (a +ℤ wrap t b) ≡ wrap t (a +ℤ b) }
    ensures sub_left { (t : CType) (a b : ℤ) → wrap t (wrap t a -ℤ b) ≡ wrap t (a -ℤ b) }
    ensures sub_right { (t : CType) (a b : ℤ) → wrap t (a -ℤ wrap t b) ≡ wrap t (a -ℤ b) }
    ensures mul_left { (t : CType) (a b : ℤ) → wrap t (wrap t a *ℤ b) ≡ wrap t (a *ℤ b) }
    ensures mul_right { (t : CType) (a b : ℤ) → wrap t (a *ℤ wrap t b) ≡ wrap t (a *ℤ b) }
{}

/// The quotient that is rounded down, or toward 0, and what it leaves: they are there, and no others are. The remainder
/// has the divisor's sign where the quotient is rounded down, and else the dividend's.
pub fn division_is_exact()
    ensures floored { (a b : ℤ) → b ≢ pos 0 → IsFloored a b (floor_div a b) (floor_mod a b) }
    ensures floored_once { (a b q r : ℤ) → b ≢ pos 0 → IsFloored a b q r → (q ≡ floor_div a b) × (r ≡ floor_mod a b) }
    ensures truncated { (a b : ℤ) → b ≢ pos 0 → IsTruncated a b (trunc_div a b) (trunc_mod a b) }
    ensures truncated_once { (a b q r : ℤ) → b ≢ pos 0 → IsTruncated a b q r → (q ≡ trunc_div a b) × (r ≡ trunc_mod a b) }
{}

/// `a == (a // b) * b + a % b`, as C computes it, under both settings of `cdivision` where neither part faults.
pub fn quotient_and_remainder_give_back()
    ensures { (t : CType) (a b q r : ℤ) (cdivision : Bool) → IsInRange t a
        → binary_value FloorDiv t a b cdivision ≡ Ok q → binary_value Mod t a b cdivision ≡ Ok r
        → wrap t (wrap t (q *ℤ b) +ℤ r) ≡ a }
{}

/// A quotient of two values passes the greatest one at the least value over -1 alone. There a quotient that is rounded
/// toward 0 wraps to the least value, and -1 leaves nothing of any number.
pub fn division_overflows_at_minus_one()
    ensures pair { (t : CType) (a b : ℤ) → IsInRange t a → IsInRange t b → b ≢ pos 0
        → (greatest t <ℤ floor_div a b) ↔ ((a ≡ least t) × (b ≡ negsuc 0)) }
    ensures wraps { (t : CType) → wrap t (trunc_div (least t) (negsuc 0)) ≡ least t }
    ensures floored { (a : ℤ) → floor_mod a (negsuc 0) ≡ pos 0 }
    ensures truncated { (a : ℤ) → trunc_mod a (negsuc 0) ≡ pos 0 }
{}

/// A bitwise operator combines the words of bits that represent its operands.
pub fn bitwise_by_words()
    ensures small { (t : CType) (a : ℤ) → word_of t a < 2 ^ bits t }
    ensures and { (t : CType) (a b : ℤ) → word_of t (bitwise_value t bit_and a b) ≡ bit_and (word_of t a) (word_of t b) }
    ensures or { (t : CType) (a b : ℤ) → word_of t (bitwise_value t bit_or a b) ≡ bit_or (word_of t a) (word_of t b) }
    ensures xor { (t : CType) (a b : ℤ) → word_of t (bitwise_value t bit_xor a b) ≡ bit_xor (word_of t a) (word_of t b) }
    ensures not { (t : CType) (a : ℤ) → word_of t (unary_value Invert t a) ≡ 2 ^ bits t - 1 - word_of t a }
{}

/// Promotion keeps all values. The common type doesn't depend on the operands' order; it holds all values of the promoted
/// operands, but for the negative ones where it is unsigned.
pub fn common_type_holds_operands()
    ensures promoted_greatest { (t : CType) → greatest t ≤ℤ greatest (promoted t) }
    ensures promoted_least { (t : CType) → least (promoted t) ≤ℤ least t }
    ensures commutes { (a b : CType) → common a b ≡ common b a }
    ensures greatest { (a b : CType) → greatest (promoted a) ≤ℤ greatest (common a b) }
    ensures least { (a b : CType) → IsTrue (is_signed (common a b)) → least (common a b) ≤ℤ least (promoted a) }
{}
