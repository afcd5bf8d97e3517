ghost use Rattle.std.specs.Prelude.{◌≡◌, not, ◌≢◌, ℕ, pos, ◌+◌, ◌-◌, ◌*◌, ◌^◌, ◌<◌, ◌≤◌, ◌⊎◌, ◌==◌, ◌||◌, ◌&&◌, ◌↔◌, drop, length, slice_index, slice_range, IsTrue, IsFalse, SomeIff, MatchOption, MatchResult};
ghost use Rattle.std.specs.Char.{is_digit, digit_value};
ghost use Rattle.px_lexer.specs.declared.forms.Form.TheVariants as form;
ghost use Rattle.px_lexer.specs.Numbers.{underscore, zero_digit, IsDigits, base_of, digits_value, is_zero, number_limit};
ghost use Rattle.px_lexer.specs.NumberSteps.{IsDecimalAt, digits_len, point_len, sign_len, exponent_len, suffix_len, letter_len, with_digit, IsBasedAt, IsNumeralAt};
ghost use Rattle.px_lexer.specs.Pieces.{form_of};
ghost use Rattle.px_lexer.specs.Readers.{IsReadAs, IsRefusedFor};
ghost use Rattle.px_lexer.specs.Refusals.{IsBadNumber};

use crate::characters::Characters;
use crate::readings::{Breach, Found};
use crate::token_list::TokenKind;

/// A numeric literal: the base of its digits, where they begin and end, and the index behind the literal.
#[derive(Clone, Copy)]
struct Literal {
    base: u32,
    digits: usize,
    whole: usize,
    to: usize,
}

/// The whole number at an index.
///
/// # Errors
/// E2 where it begins with a superfluous 0 or an identifier character follows it, else E8 where it is a float, else E9
/// where it is 2^127 or more.
pub(crate) fn number(cs: &Characters, from: usize) -> Result<Found, Breach>
    requires { form_of (drop from cs.now) ≡ form.Number }
    ensures { MatchResult result (IsReadAs form.Number cs.now from) (IsRefusedFor form.Number cs.now from) }
{
    let literal = literal_at(cs, from);
    if is_bad(cs, from, literal) {
        return Err(Breach { rule: 2, at: from });
    }
    if literal.whole != literal.to {
        return Err(Breach { rule: 8, at: from });
    }
    match value(cs, literal.digits, literal.to, literal.base) {
        Some(value) => Ok(Found {
            kind: TokenKind::Number(value),
            to: literal.to,
        }),
        None => Err(Breach { rule: 9, at: from }),
    }
}

/// The literal at an index, as long as it can be.
fn literal_at(cs: &Characters, from: usize) -> Literal
    ensures { IsNumeralAt (drop from cs.now) from result }
{
    match based_literal(cs, from) {
        Some(literal) => literal,
        None => decimal_literal(cs, from),
    }
}

/// The literal with a letter for its base at an index, if there is one.
fn based_literal(cs: &Characters, from: usize) -> Option<Literal>
    ensures { IsBasedAt (drop from cs.now) from result }
{
    if !stands(cs, from, b'0') {
        return None;
    }
    let base = named_base(cs, from + 1)?;
    let digits = letter_end(cs, from);
    if !is_digit(cs, digits, base) {
        return None;
    }
    let to = digits_end(cs, digits, base);
    Some(Literal {
        base,
        digits,
        whole: to,
        to,
    })
}

/// The base that the letter at an index names.
fn named_base(cs: &Characters, at: usize) -> Option<u32>
    ensures value { MatchOption result
        (base_of (slice_index cs.now at) ≡ 0)
        (λ base. (base ≡ base_of (slice_index cs.now at)) × (2 ≤ base) × (base ≤ 16) × (at + 1 < 2 ^ 64)) }
{
    if at >= cs.len() {
        return None;
    }
    match cs.character(at) {
        Some('x' | 'X') => Some(16),
        Some('o' | 'O') => Some(8),
        Some('b' | 'B') => Some(2),
        _ => None,
    }
}

/// The index behind 0, a letter for a base, and the underscore that may follow.
fn letter_end(cs: &Characters, from: usize) -> usize
    requires { from + 2 < 2 ^ 64 }
    ensures { result ≡ from + letter_len (drop from cs.now) }
{
    if stands(cs, from + 2, b'_') {
        from + 3
    } else {
        from + 2
    }
}

/// The literal without a letter for its base at an index.
fn decimal_literal(cs: &Characters, from: usize) -> Literal
    ensures { IsDecimalAt (drop from cs.now) from result }
{
    let whole = digits_end(cs, from, 10);
    let point = point_end(cs, whole);
    let exponent = exponent_end(cs, point);
    Literal {
        base: 10,
        digits: from,
        whole,
        to: suffix_end(cs, exponent),
    }
}

/// The index behind the point at an index and its digits.
fn point_end(cs: &Characters, from: usize) -> usize
    ensures { result ≡ from + point_len (drop from cs.now) }
{
    if stands(cs, from, b'.') {
        digits_end(cs, from + 1, 10)
    } else {
        from
    }
}

/// The index behind the exponent at an index.
fn exponent_end(cs: &Characters, from: usize) -> usize
    ensures { result ≡ from + exponent_len (drop from cs.now) }
{
    if !stands_either(cs, from, b'e', b'E') {
        return from;
    }
    let digits = sign_end(cs, from);
    if is_digit(cs, digits, 10) {
        digits_end(cs, digits, 10)
    } else {
        from
    }
}

/// The index behind the `e` at an index and its sign.
fn sign_end(cs: &Characters, from: usize) -> usize
    requires { from + 1 < 2 ^ 64 }
    ensures { result ≡ from + sign_len (drop from cs.now) }
{
    if stands_either(cs, from + 1, b'+', b'-') {
        from + 2
    } else {
        from + 1
    }
}

/// The index behind the suffix at an index.
fn suffix_end(cs: &Characters, from: usize) -> usize
    ensures { result ≡ from + suffix_len (drop from cs.now) }
{
    if stands(cs, from, b'j') {
        from + 1
    } else {
        from
    }
}

/// The index behind the digits at an index; between two of them one underscore may stand.
fn digits_end(cs: &Characters, from: usize, base: u32) -> usize
    requires lower { 2 ≤ base }
    requires upper { base ≤ 36 }
    ensures { result ≡ from + digits_len base (drop from cs.now) }
{
    if !is_digit(cs, from, base) {
        return from;
    }
    let mut at = from + 1;
    while goes_on(cs, at, base) {
        at += 1;
    }
    at
}

/// Whether digits go on with the character at an index.
fn goes_on(cs: &Characters, at: usize, base: u32) -> bool
    requires lower { 2 ≤ base }
    requires upper { base ≤ 36 }
    ensures value { result ≡ (is_digit (slice_index cs.now at) base
        || slice_index cs.now at == underscore && is_digit (slice_index cs.now (at + 1)) base) }
    ensures inside { IsTrue result → (at < length cs.now) × (at + 1 < 2 ^ 64) }
{
    is_digit(cs, at, base) || stands(cs, at, b'_') && is_digit(cs, at + 1, base)
}

/// Whether the character at an index is this one.
fn stands(cs: &Characters, at: usize, c: u8) -> bool
    requires { 0 < c }
    ensures value { result ≡ (slice_index cs.now at == c) }
    ensures inside { IsTrue result → (at < length cs.now) × (at + 1 < 2 ^ 64) }
{
    at < cs.len() && cs.code(at) == u32::from(c)
}

/// Whether the character at an index is one of these two.
fn stands_either(cs: &Characters, at: usize, first: u8, second: u8) -> bool
    requires first { 0 < first }
    requires second { 0 < second }
    ensures value { result ≡ (slice_index cs.now at == first || slice_index cs.now at == second) }
    ensures inside { IsTrue result → (at < length cs.now) × (at + 1 < 2 ^ 64) }
{
    stands(cs, at, first) || stands(cs, at, second)
}

/// Whether a digit of the base stands at an index.
fn is_digit(cs: &Characters, at: usize, base: u32) -> bool
    requires lower { 2 ≤ base }
    requires upper { base ≤ 36 }
    ensures value { result ≡ is_digit (slice_index cs.now at) base }
    ensures inside { IsTrue result → (at < length cs.now) × (at + 1 < 2 ^ 64) }
{
    at < cs.len() && digit(cs, at, base).is_some()
}

/// The value of the digit at an index.
fn digit(cs: &Characters, at: usize, base: u32) -> Option<u32>
    requires lower { 2 ≤ base }
    requires upper { base ≤ 36 }
    ensures { SomeIff result (digit_value (slice_index cs.now at) < base) (digit_value (slice_index cs.now at)) }
{
    match cs.character(at) {
        Some(c) => c.to_digit(base),
        None => None,
    }
}

/// Whether the literal begins with a superfluous 0, or an identifier character follows it.
fn is_bad(cs: &Characters, from: usize, literal: Literal) -> bool
    requires stands { form_of (drop from cs.now) ≡ form.Number }
    requires whole { IsNumeralAt (drop from cs.now) from literal }
    ensures { IsTrue result ↔ (IsBadNumber (drop from cs.now) (literal.to - from)) }
{
    if cs.continues_word(literal.to) {
        return true;
    }
    if !is_decimal(literal) {
        return false;
    }
    is_padded(cs, from, literal.to)
}

/// Whether the literal has decimal digits alone.
fn is_decimal(literal: Literal) -> bool
    ensures { result ≡ (literal.base == 10 && literal.whole == literal.to) }
{
    literal.base == 10 && literal.whole == literal.to
}

/// Whether these digits begin with a superfluous 0.
fn is_padded(cs: &Characters, from: usize, to: usize) -> bool
    requires { to ≤ length cs.now }
    ensures { result ≡ (slice_index cs.now from == zero_digit && not (is_zero (slice_range cs.now from to))) }
{
    stands(cs, from, b'0') && !is_zero(cs, from, to)
}

/// Whether each of these digits is a 0.
fn is_zero(cs: &Characters, from: usize, to: usize) -> bool
    requires { to ≤ length cs.now }
    ensures { result ≡ is_zero (slice_range cs.now from to) }
{
    for at in from..to {
        if !stands_either(cs, at, b'0', b'_') {
            return false;
        }
    }
    true
}

/// The value of these digits, if it is below 2^127.
fn value(cs: &Characters, from: usize, to: usize, base: u32) -> Option<i128>
    requires lower { 2 ≤ base }
    requires upper { base ≤ 36 }
    requires inside { to ≤ length cs.now }
    requires digits { IsDigits (λ c. is_digit c base) (slice_range cs.now from to) }
    ensures { MatchOption result
        (number_limit ≤ digits_value base (slice_range cs.now from to))
        (λ v. (v ≡ pos (digits_value base (slice_range cs.now from to)))
        × (digits_value base (slice_range cs.now from to) < number_limit)) }
{
    let mut value: u128 = 0;
    for at in from..to {
        value = with_digit(cs, at, base, value)?;
    }
    i128::try_from(value).ok()
}

/// The number with the digit at an index behind its own, if it is below 2^128. An underscore changes nothing.
fn with_digit(cs: &Characters, at: usize, base: u32, value: u128) -> Option<u128>
    requires lower { 2 ≤ base }
    requires upper { base ≤ 36 }
    requires digit { IsTrue (is_digit (slice_index cs.now at) base) ⊎ (slice_index cs.now at ≡ underscore) }
    ensures { SomeIff result
        (with_digit base value (slice_index cs.now at) < 2 ^ 128)
        (with_digit base value (slice_index cs.now at)) }
{
    match digit(cs, at, base) {
        Some(digit) => value
            .checked_mul(u128::from(base))?
            .checked_add(u128::from(digit)),
        None => Some(value),
    }
}
