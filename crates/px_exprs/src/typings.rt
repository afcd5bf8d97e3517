ghost use Rattle.std.specs.Prelude.{◌≡◌, ◌+◌, ◌<◌, List, map, length, IsTrue, MatchOption, MatchResult, ◌↔◌};
ghost use Rattle.px_lexer.specs.declared.spelling.Operator.TheVariants as sign;
ghost use Rattle.px_tree.specs.declared.typings.BaseType.{BaseType};
ghost use Rattle.px_lexer.specs.Terminals.{terminals_of};
ghost use Rattle.px_exprs.specs.Typings.{bases, AreNames, IsBase, IsAxis, AreAxes, HasAxes, IsTyping};
ghost use Rattle.px_exprs.specs.Codes.{EndsType};
ghost use Rattle.px_exprs.specs.Readings.{Reads, At, EndsElement};
ghost use Rattle.px_exprs.specs.Words.{IsStuckAt};
ghost use Rattle.px_exprs.specs.TypeParts.{ReadsFlat, ReadsInPlace, NoName, IsBaseOf, words_are_ascii, table_is_ascii, IsBehindConst};
ghost use Rattle.px_exprs.specs.Inputs.{IsInput};

use crate::readings::{Read, Unread, room_within};
use crate::words::{is_one, is_word};
use px_base::{CType, Sequence};
use px_lexer::access::{is_name, is_operator, place};
use px_lexer::{Operator, Tokens};
use px_tree::{Axes, Axis, BaseType, Type};
use std::alloc::Global;

/// The words of a base, and what they name.
type Row = (&'static [&'static [u8]], BaseType);

/// The bases. What a row begins with is a row too, so that the words of a base can be read one by one.
const BASES: [Row; 34] = [
    (&[b"bint"], BaseType::C(CType::Bint)),
    (&[b"object"], BaseType::Object),
    (&[b"Py_ssize_t"], BaseType::C(CType::SsizeT)),
    (&[b"size_t"], BaseType::C(CType::SizeT)),
    (&[b"list"], BaseType::List),
    (&[b"dict"], BaseType::Dict),
    (&[b"tuple"], BaseType::Tuple),
    (&[b"str"], BaseType::Str),
    (&[b"char"], BaseType::C(CType::Char)),
    (&[b"signed", b"char"], BaseType::C(CType::SChar)),
    (&[b"unsigned", b"char"], BaseType::C(CType::UChar)),
    (&[b"short"], BaseType::C(CType::Short)),
    (&[b"short", b"int"], BaseType::C(CType::Short)),
    (&[b"signed", b"short"], BaseType::C(CType::Short)),
    (&[b"signed", b"short", b"int"], BaseType::C(CType::Short)),
    (&[b"unsigned", b"short"], BaseType::C(CType::UShort)),
    (&[b"unsigned", b"short", b"int"], BaseType::C(CType::UShort)),
    (&[b"int"], BaseType::C(CType::Int)),
    (&[b"signed", b"int"], BaseType::C(CType::Int)),
    (&[b"signed"], BaseType::C(CType::Int)),
    (&[b"unsigned", b"int"], BaseType::C(CType::UInt)),
    (&[b"unsigned"], BaseType::C(CType::UInt)),
    (&[b"long"], BaseType::C(CType::Long)),
    (&[b"long", b"int"], BaseType::C(CType::Long)),
    (&[b"signed", b"long"], BaseType::C(CType::Long)),
    (&[b"signed", b"long", b"int"], BaseType::C(CType::Long)),
    (&[b"unsigned", b"long"], BaseType::C(CType::ULong)),
    (&[b"unsigned", b"long", b"int"], BaseType::C(CType::ULong)),
    (&[b"long", b"long"], BaseType::C(CType::LongLong)),
    (&[b"long", b"long", b"int"], BaseType::C(CType::LongLong)),
    (&[b"signed", b"long", b"long"], BaseType::C(CType::LongLong)),
    (
        &[b"signed", b"long", b"long", b"int"],
        BaseType::C(CType::LongLong),
    ),
    (
        &[b"unsigned", b"long", b"long"],
        BaseType::C(CType::ULongLong),
    ),
    (
        &[b"unsigned", b"long", b"long", b"int"],
        BaseType::C(CType::ULongLong),
    ),
];

/// The table of the bases.
#[tactic(auto, unfolding(crate::specs::Typings::bases))]
fn table() -> &'static [Row]
    ensures { map (λ row. (map (λ word. word.now) row.0.now, row.1)) result.now ≡ bases }
{
    &BASES
}

/// Whether identifiers with these spellings stand from one index to before another.
fn are_words(tokens: &Tokens, from: usize, to: usize, mut words: &[&[u8]]) -> bool
    requires input { IsInput tokens.now }
    requires ascii { IsTrue (words_are_ascii (map (λ word. word.now) words.now)) }
    ensures { IsTrue result ↔ (AreNames (terminals_of tokens.now) from (map (λ word. word.now) words.entry.now) to) }
{
    let mut at = from;
    while let [word, rest @ ..] = words {
        if !is_word(tokens, at, word) {
            return false;
        }
        at += 1;
        words = rest;
    }
    at == to
}

/// The base in a table whose words stand from one index to before another, if there is one.
fn base_in(mut table: &[Row], tokens: &Tokens, from: usize, to: usize) -> Option<BaseType>
    requires input { IsInput tokens.now }
    requires ascii { IsTrue (table_is_ascii (map (λ row. (map (λ word. word.now) row.0.now, row.1)) table.now)) }
    ensures { MatchOption result
        ((b : BaseType) → IsBaseOf (map (λ row. (map (λ word. word.now) row.0.now, row.1)) table.entry.now) (terminals_of tokens.now) from b to → ⊥)
        (λ b. IsBaseOf (map (λ row. (map (λ word. word.now) row.0.now, row.1)) table.entry.now) (terminals_of tokens.now) from b to) }
{
    while let [row, rest @ ..] = table {
        if are_words(tokens, from, to, row.0) {
            return Some(row.1);
        }
        table = rest;
    }
    None
}

/// The base whose words stand from one index to before another, if there is one.
pub fn base_of(tokens: &Tokens, from: usize, to: usize) -> Option<BaseType>
    requires { IsInput tokens.now }
    ensures { MatchOption result ((b : BaseType) → IsBase (terminals_of tokens.now) from b to → ⊥) (λ b. IsBase (terminals_of tokens.now) from b to) }
{
    base_in(table(), tokens, from, to)
}

/// The base from an index on. All identifiers from there on are its words.
///
/// # Errors
/// `Stuck` at the first token with which none begins.
fn base(tokens: &Tokens, from: usize) -> Result<Read<BaseType>, Unread>
    requires input { IsInput tokens.now }
    requires inside { from < length tokens.now.list }
    ensures { ReadsInPlace IsBase NoName (terminals_of tokens.now) from result }
{
    let Some(mut tree) = base_of(tokens, from, from + 1) else {
        return Err(Unread::Stuck(from));
    };
    let mut to = from + 1;
    while let Some(longer) = base_of(tokens, from, to + 1) {
        tree = longer;
        to += 1;
    }
    if is_name(tokens, to) {
        Err(Unread::Stuck(to))
    } else {
        Ok(Read { tree, depth: 0, to })
    }
}

/// This axis, where a comma or the closing bracket stands behind it.
///
/// # Errors
/// `Stuck` where neither stands there.
fn end_axis(tokens: &Tokens, tree: Axis, to: usize) -> Result<Read<Axis>, Unread>
    ensures { MatchResult result
        (λ read. (read.tree ≡ tree) × (read.depth ≡ 0) × (read.to ≡ to) × EndsElement sign.CloseBracket (terminals_of tokens.now) to)
        (λ unread. IsStuckAt to unread × (EndsElement sign.CloseBracket (terminals_of tokens.now) to → ⊥)) }
{
    if is_operator(tokens, to, Operator::Comma) || is_operator(tokens, to, Operator::CloseBracket) {
        Ok(Read { tree, depth: 0, to })
    } else {
        Err(Unread::Stuck(to))
    }
}

/// The axis from an index on.
///
/// # Errors
/// `Stuck` at the first token with which none begins.
fn axis(tokens: &Tokens, from: usize) -> Result<Read<Axis>, Unread>
    requires input { IsInput tokens.now }
    requires inside { from < length tokens.now.list }
    ensures { ReadsInPlace IsAxis (EndsElement sign.CloseBracket) (terminals_of tokens.now) from result }
{
    if !is_operator(tokens, from, Operator::Colon) {
        return Err(Unread::Stuck(from));
    }
    if !is_operator(tokens, from + 1, Operator::Colon) {
        return end_axis(tokens, Axis::Strided, from + 1);
    }
    if !is_one(tokens, from + 2) {
        return Err(Unread::Stuck(from + 2));
    }
    end_axis(tokens, Axis::Contiguous, from + 3)
}

/// The axes from an index on, before the closing bracket.
///
/// # Errors
/// `Stuck` at the first token with which none begin; `NoMemory` where there is no memory for them.
pub fn axes(alloc: Global, tokens: &Tokens, from: usize) -> Result<Read<Axes>, Unread>
    requires input { IsInput tokens.now }
    requires inside { from < length tokens.now.list }
    ensures { ReadsFlat AreAxes (At sign.CloseBracket) (terminals_of tokens.now) from result }
{
    let mut tree = Sequence::new(alloc);
    let first = axis(tokens, from)?;
    tree.push(first.tree)?;
    let mut to = first.to;
    while is_operator(tokens, to, Operator::Comma) {
        let next = axis(tokens, to + 1)?;
        tree.push(next.tree)?;
        to = next.to;
    }
    Ok(Read { tree, depth: 0, to })
}

/// The axes in brackets from an index on, or none where no bracket stands there, before an operator.
///
/// # Errors
/// `Stuck` at the first token with which none begin; `TooDeep` at the bracket where there is no room for it; `NoMemory` where
/// there is no memory for them.
fn view(
    alloc: Global,
    tokens: &Tokens,
    room: usize,
    from: usize,
    closing: Operator,
) -> Result<Read<Axes>, Unread>
    requires input { IsInput tokens.now }
    requires inside { from < length tokens.now.list }
    requires closes { EndsType closing }
    ensures { Reads HasAxes (At closing) (terminals_of tokens.now) from room result }
{
    if is_operator(tokens, from, closing) {
        return Ok(Read {
            tree: Sequence::new(alloc),
            depth: 0,
            to: from,
        });
    }
    if !is_operator(tokens, from, Operator::OpenBracket) {
        return Err(Unread::Stuck(from));
    }
    room_within(room, 0, from)?;
    let axes = axes(alloc, tokens, from + 1)?;
    let to = axes.to + 1;
    if is_operator(tokens, to, closing) {
        Ok(Read {
            tree: axes.tree,
            depth: 1,
            to,
        })
    } else {
        Err(Unread::Stuck(to))
    }
}

/// The index behind `const` where it stands at an index, and else that index.
pub fn behind_const(tokens: &Tokens, from: usize) -> usize
    requires { IsInput tokens.now }
    ensures { IsBehindConst (terminals_of tokens.now) from result }
{
    if is_word(tokens, from, b"const") {
        from + 1
    } else {
        from
    }
}

/// The type from an index on, before an operator.
///
/// # Errors
/// `Stuck` at the first token with which none begins; `TooDeep` at the bracket of its axes where there is no room for it;
/// `NoMemory` where there is no memory for the axes.
pub fn typing(
    alloc: Global,
    tokens: &Tokens,
    room: usize,
    from: usize,
    closing: Operator,
) -> Result<Read<Type>, Unread>
    requires input { IsInput tokens.now }
    requires inside { from < length tokens.now.list }
    requires closes { EndsType closing }
    ensures { Reads IsTyping (At closing) (terminals_of tokens.now) from room result }
{
    let base_from = behind_const(tokens, from);
    let base = base(tokens, base_from)?;
    let axes = view(alloc, tokens, room, base.to, closing)?;
    let tree = Type {
        number: from as u32,
        at: place(tokens, from),
        is_const: from < base_from,
        base: base.tree,
        axes: axes.tree,
    };
    Ok(Read {
        tree,
        depth: axes.depth,
        to: axes.to,
    })
}
