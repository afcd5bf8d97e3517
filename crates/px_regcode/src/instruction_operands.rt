//! The operands of instructions, in the order in which a listing has them.

ghost use Rattle.std.specs.Prelude.{◌≡◌, Some, None, if◌then◌else◌, option_map};
ghost use Rattle.px_regcode.specs.InstructionGroups.{is_flow, is_view, is_value, is_builtin};
ghost use Rattle.px_regcode.specs.Listing.{operands_of};
ghost use Rattle.px_regcode.specs.OperandWords.{row_words};

use crate::instructions::Instr;
use crate::operand_words::{Operand, Row};

/// The operands of an instruction.
pub(crate) fn row_of(instr: &Instr) -> Row<'_>
    ensures { row_words result ≡ operands_of instr.now }
{
    if let Some(row) = flow_row(instr) {
        return row;
    }
    if let Some(row) = view_row(instr) {
        return row;
    }
    if let Some(row) = value_row(instr) {
        return row;
    }
    if let Some(row) = builtin_row(instr) {
        return row;
    }
    Row::Nothing
}

/// The operands of an instruction for numbers, order, calls and faults of a frame.
#[tactic(auto, unfolding(crate::specs::Listing::operands_of))]
fn flow_row(instr: &Instr) -> Option<Row<'_>>
    ensures { option_map row_words result ≡ (if is_flow instr.now then Some (operands_of instr.now) else None) }
{
    match instr {
        Instr::Const(d, n) => Some(Row::Two(Operand::Register(*d), Operand::Whole(*n))),
        Instr::Move(d, a) => Some(Row::Two(Operand::Register(*d), Operand::Register(*a))),
        Instr::Binary(op, t, d, a, b, truncates) => Some(Row::Six(
            Operand::Binary(*op),
            Operand::Type(*t),
            Operand::Register(*d),
            Operand::Register(*a),
            Operand::Register(*b),
            Operand::Flag(*truncates),
        )),
        Instr::Unary(op, t, d, a) => Some(Row::Four(
            Operand::Unary(*op),
            Operand::Type(*t),
            Operand::Register(*d),
            Operand::Register(*a),
        )),
        Instr::Compare(op, t, d, a, b) => Some(Row::Five(
            Operand::Compare(*op),
            Operand::Type(*t),
            Operand::Register(*d),
            Operand::Register(*a),
            Operand::Register(*b),
        )),
        Instr::Convert(t, d, a) | Instr::Magnitude(t, d, a) => Some(Row::Three(
            Operand::Type(*t),
            Operand::Register(*d),
            Operand::Register(*a),
        )),
        Instr::Jump(k) | Instr::Handle(k) => Some(Row::One(Operand::Target(*k))),
        Instr::Branch(a, k, j) => Some(Row::Three(
            Operand::Register(*a),
            Operand::Target(*k),
            Operand::Target(*j),
        )),
        Instr::Call(f, d, arguments) => Some(Row::Three(
            Operand::Number(*f),
            Operand::RegisterOrNone(*d),
            Operand::Registers(arguments.as_slice()),
        )),
        Instr::Return(a) | Instr::Caught(a) | Instr::Forget(a) | Instr::Unset(a) | Instr::Need(a) =>
            Some(Row::One(Operand::Register(*a))),
        Instr::Takes(a, kinds, k) => Some(Row::Three(
            Operand::Register(*a),
            Operand::Kinds(kinds.as_slice()),
            Operand::Target(*k),
        )),
        _ => None,
    }
}

/// The operands of an instruction for views and parallel loops.
#[tactic(auto, unfolding(crate::specs::Listing::operands_of))]
fn view_row(instr: &Instr) -> Option<Row<'_>>
    ensures { option_map row_words result ≡ (if is_view instr.now then Some (operands_of instr.now) else None) }
{
    match instr {
        Instr::Turned(d, a) | Instr::Fill(d, a) | Instr::Spread(d, a) => Some(Row::Two(
            Operand::Register(*d),
            Operand::Register(*a),
        )),
        Instr::Acquire(a) | Instr::Release(a) | Instr::Members(a) => Some(Row::One(
            Operand::Register(*a),
        )),
        Instr::Element(t, d, a, indices) => Some(Row::Four(
            Operand::Type(*t),
            Operand::Register(*d),
            Operand::Register(*a),
            Operand::Registers(indices.as_slice()),
        )),
        Instr::Put(t, a, indices, b) => Some(Row::Four(
            Operand::Type(*t),
            Operand::Register(*a),
            Operand::Registers(indices.as_slice()),
            Operand::Register(*b),
        )),
        Instr::Pick(d, a, axis, i, wraps) => Some(Row::Five(
            Operand::Register(*d),
            Operand::Register(*a),
            Operand::Small(*axis),
            Operand::Register(*i),
            Operand::Flag(*wraps),
        )),
        Instr::Slice(d, a, axis, b, c, e) => Some(Row::Six(
            Operand::Register(*d),
            Operand::Register(*a),
            Operand::Small(*axis),
            Operand::RegisterOrNone(*b),
            Operand::RegisterOrNone(*c),
            Operand::RegisterOrNone(*e),
        )),
        Instr::Axis(d, a, n) | Instr::Extent(d, a, n) => Some(Row::Three(
            Operand::Register(*d),
            Operand::Register(*a),
            Operand::Small(*n),
        )),
        Instr::Ordered(a, order) => Some(Row::Two(Operand::Register(*a), Operand::Order(*order))),
        Instr::Loop(n, d, k) => Some(Row::Three(
            Operand::Number(*n),
            Operand::RegisterOrNone(*d),
            Operand::Target(*k),
        )),
        Instr::Stop(kind, a) => Some(Row::Two(Operand::Stop(*kind), Operand::RegisterOrNone(*a))),
        Instr::Reduce(op, t, x, a) => Some(Row::Four(
            Operand::Binary(*op),
            Operand::Type(*t),
            Operand::Register(*x),
            Operand::Register(*a),
        )),
        _ => None,
    }
}

/// The operands of an instruction for constants, conversions, names, references and operators of objects.
#[tactic(auto, unfolding(crate::specs::Listing::operands_of))]
fn value_row(instr: &Instr) -> Option<Row<'_>>
    ensures { option_map row_words result ≡ (if is_value instr.now then Some (operands_of instr.now) else None) }
{
    match instr {
        Instr::Truth(d, a) | Instr::Share(d, a) => Some(Row::Two(
            Operand::Register(*d),
            Operand::Register(*a),
        )),
        Instr::Box(t, d, a) => Some(Row::Three(
            Operand::Type(*t),
            Operand::Register(*d),
            Operand::Register(*a),
        )),
        Instr::Drop(a) => Some(Row::One(Operand::Register(*a))),
        Instr::Text(d, n) | Instr::Wide(d, n) => Some(Row::Two(
            Operand::Register(*d),
            Operand::Constant(*n),
        )),
        Instr::Unbox(t, d, a) => Some(Row::Three(
            Operand::TypeOrNone(*t),
            Operand::Register(*d),
            Operand::Register(*a),
        )),
        Instr::Fetch(d, n) => Some(Row::Two(Operand::Register(*d), Operand::Number(*n))),
        Instr::Keep(n, a) => Some(Row::Two(Operand::Number(*n), Operand::Register(*a))),
        Instr::ObjectBinary(op, d, a, b) => Some(Row::Four(
            Operand::Binary(*op),
            Operand::Register(*d),
            Operand::Register(*a),
            Operand::Register(*b),
        )),
        Instr::ObjectUnary(op, d, a) => Some(Row::Three(
            Operand::Unary(*op),
            Operand::Register(*d),
            Operand::Register(*a),
        )),
        Instr::ObjectCompare(op, d, a, b) => Some(Row::Four(
            Operand::Compare(*op),
            Operand::Register(*d),
            Operand::Register(*a),
            Operand::Register(*b),
        )),
        Instr::ObjectIn(d, a, b) | Instr::ObjectGet(d, a, b) | Instr::ObjectSet(d, a, b) => Some(
            Row::Three(
                Operand::Register(*d),
                Operand::Register(*a),
                Operand::Register(*b),
            ),
        ),
        Instr::ObjectCut(d, a, b, c, e) => Some(Row::Five(
            Operand::Register(*d),
            Operand::Register(*a),
            Operand::RegisterOrNone(*b),
            Operand::RegisterOrNone(*c),
            Operand::RegisterOrNone(*e),
        )),
        _ => None,
    }
}

/// The operands of an instruction for displays, methods, builtins, loops, arrays and faults of objects.
#[tactic(auto, unfolding(crate::specs::Listing::operands_of))]
fn builtin_row(instr: &Instr) -> Option<Row<'_>>
    ensures { option_map row_words result ≡ (if is_builtin instr.now then Some (operands_of instr.now) else None) }
{
    match instr {
        Instr::Copy(d, a) | Instr::Said(d, a) => Some(Row::Two(
            Operand::Register(*d),
            Operand::Register(*a),
        )),
        Instr::Rethrow(a) => Some(Row::One(Operand::Register(*a))),
        Instr::Walk(d, a, b) => Some(Row::Three(
            Operand::Register(*d),
            Operand::Register(*a),
            Operand::Register(*b),
        )),
        Instr::List(d, arguments)
        | Instr::Tuple(d, arguments)
        | Instr::Dict(d, arguments)
        | Instr::Input(d, arguments)
        | Instr::Array(d, arguments) => Some(Row::Two(
            Operand::Register(*d),
            Operand::Registers(arguments.as_slice()),
        )),
        Instr::Unpack(n, a, items) => Some(Row::Three(
            Operand::Number(*n),
            Operand::Register(*a),
            Operand::Registers(items.as_slice()),
        )),
        Instr::Method(m, d, a, arguments) => Some(Row::Four(
            Operand::Method(*m),
            Operand::Register(*d),
            Operand::Register(*a),
            Operand::Registers(arguments.as_slice()),
        )),
        Instr::Builtin(m, d, arguments) => Some(Row::Three(
            Operand::Builtin(*m),
            Operand::Register(*d),
            Operand::Registers(arguments.as_slice()),
        )),
        Instr::Print(arguments) => Some(Row::One(Operand::Registers(arguments.as_slice()))),
        Instr::Raise(kind, a) => Some(Row::Two(Operand::Kind(*kind), Operand::RegisterOrNone(*a))),
        Instr::Next(d, a, x, k) => Some(Row::Four(
            Operand::Register(*d),
            Operand::Register(*a),
            Operand::Register(*x),
            Operand::Target(*k),
        )),
        Instr::View(t, d, a, rank) => Some(Row::Four(
            Operand::Type(*t),
            Operand::Register(*d),
            Operand::Register(*a),
            Operand::Small(*rank),
        )),
        _ => None,
    }
}
