//! Writes the words of instructions.

ghost use Rattle.std.specs.Prelude.{◌≡◌, [], ◌∷◌, ◌++◌, ℕ, ℤ, List, map, codes, decimal, OnOk};
ghost use Rattle.std.specs.Fmt.{signed_decimal};
ghost use Rattle.px_base.specs.Lines.{kind_name};
ghost use Rattle.px_regcode.specs.Listing.{spaced, words, instruction_line};
ghost use Rattle.px_regcode.specs.OperandWords.{operand_words, row_words};
ghost use Rattle.px_regcode.specs.Words.{register_word, register_or_none, type_or_none};

use crate::instruction_names::name_of;
use crate::instruction_operands::row_of;
use crate::instructions::Instr;
use crate::operand_words::{Operand, Row};
use crate::operands::Register;
use crate::words::{
    binary_word, builtin_word, compare_word, flag_word, kind_word, method_word, order_word,
    stop_word, type_word, unary_word,
};
use itoa::Buffer;
use px_base::{Bytes, CType, Kind};
use std::alloc::AllocError;

/// Writes a word behind a space, in two parts.
fn write_word(text: &mut Bytes, front: &str, rest: &str) -> Result<(), AllocError>
    ensures { OnOk result (text.new ≡ text.old ++ spaced ((front.now ++ rest.now) ∷ [])) }
{
    text.extend_from_slice(b" ")?;
    text.extend_from_slice(front.as_bytes())?;
    text.extend_from_slice(rest.as_bytes())
}

/// Writes a number as a word, behind what stands before it.
fn write_number(text: &mut Bytes, front: &str, n: u32) -> Result<(), AllocError>
    ensures { OnOk result (text.new ≡ text.old ++ spaced ((front.now ++ decimal n) ∷ [])) }
{
    let mut buffer = Buffer::new();
    write_word(text, front, buffer.format(n))
}

fn write_whole(text: &mut Bytes, n: i128) -> Result<(), AllocError>
    ensures { OnOk result (text.new ≡ text.old ++ spaced (signed_decimal n ∷ [])) }
{
    let mut buffer = Buffer::new();
    write_word(text, "", buffer.format(n))
}

fn write_register_or_none(text: &mut Bytes, register: Option<Register>) -> Result<(), AllocError>
    ensures { OnOk result (text.new ≡ text.old ++ spaced (register_or_none register ∷ [])) }
{
    match register {
        None => write_word(text, "-", ""),
        Some(register) => write_number(text, "r", register.number),
    }
}

fn write_type_or_none(text: &mut Bytes, t: Option<CType>) -> Result<(), AllocError>
    ensures { OnOk result (text.new ≡ text.old ++ spaced (type_or_none t ∷ [])) }
{
    match t {
        None => write_word(text, "-", ""),
        Some(t) => write_word(text, "", type_word(t)),
    }
}

fn write_registers(text: &mut Bytes, registers: &[Register]) -> Result<(), AllocError>
    ensures { OnOk result (text.new ≡ text.old ++ spaced (map register_word registers.now)) }
{
    for register in registers {
        write_number(text, "r", register.number)?;
    }
    Ok(())
}

fn write_kinds(text: &mut Bytes, kinds: &[Kind]) -> Result<(), AllocError>
    ensures { OnOk result (text.new ≡ text.old ++ spaced (map kind_name kinds.now)) }
{
    for kind in kinds {
        write_word(text, "", kind_word(*kind))?;
    }
    Ok(())
}

fn write_operand(text: &mut Bytes, operand: Operand<'_>) -> Result<(), AllocError>
    ensures { OnOk result (text.new ≡ text.old ++ spaced (operand_words operand.entry)) }
{
    match operand {
        Operand::Register(register) => write_number(text, "r", register.number),
        Operand::RegisterOrNone(register) => write_register_or_none(text, register),
        Operand::Registers(registers) => write_registers(text, registers),
        Operand::Target(k) => write_number(text, "@", k),
        Operand::Constant(n) => write_number(text, "#", n),
        Operand::Number(n) => write_number(text, "", n),
        Operand::Small(n) => write_number(text, "", u32::from(n)),
        Operand::Whole(n) => write_whole(text, n),
        Operand::Flag(holds) => write_word(text, "", flag_word(holds)),
        Operand::Binary(op) => write_word(text, "", binary_word(op)),
        Operand::Unary(op) => write_word(text, "", unary_word(op)),
        Operand::Compare(op) => write_word(text, "", compare_word(op)),
        Operand::Type(t) => write_word(text, "", type_word(t)),
        Operand::TypeOrNone(t) => write_type_or_none(text, t),
        Operand::Method(method) => write_word(text, "", method_word(method)),
        Operand::Builtin(builtin) => write_word(text, "", builtin_word(builtin)),
        Operand::Order(order) => write_word(text, "", order_word(order)),
        Operand::Stop(kind) => write_word(text, "", stop_word(kind)),
        Operand::Kind(kind) => write_word(text, "", kind_word(kind)),
        Operand::Kinds(kinds) => write_kinds(text, kinds),
    }
}

fn write_two(text: &mut Bytes, a: Operand<'_>, b: Operand<'_>) -> Result<(), AllocError>
    ensures { OnOk result (text.new ≡ text.old ++ spaced (operand_words a.entry ++ operand_words b.entry)) }
{
    write_operand(text, a)?;
    write_operand(text, b)
}

fn write_three(
    text: &mut Bytes,
    a: Operand<'_>,
    b: Operand<'_>,
    c: Operand<'_>,
) -> Result<(), AllocError>
    ensures { OnOk result (text.new ≡ text.old ++ spaced (operand_words a.entry ++ operand_words b.entry ++ operand_words c.entry)) }
{
    write_two(text, a, b)?;
    write_operand(text, c)
}

fn write_four(
    text: &mut Bytes,
    a: Operand<'_>,
    b: Operand<'_>,
    c: Operand<'_>,
    d: Operand<'_>,
) -> Result<(), AllocError>
    ensures { OnOk result (text.new ≡ text.old ++ spaced (operand_words a.entry ++ operand_words b.entry ++ operand_words c.entry ++ operand_words d.entry)) }
{
    write_three(text, a, b, c)?;
    write_operand(text, d)
}

fn write_five(
    text: &mut Bytes,
    a: Operand<'_>,
    b: Operand<'_>,
    c: Operand<'_>,
    d: Operand<'_>,
    e: Operand<'_>,
) -> Result<(), AllocError>
    ensures { OnOk result (text.new ≡ text.old ++ spaced (operand_words a.entry ++ operand_words b.entry ++ operand_words c.entry ++ operand_words d.entry ++ operand_words e.entry)) }
{
    write_four(text, a, b, c, d)?;
    write_operand(text, e)
}

fn write_six(
    text: &mut Bytes,
    a: Operand<'_>,
    b: Operand<'_>,
    c: Operand<'_>,
    d: Operand<'_>,
    e: Operand<'_>,
    f: Operand<'_>,
) -> Result<(), AllocError>
    ensures { OnOk result (text.new ≡ text.old ++ spaced (operand_words a.entry ++ operand_words b.entry ++ operand_words c.entry ++ operand_words d.entry ++ operand_words e.entry ++ operand_words f.entry)) }
{
    write_five(text, a, b, c, d, e)?;
    write_operand(text, f)
}

/// Writes operands, each word behind a space.
fn write_operands(text: &mut Bytes, row: Row<'_>) -> Result<(), AllocError>
    ensures { OnOk result (text.new ≡ text.old ++ spaced (row_words row.entry)) }
{
    match row {
        Row::Nothing => Ok(()),
        Row::One(a) => write_operand(text, a),
        Row::Two(a, b) => write_two(text, a, b),
        Row::Three(a, b, c) => write_three(text, a, b, c),
        Row::Four(a, b, c, d) => write_four(text, a, b, c, d),
        Row::Five(a, b, c, d, e) => write_five(text, a, b, c, d, e),
        Row::Six(a, b, c, d, e, f) => write_six(text, a, b, c, d, e, f),
    }
}

/// Writes the words of an instruction, each behind a space.
pub(crate) fn write_instruction(text: &mut Bytes, instr: &Instr) -> Result<(), AllocError>
    ensures { OnOk result (text.new ≡ text.old ++ spaced (words instr.now)) }
{
    write_word(text, "", name_of(instr))?;
    write_operands(text, row_of(instr))
}
