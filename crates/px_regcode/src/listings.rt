//! Writes the listing of a module's code: the lines of its functions, and behind them those of its constants.

ghost use Rattle.std.specs.Prelude.{◌≡◌, ◌++◌, encode_utf8_all, IfOk, OnOk};
ghost use Rattle.std.specs.List.{flat_map};
ghost use Rattle.px_regcode.specs.Listing.{code_header, code_text, instruction_line, instruction_lines, listing_of};

use crate::codes::Code;
use crate::constants::write_constants;
use crate::image::Image;
use crate::instructions::Instr;
use crate::pieces::{write_character, write_numbered};
use crate::writing::write_instruction;
use px_base::{Bytes, Constant, NoMemory};
use std::alloc::{AllocError, Global};

/// The listing of an image: the lines of its functions, module code first, and behind them one line for each constant.
///
/// # Errors
/// `NoMemory` where there is no memory for the text.
pub fn listing(alloc: Global, image: &Image) -> Result<Bytes, NoMemory>
    ensures { IfOk result (λ text. text ≡ listing_of image.now.codes image.now.constants) }
{
    write_listing(alloc, image.codes(), image.constants())
}

/// The listing of these codes and constants: the lines of each function, and behind them one line for each constant.
///
/// # Errors
/// `NoMemory` where there is no memory for the text.
pub fn write_listing(
    alloc: Global,
    codes: &[Code],
    constants: &[Constant],
) -> Result<Bytes, NoMemory>
    ensures { IfOk result (λ text. text ≡ listing_of codes.now constants.now) }
{
    let mut text = Bytes::new(alloc);
    write_codes(&mut text, codes)?;
    write_constants(&mut text, constants)?;
    Ok(text)
}

fn write_name(text: &mut Bytes, name: &[char]) -> Result<(), AllocError>
    ensures { OnOk result (text.new ≡ text.old ++ encode_utf8_all name.now) }
{
    for c in name {
        write_character(text, *c)?;
    }
    Ok(())
}

fn write_instruction_line(text: &mut Bytes, k: usize, instr: &Instr) -> Result<(), AllocError>
    ensures { OnOk result (text.new ≡ text.old ++ instruction_line k instr.now) }
{
    write_numbered(text, "  ", k)?;
    write_instruction(text, instr)?;
    text.extend_from_slice(b"\n")
}

fn write_instructions(text: &mut Bytes, instrs: &[Instr]) -> Result<(), AllocError>
    ensures { OnOk result (text.new ≡ text.old ++ instruction_lines 0 instrs.now) }
{
    for (k, instr) in instrs.iter().enumerate() {
        write_instruction_line(text, k, instr)?;
    }
    Ok(())
}

fn write_header(text: &mut Bytes, code: &Code) -> Result<(), AllocError>
    ensures { OnOk result (text.new ≡ text.old ++ code_header code.now) }
{
    text.extend_from_slice(b"function ")?;
    write_name(text, code.name.as_slice())?;
    write_numbered(text, " registers ", code.registers as usize)?;
    text.extend_from_slice(b"\n")
}

fn write_code(text: &mut Bytes, code: &Code) -> Result<(), AllocError>
    ensures { OnOk result (text.new ≡ text.old ++ code_text code.now) }
{
    write_header(text, code)?;
    write_instructions(text, code.instrs.as_slice())
}

fn write_codes(text: &mut Bytes, codes: &[Code]) -> Result<(), AllocError>
    ensures { OnOk result (text.new ≡ text.old ++ flat_map code_text codes.now) }
{
    for code in codes {
        write_code(text, code)?;
    }
    Ok(())
}
