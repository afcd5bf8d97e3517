//! Writes the lines of constants.

ghost use Rattle.std.specs.Prelude.{◌≡◌, ◌<◌, ◌++◌, OnOk};
ghost use Rattle.std.specs.List.{flat_map};
ghost use Rattle.px_regcode.specs.Listing.{constant_line, constant_lines, escaped, hexadecimal_digit, hexadecimal_escape, quote_of, quoted, repr_of};

use crate::pieces::{write_character, write_numbered, write_whole};
use px_base::{Bytes, Constant};
use std::alloc::AllocError;

/// Writes the lines of constants, each with its number from 0.
pub(crate) fn write_constants(text: &mut Bytes, constants: &[Constant]) -> Result<(), AllocError>
    ensures { OnOk result (text.new ≡ text.old ++ constant_lines 0 constants.now) }
{
    for (n, constant) in constants.iter().enumerate() {
        write_constant_line(text, n, constant)?;
    }
    Ok(())
}

fn write_constant_line(text: &mut Bytes, n: usize, constant: &Constant) -> Result<(), AllocError>
    ensures { OnOk result (text.new ≡ text.old ++ constant_line n constant.now) }
{
    write_numbered(text, "#", n)?;
    text.extend_from_slice(b" ")?;
    write_repr(text, constant)?;
    text.extend_from_slice(b"\n")
}

fn write_repr(text: &mut Bytes, constant: &Constant) -> Result<(), AllocError>
    ensures { OnOk result (text.new ≡ text.old ++ repr_of constant.now) }
{
    match constant {
        Constant::Text(chars) => write_quoted(text, chars.as_slice()),
        Constant::Wide(n) => write_whole(text, *n),
        Constant::None => text.extend_from_slice(b"None"),
    }
}

/// The quote round the repr of a text: the double one where the text has the single one alone.
fn quote_of(chars: &[char]) -> u8
    ensures { result ≡ quote_of chars.now }
{
    if chars.contains(&'\'') && !chars.contains(&'"') {
        b'"'
    } else {
        b'\''
    }
}

/// Writes a text within quotes.
fn write_quoted(text: &mut Bytes, chars: &[char]) -> Result<(), AllocError>
    ensures { OnOk result (text.new ≡ text.old ++ quoted chars.now) }
{
    let quote = quote_of(chars);
    text.push(quote)?;
    write_characters(text, quote, chars)?;
    text.push(quote)
}

fn write_characters(text: &mut Bytes, quote: u8, chars: &[char]) -> Result<(), AllocError>
    ensures { OnOk result (text.new ≡ text.old ++ flat_map (escaped quote) chars.now) }
{
    for c in chars {
        write_escaped(text, quote, *c)?;
    }
    Ok(())
}

fn write_escaped(text: &mut Bytes, quote: u8, c: char) -> Result<(), AllocError>
    ensures { OnOk result (text.new ≡ text.old ++ escaped quote c) }
{
    let code = u32::from(c);
    if code == 92 || code == u32::from(quote) {
        text.extend_from_slice(&[b'\\', code as u8])
    } else if code == 10 {
        text.extend_from_slice(b"\\n")
    } else if code == 13 {
        text.extend_from_slice(b"\\r")
    } else if code == 9 {
        text.extend_from_slice(b"\\t")
    } else if code < 32 || code == 127 {
        write_hexadecimal(text, code as u8)
    } else {
        write_character(text, c)
    }
}

fn hexadecimal_digit(n: u8) -> u8
    requires { n < 16 }
    ensures { result ≡ hexadecimal_digit n }
{
    b"0123456789abcdef"[n as usize]
}

/// Writes a character by its code of two hexadecimal digits.
fn write_hexadecimal(text: &mut Bytes, code: u8) -> Result<(), AllocError>
    ensures { OnOk result (text.new ≡ text.old ++ hexadecimal_escape code) }
{
    text.extend_from_slice(b"\\x")?;
    text.push(hexadecimal_digit(code / 16))?;
    text.push(hexadecimal_digit(code % 16))
}
