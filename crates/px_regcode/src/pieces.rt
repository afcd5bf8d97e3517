//! Writes the pieces of a line: numbers and characters.

ghost use Rattle.std.specs.Prelude.{◌≡◌, ◌++◌, decimal, encode_utf8, OnOk};
ghost use Rattle.std.specs.Fmt.{signed_decimal};

use itoa::Buffer;
use px_base::Bytes;
use std::alloc::AllocError;

/// Writes a number behind what stands before it.
pub(crate) fn write_numbered(text: &mut Bytes, front: &str, n: usize) -> Result<(), AllocError>
    ensures { OnOk result (text.new ≡ text.old ++ (front.now ++ decimal n)) }
{
    let mut buffer = Buffer::new();
    text.extend_from_slice(front.as_bytes())?;
    text.extend_from_slice(buffer.format(n).as_bytes())
}

/// Writes a whole number.
pub(crate) fn write_whole(text: &mut Bytes, n: i128) -> Result<(), AllocError>
    ensures { OnOk result (text.new ≡ text.old ++ signed_decimal n) }
{
    let mut buffer = Buffer::new();
    text.extend_from_slice(buffer.format(n).as_bytes())
}

/// Writes a character in UTF-8.
pub(crate) fn write_character(text: &mut Bytes, c: char) -> Result<(), AllocError>
    ensures { OnOk result (text.new ≡ text.old ++ encode_utf8 c) }
{
    let mut buffer = [0u8; 4];
    text.extend_from_slice(c.encode_utf8(&mut buffer).as_bytes())
}
